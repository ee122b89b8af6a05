//! Words of queries.
ghost use Rattle.std.specs.Prelude.{◌≡◌, IfOk};

use base_types::Key;
use std::alloc::AllocError;

/// A word of a query, with how much it weighs.
#[derive(Debug, Drop)]
pub struct Term {
    /// The word.
    pub key: Key,
    /// Its weight, from 1 to 1,000.
    pub weight: u32,
}

impl Term {
    /// The same again.
    pub(crate) fn copied(&self) -> Result<Term, AllocError>
        ensures { IfOk result (λ t. t ≡ self.now) }
    {
        Ok(Term {
            key: self.key.clone()?,
            weight: self.weight,
        })
    }
}
