//! The numbers of a certificate.
ghost use Rattle.std.specs.Prelude.{◌≡◌};

use std::marker::Model;

/// The numbers of a certificate, in postings: one for each boundary of a list, by place. Contracts see
/// their list.
#[derive(Debug, Drop)]
pub struct Certificate {
    pi: Vec<u64>,
}

impl Model for Certificate {
    ghost use Rattle.std.specs.Prelude.{ℕ, List};

    ghost Value = { List ℕ };

    ghost view = { λ c. c.pi.items };
}

impl Certificate {
    /// The certificate of these numbers, whatever they are. Constant cost.
    pub fn new(pi: Vec<u64>) -> Certificate
        ensures { result ≡ pi.items }
    {
        Certificate { pi }
    }

    /// The numbers, by the place of their boundary. Constant cost.
    pub fn pi(&self) -> &[u64]
        ensures { result.now ≡ self.now }
    {
        &self.pi
    }
}
