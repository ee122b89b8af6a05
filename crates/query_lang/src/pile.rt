//! Piles.
ghost use Rattle.std.specs.Prelude.{◌≡◌, [], ◌∷◌, OnOk, reverse};
ghost use Rattle.query_lang.specs.Piles.{top_of, below};

use std::alloc::{AllocError, Global};
use std::marker::Model;

/// Values of which the last one that came is the first to go. Contracts see the last one first.
#[derive(Debug, Drop)]
pub struct Pile<T> {
    items: Vec<T>,
}

impl<T> Model for Pile<T> {
    ghost use Rattle.std.specs.Prelude.{List, reverse};

    ghost Value = { List T };

    ghost view = { λ p. reverse p.items.items };
}

impl<T: Copy> Pile<T> {
    /// An empty pile. Constant cost.
    pub fn new(alloc: Global) -> Pile<T>
        ensures { result ≡ [] }
    {
        Pile {
            items: Vec::new(alloc),
        }
    }

    /// The values, the last one last.
    pub(crate) fn as_slice(&self) -> &[T]
        ensures { reverse result.now ≡ self.now }
    {
        self.items.as_slice()
    }

    pub(crate) fn push(&mut self, x: T) -> Result<(), AllocError>
        ensures { OnOk result (self.new ≡ x ∷ self.old) }
    {
        self.items.push(x)?;
        Ok(())
    }

    pub(crate) fn top(&self) -> Option<T>
        ensures { result ≡ top_of self.now }
    {
        self.items.last().copied()
    }

    /// Takes the last one off.
    pub(crate) fn pop(&mut self) -> Option<T>
        ensures top { result ≡ top_of self.old }
        ensures below { self.new ≡ below self.old }
    {
        self.items.pop()
    }

    /// Takes all of them off.
    pub(crate) fn clear(&mut self)
        ensures { self.new ≡ [] }
    {
        self.items.clear();
    }
}
