//! The weights of one text.
ghost use Rattle.std.specs.Prelude.{◌≡◌};
ghost use Rattle.lists_tails.specs.Weights.{AreWeights};

use lists_tails::Weight;
use std::marker::Model;

/// How often a text has each of its words, in ascending order of the words. Contracts see the list.
#[derive(Drop)]
pub(crate) struct Weights {
    items: Vec<Weight>,
}

impl Model for Weights {
    ghost use Rattle.std.specs.Prelude.{List};
    ghost use Rattle.lists_tails.specs.declared.weight.Weight.{Weight};
    ghost use Rattle.lists_tails.specs.Weights.{AreWeights};

    ghost Value = { List Weight };

    ghost view = { λ w. w.items.items };

    ghost invariant = { λ w. AreWeights w.items.items };
}

impl Weights {
    /// These weights.
    pub(crate) fn new(items: Vec<Weight>) -> Weights
        requires { AreWeights items.items }
        ensures { result ≡ items.items }
    {
        Weights { items }
    }

    /// The list.
    pub(crate) fn as_slice(&self) -> &[Weight]
        ensures value { result.now ≡ self.now }
        ensures ascending { AreWeights result.now }
    {
        self.items.as_slice()
    }

    /// The list by value.
    pub(crate) fn into_items(self) -> Vec<Weight>
        ensures value { result.items ≡ self }
        ensures ascending { AreWeights result.items }
    {
        self.items
    }
}
