//! How often each time is asked for.
ghost use Rattle.std.specs.Prelude.{◌≡◌};
ghost use Rattle.plans_space.specs.Loads.{Weighs};

use base_types::Span;
use std::marker::Model;

/// A load: a function that answers for a span how often its times are asked for, at most 2^40. It
/// answers by its own contract; a plan is best for what it answered.
#[derive(Drop)]
pub struct Load<F> {
    weight: F,
}

impl<F> Model for Load<F> {
    ghost Value = { F };

    ghost view = { λ l. l.weight };
}

impl<F: Fn(Span) -> u64> Load<F> {
    /// The load of a function that may be asked of every span. Constant cost.
    pub fn new(weight: F) -> Load<F>
        requires weighs { Weighs (F.pre weight) (F.post weight) }
        ensures { result ≡ weight }
    {
        Load { weight }
    }

    /// The weight of the span. Costs one call of the function.
    pub(crate) fn weigh(&self, span: Span) -> u64
        requires weighs { Weighs (F.pre self.now) (F.post self.now) }
        ensures { F.post self.now span result }
    {
        (self.weight)(span)
    }
}
