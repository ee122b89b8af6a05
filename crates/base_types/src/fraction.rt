//! The factors of plans.
ghost use Rattle.std.specs.Prelude.{◌≡◌, ◌<◌, ◌≤◌, ◌^◌, ◌↔◌, IsSome, IfSome};

/// A factor `over / under` of at least 1, as it was written: 2/2 and 1/1 are two values, and so
/// fractions have no order of their own.
#[derive(Clone, Copy, Debug, PartialEq, Eq, Hash)]
pub struct Fraction {
    /// The numerator.
    pub over: u32,
    /// The denominator, from 1 to the numerator.
    pub under: u32,
    pub ghost proper: { 1 ≤ under },
    pub ghost at_least_one: { under ≤ over },
    pub ghost in_range: { over < 2 ^ 32 },
}

impl Fraction {
    /// The factor `over / under`; None where the denominator is 0 or the factor is below 1.
    /// Constant cost.
    pub fn new(over: u32, under: u32) -> Option<Fraction>
        ensures valid { IsSome result ↔ ((1 ≤ under) × (under ≤ over)) }
        ensures value { IfSome result (λ f. (f.over ≡ over) × (f.under ≡ under)) }
    {
        if 1 <= under && under <= over {
            Some(Fraction { over, under })
        } else {
            None
        }
    }

    /// The numerator. Constant cost.
    pub fn over(self) -> u32
        ensures value { result ≡ self.over }
        ensures at_least_under { self.under ≤ result }
    {
        self.over
    }

    /// The denominator. Constant cost.
    pub fn under(self) -> u32
        ensures value { result ≡ self.under }
        ensures not_zero { 1 ≤ result }
    {
        self.under
    }
}
