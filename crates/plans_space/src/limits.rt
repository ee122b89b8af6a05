//! The numbers that a plan goes by.
ghost use Rattle.std.specs.Prelude.{◌≡◌, ◌-◌, ◌*◌, ◌/◌, ◌<◌, ◌≤◌, ◌^◌, max};
ghost use Rattle.plans_space.specs.Caps.{cap, unit, budget, charge};

use base_types::Fraction;

/// The most units that a plan may be charged.
const MOST_UNITS: u128 = 4096;

/// The numbers that charges go by, for one list or for several together.
#[derive(Clone, Copy)]
pub struct Limits {
    /// How many postings a unit is.
    pub unit: u128,
    /// How many units may be charged, at most 4,096.
    pub budget: usize,
    pub ghost some: { 1 ≤ unit },
    pub ghost unit_fits: { unit < 2 ^ 100 },
    pub ghost few: { budget ≤ 4096 },
}

/// The limits for lists of so many postings together. Constant cost.
pub fn limits_of(factor: Fraction, postings: u64) -> Limits
    requires { postings < 2 ^ 43 }
    ensures unit { result.unit ≡ unit (cap factor postings) }
    ensures budget { result.budget ≡ budget (cap factor postings) }
{
    let cap = u128::from(factor.over) * u128::from(postings) / u128::from(factor.under);
    let unit = cap.div_ceil(MOST_UNITS).max(1);
    Limits {
        unit,
        budget: (cap / unit) as usize,
    }
}

/// What so many postings are charged. Constant cost.
pub fn charge(size: u64, limits: Limits) -> u64
    requires { size < 2 ^ 43 }
    ensures value { result ≡ charge limits.unit size }
    ensures bound { result ≤ size }
{
    u128::from(size).div_ceil(limits.unit) as u64
}
