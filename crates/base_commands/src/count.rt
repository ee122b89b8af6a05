//! How many rows are asked for.
ghost use Rattle.std.specs.Prelude.{◌≡◌, ◌≤◌, ◌↔◌, IsSome, IfSome};

/// The most rows that are asked for of a query at a time.
pub const MOST_TOP_ROWS: u32 = 1_000_000;

/// The most rows that are asked for by the blocks of lists.
pub const MOST_BEST_ROWS: u32 = 1_000;

/// How many rows of a query at a time are asked for, from 1 to `MOST_TOP_ROWS`.
#[derive(Clone, Copy, Debug, PartialEq, Eq, Hash)]
pub struct TopCount {
    /// The number of rows.
    pub number: u32,
    pub ghost some: { 1 ≤ number },
    pub ghost few: { number ≤ 1000000 },
}

impl TopCount {
    /// The count of so many rows; None where these are none or too many. Constant cost.
    pub fn new(number: u32) -> Option<TopCount>
        ensures valid { IsSome result ↔ ((1 ≤ number) × (number ≤ 1000000)) }
        ensures value { IfSome result (λ c. c.number ≡ number) }
    {
        if 1 <= number && number <= MOST_TOP_ROWS {
            Some(TopCount { number })
        } else {
            None
        }
    }

    /// The number of rows. Constant cost.
    pub fn number(self) -> u32
        ensures value { result ≡ self.number }
        ensures some { 1 ≤ result }
        ensures few { result ≤ 1000000 }
    {
        self.number
    }
}

/// How many rows are asked for by the blocks of lists, from 1 to `MOST_BEST_ROWS`.
#[derive(Clone, Copy, Debug, PartialEq, Eq, Hash)]
pub struct BestCount {
    /// The number of rows.
    pub number: u32,
    pub ghost some: { 1 ≤ number },
    pub ghost few: { number ≤ 1000 },
}

impl BestCount {
    /// The count of so many rows; None where these are none or too many. Constant cost.
    pub fn new(number: u32) -> Option<BestCount>
        ensures valid { IsSome result ↔ ((1 ≤ number) × (number ≤ 1000)) }
        ensures value { IfSome result (λ c. c.number ≡ number) }
    {
        if 1 <= number && number <= MOST_BEST_ROWS {
            Some(BestCount { number })
        } else {
            None
        }
    }

    /// The number of rows. Constant cost.
    pub fn number(self) -> u32
        ensures value { result ≡ self.number }
        ensures some { 1 ≤ result }
        ensures few { result ≤ 1000 }
    {
        self.number
    }
}
