//! Points of a front.

/// A charge at which the least expected cost falls, and that cost.
#[derive(Clone, Copy, Debug, PartialEq, Eq)]
pub struct Point {
    /// What a partition is charged, in units.
    pub charge: u64,
    /// The least expected cost of the partitions that are charged at most that.
    pub cost: u128,
}
