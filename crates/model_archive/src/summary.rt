//! What is told of a plan that was stored.
use base_types::Time;

/// What is told of a plan that was stored.
#[derive(Clone, Copy, Debug, PartialEq, Eq)]
pub struct Summary {
    /// How many entries the history has now.
    pub length: u64,
    /// How many segments the plan has.
    pub segments: u64,
    /// The sizes of their sublists added up, in postings.
    pub space: u64,
    /// The size of the word's list up to the horizon, in postings.
    pub full: u64,
    /// The horizon, which is the last time.
    pub horizon: Time,
    /// What its reads are expected to cost, of a plan under a space bound: the postings read if its times are
    /// asked for as its load says. None of a plan that keeps to a guarantee.
    pub cost: Option<u128>,
}
