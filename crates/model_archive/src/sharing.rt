//! What is told of a budget that words share.
use base_types::Key;
use plans_space::Point;

/// What a word gets of a budget.
#[derive(Debug, Drop)]
pub struct Share {
    /// The word.
    pub word: Key,
    /// What its plan is charged, in units of the budget, and what its reads are then expected to cost.
    pub taken: Point,
}

/// How a budget is best spent on several words.
#[derive(Debug, Drop)]
pub struct Sharing {
    /// The words' shares, in the order in which the words were given first.
    pub shares: Vec<Share>,
    /// How many postings a unit is.
    pub unit: u128,
    /// How many units there are, at most 4,096.
    pub budget: u64,
    /// What reads of all the words are expected to cost together, in postings.
    pub cost: u128,
}
