//! What is chosen, or why nothing is.
ghost use Rattle.std.specs.Prelude.{◌≡◌};
ghost use Rattle.plans_choice.specs.declared.choice.ChoiceError.{ChoiceError};
ghost use Rattle.plans_choice.specs.declared.choice.ChoiceError.{ChoiceError};

use base_types::Time;
use std::alloc::{AllocError, AllocFailed};

/// A plan that is what its kind promises.
#[derive(Debug, Drop)]
pub struct Choice {
    /// The left ends of its segments, ascending; the last segment ends at the horizon.
    pub cuts: Vec<Time>,
    /// How many postings its sublists have together.
    pub space: u64,
    /// What its reads are expected to cost under the load of its kind: for each second that is asked for
    /// the postings of the segment that holds it, added up. None for a guarantee.
    pub cost: Option<u128>,
}

/// Why there is no plan.
#[derive(Clone, Copy, Debug, PartialEq, Eq)]
pub enum ChoiceError {
    /// The list has more boundaries than one whose plan keeps to a guarantee may have.
    TooWide {
        /// How many it has.
        boundaries: u64,
    },
    /// There was no memory for the plan.
    Memory,
}

impl From<AllocError> for ChoiceError {
    ghost from_gives = { λ _ e. e ≡ ChoiceError.Memory };

    fn from(_error: AllocError) -> ChoiceError {
        ChoiceError::Memory
    }
}
