//! Plans as they are stored, by their kinds, and plans as they are shown to whoever asks for them.
//!
//! A plan that is stored has a kind, a factor, the left ends of the segments, and the horizon at which
//! the last segment ends. A plan of a list that keeps to a guarantee is fit where its segments are an
//! admissible partition at the list's boundaries, from the first one to the horizon; one under a space
//! bound, where they are a partition from the first boundary that keeps the bound. This is what `is_fit`
//! tests. That a plan is also a least or a best one is a definition here, and isn't tested. A plan that
//! is what its kind promises is fit, and each list has one; these are laws.
//!
//! A proposal has the segments of a least partition with the sizes of their sublists, and for each
//! boundary the least space of a partition up to there, by which anybody can check that none takes
//! less (`specs/Proposals.antt`). That there is one for each list, that all of them are the same but
//! for the segments, and that each admissible partition is shown in one way, are laws.
#![tactic(auto)]

mod capping;
mod fitting;
mod laws;
mod proposal;
mod proposal_laws;

pub use fitting::{is_fit, partition_of};
pub use laws::{
    each_good_plan_has_a_cost, each_list_has_a_good_plan, fit_plans_are_well_cut,
    good_plans_are_fit, good_plans_are_short, good_plans_cost_the_same,
};
pub use proposal::{Node, Proposal, Segment};
pub use proposal_laws::{
    each_list_has_a_proposal, each_partition_is_shown, partitions_are_shown_once,
    proposals_differ_in_segments,
};
