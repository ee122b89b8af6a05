//! A plan of a list, chosen by its kind: a least one that keeps to a guarantee, or one under a bound on
//! space whose reads are expected to cost least, where each second is as likely to be asked for, or
//! each second from a time on.
//!
//! What is chosen is what its kind promises (`IsGoodPlan` of `plans_kinds`), with the space that it
//! takes and, under a bound on space, what its reads are expected to cost.
#![tactic(auto)]

mod choice;
mod choosing;
mod judging;
mod loads;
mod parts;

pub use choice::{Choice, ChoiceError};
pub use choosing::choose;
pub use judging::is_good;
