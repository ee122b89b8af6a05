//! The planner under a space bound: of all partitions that cut at candidates and are charged at most a
//! budget, and the one piece, one whose reads are expected to cost least under a load.
//!
//! A dynamic program over candidates, at most 128, and charges, at most 4,096: for each candidate the
//! least cost from there to the horizon for at most each charge. So the paths are read from their
//! start, as partitions are. The definitions stand in `specs/Caps`, `Costs`, `Loads` and `Plans`.
#![tactic(auto)]

mod course;
mod fronts;
mod judging;
mod laws;
mod limits;
mod load;
mod planning;
mod point;
mod settling;
mod steps;
mod stops;
mod surveying;
mod weights;

pub use judging::is_best;
pub use laws::{
    each_list_has_a_best, each_list_has_a_front, eligible_is_capped, eligible_is_short,
    weights_of_a_function,
};
pub use limits::{Limits, charge, limits_of};
pub use load::Load;
pub use planning::{front, plan};
pub use point::Point;
