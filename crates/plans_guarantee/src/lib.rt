//! The planner under a reading guarantee, and the certificates of its plans.
//!
//! Of all partitions in which each read costs at most a factor times what is alive, `plan` finds one
//! that takes the least space, with the certificate of it. It is a shortest path over the boundaries, in
//! one pass from left to right. The left ends of the admissible segments to a boundary are those from
//! one place on, which never falls, and the same left ends are cheapest whatever the right end; so two
//! moving minima, of what is alive and of what the left ends cost, find each number in constant time on
//! the whole.
//!
//! A certificate has a number for each boundary. `check` compares it with a table of the list, and is
//! true exactly where it certifies the partition by the definition. That a certified partition takes
//! the least space of all admissible ones, wherever these cut, is `certificate_proves_least`; that the
//! least spaces up to the boundaries certify each least partition is `best_numbers_certify`. What
//! `check` compares a number with, the cheapest last segment to its boundary, is what the planner takes:
//! `cheapest_left` finds it for both.
#![tactic(auto)]

mod certificate;
mod checking;
mod lefts;
mod planning;
mod steps;

pub use certificate::Certificate;
pub use checking::{best_numbers_certify, certificate_proves_least, check};
pub use lefts::cheapest_left;
pub use planning::{PlanError, WIDEST, plan};
