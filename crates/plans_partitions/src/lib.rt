//! The time line of a posting list, cut at its boundaries, and its partitions.
//!
//! The boundaries of a list are the ends of its spans and a horizon; the times between two
//! neighbours are an elementary interval, in which nothing changes. A `Table` counts a list once, and
//! then tells the size of each sublist between boundaries in constant time. A `Partition` cuts the
//! time line into segments. The definitions of admissible and least partitions, which the planners
//! and the checker meet, stand here too. `Table::new`, `reaches` and `Partition::sizes` alone take
//! memory.
//!
//! `WindowMin` tells a place where the least value of a window stands that moves on over a growing list
//! of values: its contracts are over any function of places, and no list of the values is kept. Any
//! number of steps together cost time in the values added.
#![tactic(auto)]

mod laws;
mod partition;
mod queue;
mod reach;
mod sorting;
mod table;
mod window;

pub use laws::{
    each_list_has_a_least, each_list_has_a_least_plan, each_list_has_best,
    each_list_has_boundaries, one_list_of_best, one_list_of_boundaries, partitions_are_narrow,
};
pub use partition::Partition;
pub use reach::reaches;
pub use table::Table;
pub use window::WindowMin;
