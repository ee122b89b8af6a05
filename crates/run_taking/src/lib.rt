//! A run that follows another archive.
//!
//! Packets are pulled from the input, and each is taken in turn: the entry that it has is there, or comes next
//! and is taken, and one line tells it, shown whole before the next pull. A packet behind a gap, one that
//! differs from the entry that is there, or one whose entry may not come next ends the run. To the layer above
//! the crate promises one run of `Follows` over the packets of the bytes pulled, and what each image left has of
//! it (`specs/Following.antt`). It knows nothing of loads and of words of a command line.
#![tactic(auto)]

mod ended;
mod following;
mod laws;
mod packet;
mod reading;
mod serve;

pub use ended::Ended;
pub use following::follow;
pub use laws::runs_keep_to_the_leader;
