//! The live plans of an open archive, and the pages that hold their sublists.
//!
//! A `Shelf` has of each word one plan at most, and knows which pages are free: those of no live plan
//! and of no plan that is being stored (`specs/Shelves.antt`). Each page that it keeps to be read once
//! is a live plan's; those of a plan that is replaced are kept no longer. A plan is made ready here:
//! each of its sublists gets the lowest run of free pages that is long enough, and its entry is spelled
//! (`specs/Readying.antt`), or the places that it comes with (`specs/ReadyingAt.antt`); all memory is taken then.
//! Nothing here writes.
#![tactic(auto)]

mod framing;
mod readying;
mod readying_at;
mod segment;
mod shelf;

pub use framing::SegmentFrames;
pub use readying::{Draft, Ready, make_ready};
pub use readying_at::{Untaken, ready_at};
pub use shelf::Shelf;
