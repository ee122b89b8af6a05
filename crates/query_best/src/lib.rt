//! The first rows of words whose lists lie in pages, in blocks, or are at hand.
//!
//! It is what `query_top` asks of the blocks of words, over blocks whose bytes were read with their headers
//! (`specs/Held.antt`): a block is read where it is opened, and it is counted how many are. It knows
//! nothing of disks, plans or histories.
#![tactic(auto)]

mod finding;
mod held;
mod shelf;

pub use finding::{BestRows, best_rows};
pub use held::{HeldBlocks, HeldWord};
