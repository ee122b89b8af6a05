//! The tail of each word: its list, kept in memory while documents change.
//!
//! A tail is the coalesced list of a frequency. Contracts quantify over that frequency: whatever it
//! was before a turn, the tail is the list of the frequency turned after it. A turn changes one
//! document in one word's tail by a search and one move within a block of the tail, and takes no
//! memory.
#![tactic(auto)]

mod block_list;
mod blocks;
mod document;
mod gather;
mod laws;
mod parts;
mod passing;
mod tail;
mod tails;
mod turn;
mod weight;

pub use document::Turn;
pub use laws::{frequency_of_last_turn, frequency_of_no_turn, tails_of_acts};
pub use tail::Tail;
pub use tails::Tails;
pub use weight::Weight;
