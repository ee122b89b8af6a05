//! The words of the command line, and what they ask for.
//!
//! The program's command is one of the crate `clap` with four options, `--generate SEED`,
//! `--count COUNT`, `--export FROM` and the flag `--follow` (`specs/Words.antt`). Which words it takes,
//! which of them is whose value, and whether they give the flag, is said by that crate's definitions of
//! a parse; that the first two are given together or not at all, that the third and the fourth are each
//! given alone, and which numbers their values write, is said here. To the layer above it promises that
//! words are read as the one thing that they ask for, and refused exactly where they ask for nothing,
//! unless memory runs out. It knows nothing of archives, and shows no text.
#![tactic(auto)]

mod command;
mod error;
mod laws;
mod number;
mod reading;
mod task;

pub use error::WordsError;
pub use laws::{plain_forms, words_ask_for_one_thing, words_ask_or_do_not};
pub use reading::read_words;
pub use task::{FirstEntry, MOST_COUNT, SampleNumbers, Task};
