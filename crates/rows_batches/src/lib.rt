//! The rows of batches, over the machine in memory: batches that are carried out, refused, or longer than they may be;
//! journals with batches that no archive writes; and what is left by calls that fail and by stops.
//!
//! There are tests alone here. What a row wants comes from the worked rows and the formats, never
//! from what the program answers.
#![tactic(auto)]

#[cfg(test)]
mod rows;
