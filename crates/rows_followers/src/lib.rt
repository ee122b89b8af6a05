//! The rows of an archive that follows another one, over the machine in memory: entries that are shown as
//! packets and taken from them; and how that ends where calls fail, where the bytes are no archive's, and with words that ask for
//! nothing.
//!
//! There are tests alone here. What a row wants comes from the formats, never from what the program
//! answers.
#![tactic(auto)]

#[cfg(test)]
mod rows;
