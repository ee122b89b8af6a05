//! The rows of plans that are begun and written in steps, `begin`, over the machine in memory: beside changes,
//! other plans and questions, and what stops and calls that fail leave of them.
//!
//! There are tests alone here. What a row wants comes from the worked rows and the formats, never
//! from what the program answers.
#![tactic(auto)]

#[cfg(test)]
mod rows;
