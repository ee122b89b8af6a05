//! The rows of `verify`, the check of an archive by its texts, and of samples, over the machine in memory; and
//! those of journals and Pages with plans that no program wrote.
//!
//! There are tests alone here. What a row wants is worked out from the definitions and the formats, never
//! from what the program answers.
#![tactic(auto)]

#[cfg(test)]
mod rows;
