//! The rows of the questions `find`, `top`, `best`, `between`, `approx`, `rough`, `show`, `propose` and `share`, over the machine in memory, and of those
//! that read Pages through the cache: how many bytes are read for each.
//!
//! There are tests alone here, and worked rows that hold by computation (`specs/Rows.antt`). What a
//! row wants comes from the worked rows and the formats, or is counted from these, never from what the
//! program answers.
#![tactic(auto)]

#[cfg(test)]
mod rows;
