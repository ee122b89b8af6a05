//! The rows of stored plans, `plan` and `certificate`, over the machine in memory, of each kind of plan.
//!
//! There are tests alone here. What a row wants comes from the worked rows and the formats, never
//! from what the program answers.
#![tactic(auto)]

#[cfg(test)]
mod rows;
