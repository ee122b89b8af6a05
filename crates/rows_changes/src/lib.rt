//! The rows of what changes an archive, over the machine in memory: arrivals, deletions, the lines of a script
//! and where one is broken, input in pieces, replies and exit statuses; and what is left of an archive by
//! calls that fail, by journals that are no archive's, and by stops, those within plans among them.
//!
//! There are tests alone here. What a row wants comes from the worked rows and the formats, never
//! from what the program answers.
#![tactic(auto)]

#[cfg(test)]
mod rows;
