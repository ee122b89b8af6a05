//! The tests of the planners: of `plans_guarantee`, with the tables, partitions and certificates that
//! it plans by, of `plans_space`, `plans_kinds` and `plans_choice`.
//!
//! They stand apart since a library with tests inside is proved twice, once with them. What a test wants
//! is worked out by hand, or found by trying every set of cuts.
#![tactic(auto)]

#[cfg(test)]
mod tests;
