//! The tests of lists and what they are made of: of `lists_postings`, `lists_postings`, `lists_tails`,
//! `lists_versions` and `lists_index`.
//!
//! They stand apart since a library with tests inside is proved twice, once with them.
#![tactic(auto)]

#[cfg(test)]
mod tests;
