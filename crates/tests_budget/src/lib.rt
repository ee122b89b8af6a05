//! The tests of approximate lists and of one budget for many words: of `lists_approx` and
//! `plans_share`.
//!
//! They stand apart since a library with tests inside is proved twice, once with them.
#![tactic(auto)]

#[cfg(test)]
mod tests;
