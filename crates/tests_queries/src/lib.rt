//! The tests of queries: of their language (`query_lang`) and of their answers from lists (`query_eval`).
//!
//! They stand apart since a library with tests inside is proved twice, once with them.
#![tactic(auto)]

#[cfg(test)]
mod tests;
