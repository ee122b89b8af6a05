//! The tests of the first rows by the headers of blocks, of `query_top`.
//!
//! They stand apart since a library with tests inside is proved twice, once with them.
#![tactic(auto)]

#[cfg(test)]
mod tests;
