//! The tests of packets, of `journal_packets`.
//!
//! They stand apart since a library with tests inside is proved twice, once with them.
#![tactic(auto)]

#[cfg(test)]
mod tests;
