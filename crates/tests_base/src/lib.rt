//! The tests of the lowest crates: of `base_types`, `base_commands` and `machine_mem`.
//!
//! They stand apart since a library with tests inside is proved twice, once with them.
#![tactic(auto)]

#[cfg(test)]
mod tests;
