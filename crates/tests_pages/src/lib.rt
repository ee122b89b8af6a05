//! The tests of what stands in pages: of `pages_area`, `pages_area`, `pages_codec` and `pages_sublists`.
//!
//! They stand apart since a library with tests inside is proved twice, once with them. What a test wants
//! is worked out from the formats, by counting pages and bytes.
#![tactic(auto)]

#[cfg(test)]
mod tests;
