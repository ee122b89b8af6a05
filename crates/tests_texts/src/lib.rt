//! The tests of what is written and read: of entries as bytes (`journal_entries`), scripts (`script_items`),
//! samples (`base_sample`), and the words of a command line (`run_words`) and of a text
//! (`text_words`).
//!
//! They stand apart since a library with tests inside is proved twice, once with them.
#![tactic(auto)]

#[cfg(test)]
mod tests;
