//! What a word is, for texts in every script.
//!
//! A run of a text is a maximal stretch of letters, marks and numbers, by Unicode's general
//! category. Its key is `NFD(toCasefold(NFD(run)))`, so that two runs have one key exactly where
//! Unicode's canonical caseless matching (The Unicode Standard, D145) matches them. A run whose key
//! has 1 to 255 bytes is a term; other runs are no words. A vocabulary numbers keys from 0 on, in
//! the order in which they come.
//!
//! Contracts speak of a text as its bytes, of a run as its characters and of a key as its bytes.
//! Nothing here knows of documents, times or archives.
#![tactic(auto)]

mod counts;
mod cuts;
mod guesses;
mod laws;
mod runs;
mod vocabulary;
mod weigh;

pub use laws::{
    a_word_occurs_at_most_once_a_byte, counts_are_frequencies, distinct_keys_stand_in_order,
    fresh_words_get_the_next_numbers, keys_match_without_case, runs_are_maximal_stretches,
    weights_are_frequencies,
};
pub use runs::one_term;
pub use vocabulary::{NumberError, Vocabulary};
pub use weigh::{Places, Weighed};
