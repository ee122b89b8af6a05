//! The commands that fill an empty archive with a sample.
//!
//! A sample has changes of a hundred documents, a plan of each of eight words, ten questions and a
//! check of all that is stored. Its seed and the number of its changes say which commands they are
//! (`specs/Samples.antt`).
//!
//! To the layer above it promises exactly these commands, one after another. How many they are and
//! that their documents are in range are laws.
#![tactic(auto)]

mod laws;
mod place;
mod sample;
mod writing;

pub use laws::{
    minutes_are_exact, samples_are_of_few_kinds, samples_have_documents_in_range,
    samples_have_lengths,
};
pub use sample::{MOST_CHANGES, Sample};
