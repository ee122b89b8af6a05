//! The bodies of a loaded journal by their numbers.
//!
//! `journal_gates` gives bodies one after another. Here any of them is found by its number, and one that is
//! appended comes behind the others. To the layer above it promises the bytes that the journal spells
//! there (`specs/Numbered.antt`). It writes nothing, and knows nothing of what a body is.
#![tactic(auto)]

mod bodies;

pub use bodies::NumberedBodies;
