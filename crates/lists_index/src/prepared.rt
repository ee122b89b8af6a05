//! A change on its way into an index.
use crate::weights::Weights;
use base_types::{DocId, Key};

/// A change of a document that was prepared for an index: all that the commit needs, 8 bytes for each
/// distinct word of its text and the words that the index hasn't. Dropped, it changed no answer.
#[derive(Drop)]
pub struct Prepared {
    pub(crate) doc: DocId,
    pub(crate) fresh: Vec<Key>,
    pub(crate) weights: Weights,
}
