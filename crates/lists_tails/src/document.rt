//! Turns of documents.
use crate::weight::Weight;
use base_types::{DocId, Time};

/// From a time on a document has other words: a new version of it, or none with no weights.
#[derive(Debug, Drop)]
pub struct Turn {
    /// The document.
    pub doc: DocId,
    /// The time from which on it has them, in seconds since 1970-01-01.
    pub at: Time,
    /// Its words from then on, in ascending order.
    pub weights: Vec<Weight>,
}
