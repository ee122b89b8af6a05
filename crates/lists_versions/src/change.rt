//! A change of a document.
use base_types::{DocId, Time};

/// A change of a document: a new version, of whose text `T` is held, or a tombstone.
#[derive(Clone, Copy, Debug, PartialEq, Eq)]
pub struct Change<T> {
    /// The document that changes.
    pub doc: DocId,
    /// When it changes.
    pub at: Time,
    /// What is held of the new version's text; None where the document is deleted.
    pub held: Option<T>,
}
