//! The entries of an archive's history.
use crate::act::Act;
use crate::plan::{Listed, PlanEntry};
use crate::text::VersionText;
use base_types::{DocId, Time};

/// An entry of an archive's history.
#[derive(Debug, Drop)]
pub enum Entry {
    /// A new version of a document.
    Arrive {
        /// The document.
        doc: DocId,
        /// When the version is created.
        at: Time,
        /// Its text, of at most `MOST_TEXT_BYTES` bytes.
        text: VersionText,
    },
    /// The end of a document's newest version, without a new one.
    Delete {
        /// The document.
        doc: DocId,
        /// When the version ends.
        at: Time,
    },
    /// A plan of a word's list that is stored.
    Planned(PlanEntry),
    /// The mark of a journal that may have batches.
    Format,
    /// Changes of documents that come all at once, from 1 to `MOST_ACTS` of them.
    Batch(Listed<Act>),
}
