//! Why a change of a document isn't allowed.
use base_types::{Time, Which};

/// Why a change of a document isn't allowed.
#[derive(Clone, Copy, Debug, PartialEq, Eq)]
pub enum VersionRefusal {
    /// The change's time lies before the last change of all.
    TimeBack {
        /// The time of the last change.
        last: Time,
    },
    /// The document's latest version or tombstone has the change's time.
    SameTime,
    /// The document never came, or its latest change is its deletion.
    NoDocument,
    /// The archive would have too many documents, or too many versions and tombstones.
    Full {
        /// Which limit would be passed.
        which: Which,
        /// The limit.
        limit: u64,
    },
}
