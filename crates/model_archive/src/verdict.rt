//! What a check tells.
use base_types::{DocId, Key, Time};

/// What a check tells: that all is as it should be, or the first fault. Texts come first, and then the
/// plans in order, of each its segments in order, and then whether it is a least one.
#[derive(Debug, Drop)]
pub enum Verdict {
    /// The sublists of all plans are those of the texts, and each plan is a least one that has to be.
    Sound {
        /// How many plans there are.
        words: u64,
        /// How many segments they have.
        segments: u64,
    },
    /// The bytes of a sublist aren't those of the texts.
    Differs {
        /// The plan's word.
        word: Key,
        /// The segment, the first being 0.
        segment: u64,
        /// The first byte of the sublist that differs, the first being 0.
        place: u64,
        /// The byte that was read; None past the end.
        found: Option<u8>,
        /// The byte that should stand there; None past the end.
        wanted: Option<u8>,
    },
    /// A plan that keeps to a guarantee takes more space than it has to.
    NotLeast {
        /// The plan's word.
        word: Key,
        /// How many postings its sublists have.
        taken: u64,
        /// How many they need to have.
        least: u64,
    },
    /// A text isn't UTF-8: of all such the first in the order of documents, and of times in each.
    BadText {
        /// The document.
        doc: DocId,
        /// When the version was created.
        at: Time,
    },
}
