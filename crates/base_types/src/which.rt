//! The limits of an archive that a command can come up against.
ghost use Rattle.std.specs.Prelude.{◌≡◌};
ghost use Rattle.base_types.specs.Limits.{limit_of};

use crate::extent::MOST_PAGES;

/// The most documents that an archive knows, deleted ones among them.
pub const MOST_DOCUMENTS: u64 = 1 << 20;

/// The most versions and tombstones of all documents together.
pub const MOST_VERSIONS: u64 = 1 << 22;

/// The most words of a vocabulary.
pub const MOST_WORDS: u64 = 1 << 20;

/// The most bytes of a journal.
pub const MOST_JOURNAL_BYTES: u64 = 1 << 40;

/// What of an archive can become full.
#[derive(Clone, Copy, Debug, PartialEq, Eq, PartialOrd, Ord, Hash)]
pub enum Which {
    /// The documents, deleted ones among them.
    Documents,
    /// The versions and tombstones of all documents.
    Versions,
    /// The words of the vocabulary.
    Words,
    /// The bytes of the journal.
    Journal,
    /// The pages that hold sublists.
    Pages,
}

impl Which {
    /// How many of these an archive may have: documents, versions, words, bytes or pages.
    /// Constant cost.
    pub fn limit(self) -> u64
        ensures { result ≡ limit_of self }
    {
        match self {
            Which::Documents => MOST_DOCUMENTS,
            Which::Versions => MOST_VERSIONS,
            Which::Words => MOST_WORDS,
            Which::Journal => MOST_JOURNAL_BYTES,
            Which::Pages => MOST_PAGES,
        }
    }
}
