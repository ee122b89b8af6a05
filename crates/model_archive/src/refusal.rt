//! Why a command is refused.
ghost use Rattle.std.specs.Prelude.{◌≡◌, ◌<◌};
ghost use Rattle.model_archive.specs.Refusals.{number_of, refusal_of};

use base_types::{Time, Which};
use lists_versions::VersionRefusal;

/// Why a command is refused. A refused command changes nothing.
#[derive(Clone, Copy, Debug, PartialEq, Eq)]
pub enum Refusal {
    /// The line is no command, or one that isn't built yet.
    Line,
    /// The time lies before the last time of the archive.
    TimeBack {
        /// The last time.
        last: Time,
    },
    /// The document's latest version or tombstone has this time.
    SameTime,
    /// The document has no version, or its latest is a tombstone.
    NoDocument,
    /// The text has too many bytes.
    TooLong {
        /// The most bytes that a text may have.
        limit: u64,
    },
    /// The text isn't UTF-8.
    BadText {
        /// The length of its longest prefix that is UTF-8, in bytes.
        offset: u64,
    },
    /// What is to be planned isn't one term.
    NotOneTerm,
    /// The word has no posting before the last time of the archive.
    NothingSealed,
    /// The word's list up to the last time has too many boundaries.
    TooWide {
        /// How many it has.
        boundaries: u64,
    },
    /// A limit of the archive would be passed.
    Full {
        /// What is full.
        which: Which,
        /// How many of these there may be.
        limit: u64,
    },
    /// A query isn't one.
    BadQuery {
        /// Where that shows, in bytes from its start.
        offset: u64,
    },
    /// A plan of the word is being stored.
    Busy,
    /// No text of the archive has the word.
    UnknownWord,
    /// The word has no live plan that keeps to a guarantee.
    NoPlan,
    /// A plan of another word is being stored.
    OneJob,
    /// An item of a batch is neither an arrival nor a deletion.
    BatchLine {
        /// Which item is the first such one, from 1.
        index: u32,
    },
    /// The texts of a batch have too many bytes together.
    BatchTooLong {
        /// The most bytes that they may have together.
        limit: u64,
    },
    /// The journal has no mark that it may have batches.
    OldFormat,
    /// The journal has the mark.
    HasFormat,
    /// A query isn't one word, or words joined by `or`.
    NotDisjunction,
}

impl Refusal {
    /// The refusal's number, by which a reply names it. Constant cost.
    pub fn number(&self) -> u32
        ensures { result ≡ number_of self.now }
    {
        match self {
            Refusal::Line => 1,
            Refusal::TimeBack { .. } => 2,
            Refusal::SameTime => 3,
            Refusal::NoDocument => 4,
            Refusal::TooLong { .. } => 5,
            Refusal::BadText { .. } => 6,
            Refusal::NotOneTerm => 7,
            Refusal::NothingSealed => 8,
            Refusal::TooWide { .. } => 9,
            Refusal::Full { .. } => 10,
            Refusal::BadQuery { .. } => 11,
            Refusal::Busy => 12,
            Refusal::UnknownWord => 13,
            Refusal::NoPlan => 14,
            Refusal::OneJob => 15,
            Refusal::BatchLine { .. } => 16,
            Refusal::BatchTooLong { .. } => 17,
            Refusal::OldFormat => 18,
            Refusal::HasFormat => 19,
            Refusal::NotDisjunction => 20,
        }
    }
}

impl From<VersionRefusal> for Refusal {
    ghost from_gives = { λ why refusal. refusal ≡ refusal_of why };

    fn from(why: VersionRefusal) -> Refusal {
        match why {
            VersionRefusal::TimeBack { last } => Refusal::TimeBack { last },
            VersionRefusal::SameTime => Refusal::SameTime,
            VersionRefusal::NoDocument => Refusal::NoDocument,
            VersionRefusal::Full { which, limit } => Refusal::Full { which, limit },
        }
    }
}
