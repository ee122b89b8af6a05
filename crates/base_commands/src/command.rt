//! What an archive may be asked to do.
use crate::batch::BatchItems;
use crate::count::{BestCount, TopCount};
use crate::phrase::Phrase;
use crate::share::{ShareFraction, ShareWords};
use crate::text::Text;
use base_types::{DocId, Fraction, Span, Time, Tolerance};

/// What a plan is to keep to, and what its fraction says.
#[derive(Clone, Copy, Debug)]
pub enum Kind {
    /// A read costs at most the fraction times what it needs.
    Guarantee,
    /// The sublists take at most the fraction times the list, and each second is as likely to be
    /// asked for.
    Uniform,
    /// The same, where only the seconds from a time on are asked for.
    Since {
        /// The first such second.
        at: Time,
    },
}

/// A command.
#[derive(Debug, Drop)]
pub enum Command {
    /// A new version of a document.
    Arrive {
        /// The document.
        doc: DocId,
        /// When the version is created.
        at: Time,
        /// Its text.
        text: Text,
    },
    /// The end of a document's newest version.
    Delete {
        /// The document.
        doc: DocId,
        /// When it ends.
        at: Time,
    },
    /// A plan of a word's list, to be stored.
    Plan {
        /// The word as it was written.
        word: Phrase,
        /// What the plan is to keep to.
        kind: Kind,
        /// The factor of its bound.
        fraction: Fraction,
    },
    /// A plan that keeps to a guarantee, to be shown and not stored.
    Propose {
        /// The word as it was written.
        word: Phrase,
        /// The factor on each read.
        fraction: Fraction,
    },
    /// The rows of a query at a time.
    Find {
        /// The time.
        at: Time,
        /// What is asked, which may be no query.
        expr: Phrase,
    },
    /// The rows of a query over a span.
    Between {
        /// The times that are asked for.
        span: Span,
        /// What is asked, which may be no query.
        expr: Phrase,
    },
    /// The version of a document that is alive at a time.
    Show {
        /// The document.
        doc: DocId,
        /// The time.
        at: Time,
    },
    /// The certificate of a word's stored plan.
    Certificate {
        /// The word as it was written.
        word: Phrase,
    },
    /// A check of all that is stored.
    Verify,
    /// The mark of a journal that may have batches.
    Format,
    /// Changes of documents that come all at once.
    Batch(BatchItems),
    /// A plan that keeps to a guarantee, to be chosen now, and to be stored while other commands go on.
    Begin {
        /// The word as it was written.
        word: Phrase,
        /// The factor on each read.
        fraction: Fraction,
    },
    /// The first rows of a query at a time.
    Top {
        /// How many rows.
        count: TopCount,
        /// The time.
        at: Time,
        /// What is asked, which may be no query.
        expr: Phrase,
    },
    /// The first rows of words joined by `or` at a time, from the blocks that are needed for them.
    Best {
        /// How many rows.
        count: BestCount,
        /// The time.
        at: Time,
        /// What is asked, which may be no query, or another one.
        expr: Phrase,
    },
    /// A shortest list whose frequencies are near those of a word's list.
    Approx {
        /// The word as it was written.
        word: Phrase,
        /// How far a frequency may be from the list's.
        tolerance: Tolerance,
    },
    /// The rows of a query at a time, by such lists.
    Rough {
        /// How far a frequency may be from the lists'.
        tolerance: Tolerance,
        /// The time.
        at: Time,
        /// What is asked, which may be no query.
        expr: Phrase,
    },
    /// How words would best share a budget, by the times that were asked for.
    Share {
        /// How many times their lists the sublists may take together.
        fraction: ShareFraction,
        /// The words as they were written.
        words: ShareWords,
    },
}

/// What is answered.
#[derive(Debug, Drop)]
pub enum Item {
    /// A command.
    Command(Command),
    /// A line that is no command.
    Line,
}
