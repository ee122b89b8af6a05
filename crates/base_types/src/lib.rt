//! The words that every other crate speaks in: times and validity spans, documents and words by
//! number, postings, keys, fractions, tolerances, places on disk and the limits of an archive.
//!
//! A time is a whole number of seconds since 1970-01-01 00:00 UTC, below 2^40. A span `[from, to)`
//! holds `from` and not `to`, and may end at `NOW`, which is greater than every time. Each small
//! type carries its bounds as ghost fields, so a value of it is in range wherever it came from, and
//! contracts read its plain fields. Contracts see a `Key` as the list of its bytes.
#![tactic(auto)]

mod extent;
mod fraction;
mod ids;
mod key;
mod posting;
mod text_place;
mod time;
mod tolerance;
mod which;

pub use extent::{Extent, MOST_PAGES, PAGE_BYTES};
pub use fraction::Fraction;
pub use ids::{DocId, WordId};
pub use key::{Key, MOST_KEY_BYTES};
pub use posting::Posting;
pub use text_place::TextPlace;
pub use time::{NOW, Span, Time};
pub use tolerance::Tolerance;
pub use which::{MOST_DOCUMENTS, MOST_JOURNAL_BYTES, MOST_VERSIONS, MOST_WORDS, Which};
