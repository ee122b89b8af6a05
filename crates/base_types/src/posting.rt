//! Postings.
ghost use Rattle.std.specs.Prelude.{◌<◌, ◌≤◌, ◌^◌};

use crate::ids::DocId;
use crate::time::Span;

/// One word's frequency in one document while that stays the same. Postings order as in a posting
/// list: by document, then by start.
#[derive(Clone, Copy, Debug, PartialEq, Eq, PartialOrd, Ord, Hash)]
pub struct Posting {
    /// The document that has the word.
    pub doc: DocId,
    /// When it has it so often.
    pub span: Span,
    /// How often the word occurs in the document's text, at least 1.
    pub tf: u32,
    pub ghost numbered: { doc.0 < 2 ^ 32 },
    pub ghost counted: { 1 ≤ tf },
    pub ghost bounded: { tf < 2 ^ 32 },
}
