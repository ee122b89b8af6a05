//! When a document is there.
use crate::Stretch;
use base_types::{DocId, Span};

/// When a document is there.
#[derive(Clone, Copy, Debug, PartialEq, Eq, PartialOrd, Ord, Hash)]
pub struct Life {
    /// The document.
    pub doc: DocId,
    /// The times.
    pub span: Span,
}

impl Stretch for Life {
    ghost use Rattle.lists_postings.specs.Kinds.{life_kind};

    ghost value = { Unit {0} };

    ghost kind = { life_kind };

    fn goes_on(&self, next: &Life) -> bool {
        self.doc == next.doc && self.span.to == next.span.from
    }

    fn joined(&self, next: &Life) -> Life {
        Life {
            doc: self.doc,
            span: Span {
                from: self.span.from,
                to: next.span.to,
            },
        }
    }
}
