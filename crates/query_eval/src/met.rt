//! The documents that have a posting in a window of time.
ghost use Rattle.std.specs.Prelude.{◌≡◌, ◌↔◌, ◌++◌, ◌<◌, Contains, IfOk, OnOk};
ghost use Rattle.lists_postings.specs.Lists.{EachNext};
ghost use Rattle.query_eval.specs.Met.{IsMet, all_met, met_in};
ghost use Rattle.base_types.specs.declared.ids.DocId.{DocId as DocValue};

use crate::part::Part;
use base_types::{DocId, Posting, Span};
use std::alloc::{AllocError, Global};

/// Puts the document of each posting behind others that has a time in the span.
fn note_docs(docs: &mut Vec<DocId>, list: &[Posting], span: Span) -> Result<(), AllocError>
    ensures { OnOk result (docs.new.items ≡ docs.old.items ++ met_in span.from span.to list.now) }
{
    for p in list {
        if p.span.meets(span.from, span.to) {
            docs.push(p.doc)?;
        }
    }
    Ok(())
}

/// The documents of all postings that have a time in the span, part by part.
fn gather_docs(alloc: Global, parts: &[Part], span: Span) -> Result<Vec<DocId>, AllocError>
    ensures { IfOk result (λ docs. docs.items ≡ all_met span.from span.to parts.now) }
{
    let mut docs = Vec::new(alloc);
    for part in parts {
        note_docs(&mut docs, &part.list, span)?;
    }
    Ok(docs)
}

/// The documents of which a posting of the parts has a time in the span, ascending and each once. Costs
/// the postings, and a sort of those in the span.
pub fn docs_met(alloc: Global, parts: &[Part], span: Span) -> Result<Vec<DocId>, AllocError>
    ensures ascending { IfOk result (λ docs. EachNext (λ d e. d.0 < e.0) docs.items) }
    ensures met { IfOk result (λ docs. (doc : DocValue) → Contains docs.items doc ↔ IsMet parts.now span.from span.to doc) }
{
    let mut docs = gather_docs(alloc, parts, span)?;
    docs.sort_unstable();
    docs.dedup();
    Ok(docs)
}
