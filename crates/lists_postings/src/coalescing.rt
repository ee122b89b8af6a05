//! Coalescing: the shortest list with the same rows at each time.
//!
//! Postings of one document that touch and have one frequency become one posting. A coalesced list says
//! the same of each document at each time, and no list that does so is shorter.

ghost use Rattle.std.specs.Prelude.{◌≤◌, ◌↔◌, List, length, IsTrue, IfOk};
ghost use Rattle.base_types.specs.declared.posting.Posting.{Posting};
ghost use Rattle.lists_postings.specs.Lists.{IsList, IsCoalesced, SameRows, Continues};
ghost use Rattle.lists_postings.specs.Joins.{IsJoined};

use base_types::{Posting, Span};
use std::alloc::{AllocError, Global};

/// The coalesced list: the same rows at each time, and no two neighbours of one document that touch
/// have one frequency. One pass over the list.
pub fn coalesce(alloc: Global, list: &[Posting]) -> Result<Vec<Posting>, AllocError>
    requires { IsList list.now }
    ensures ordered { IfOk result (λ v. IsList v.items) }
    ensures same { IfOk result (λ v. SameRows v.items list.now) }
    ensures coalesced { IfOk result (λ v. IsCoalesced v.items) }
    ensures shortest { IfOk result (λ v. (other : List Posting) → IsList other → SameRows other list.now → length v.items ≤ length other) }
{
    let mut done = Vec::new(alloc);
    let Some((first, others)) = list.split_first() else {
        return Ok(done);
    };
    let mut current = *first;
    for p in others {
        if continues(&current, p) {
            current = joined(&current, p);
        } else {
            done.push(current)?;
            current = *p;
        }
    }
    done.push(current)?;
    Ok(done)
}

/// Whether `q` goes on where `p` ends, in the same document and with the same frequency.
fn continues(p: &Posting, q: &Posting) -> bool
    ensures { IsTrue result ↔ Continues p.now q.now }
{
    p.doc == q.doc && p.tf == q.tf && p.span.to == q.span.from
}

/// `p` and the posting that goes on where it ends, in one.
fn joined(p: &Posting, q: &Posting) -> Posting
    requires { Continues p.now q.now }
    ensures { IsJoined p.now q.now result }
{
    Posting {
        doc: p.doc,
        span: Span {
            from: p.span.from,
            to: q.span.to,
        },
        tf: p.tf,
    }
}
