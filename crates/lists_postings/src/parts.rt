//! The part of a list at a time or in a span.
ghost use Rattle.std.specs.Prelude.{◌≡◌, ◌↔◌, IsTrue, IsSome, IfSome, IfOk};
ghost use Rattle.lists_postings.specs.Lists.{rows_at, sublist, meets, IsList, IsCoalesced};
ghost use Rattle.lists_postings.specs.Clips.{IsCut, IsClip};

use base_types::{Posting, Span, Time};
use std::alloc::{AllocError, Global};

/// The postings whose span holds `t`, in the list's order. One pass over the list.
pub fn as_of(alloc: Global, list: &[Posting], t: Time) -> Result<Vec<Posting>, AllocError>
    ensures rows { IfOk result (λ v. v.items ≡ rows_at t.seconds list.now) }
    ensures ordered { IfOk result (λ v. IsList list.now → IsList v.items) }
{
    list.iter()
        .filter(|p| p.span.holds(t))
        .copied()
        .collect(alloc)
}

/// The sublist between two times in seconds: the postings that have a time from the first on and before
/// the other, uncut, in the list's order. One pass over the list.
pub fn overlap(
    alloc: Global,
    list: &[Posting],
    from: u64,
    to: u64,
) -> Result<Vec<Posting>, AllocError>
    ensures sublist { IfOk result (λ v. v.items ≡ sublist from to list.now) }
    ensures ordered { IfOk result (λ v. IsList list.now → IsList v.items) }
{
    list.iter()
        .filter(|p| p.span.meets(from, to))
        .copied()
        .collect(alloc)
}

/// The sublist for the span, with each posting's own span cut to it. One pass over the list.
pub fn clip(alloc: Global, list: &[Posting], span: Span) -> Result<Vec<Posting>, AllocError>
    ensures clip { IfOk result (λ v. IsClip span.from span.to list.now v.items) }
    ensures ordered { IfOk result (λ v. IsList list.now → IsList v.items) }
    ensures coalesced { IfOk result (λ v. IsList list.now → IsCoalesced list.now → IsCoalesced v.items) }
{
    let mut clip = Vec::new(alloc);
    for p in list {
        if let Some(q) = cut_to(p, span) {
            clip.push(q)?;
        }
    }
    Ok(clip)
}

/// The posting cut to the span; None where it has no time in it.
fn cut_to(p: &Posting, span: Span) -> Option<Posting>
    ensures some { IsSome result ↔ IsTrue (meets span.from span.to p.now) }
    ensures value { IfSome result (λ q. IsCut span.from span.to p.now q) }
{
    let span = Span::new(p.span.from.max(span.from), p.span.to.min(span.to))?;
    Some(Posting {
        doc: p.doc,
        span,
        tf: p.tf,
    })
}
