//! The list of a word up to a horizon.
ghost use Rattle.std.specs.Prelude.{◌≤◌, ◌^◌, ◌↔◌, ℕ, length, All, IfOk, IsTrue};
ghost use Rattle.lists_postings.specs.ListsOf.{IsListOf};

use base_types::{Posting, Span, Time};
use lists_postings::clip;
use std::alloc::{AllocError, Global};

/// So many postings and more are not planned; the memory for them is never there.
const MANY_POSTINGS: usize = 1 << 38;

/// Whether a list has too many postings to be planned, 2^38 or more. Constant cost.
pub fn are_many(list: &[Posting]) -> bool
    ensures { IsTrue result ↔ (2 ^ 38 ≤ length list.now) }
{
    list.len() >= MANY_POSTINGS
}

/// A whole list, clipped to the times before a horizon. Costs its postings.
pub fn list_up_to(
    alloc: Global,
    list: &[Posting],
    horizon: Time,
) -> Result<Vec<Posting>, AllocError>
    ensures list { IfOk result (λ v. (f : ℕ → ℕ → ℕ) → IsListOf f 0 (2 ^ 40) list.now → IsListOf f 0 horizon.seconds v.items) }
    ensures early { IfOk result (λ v. All (λ p. p.span.to ≤ horizon.seconds) v.items) }
{
    match Span::new(0, horizon.seconds()) {
        Some(span) => clip(alloc, list, span),
        None => Ok(Vec::new(alloc)),
    }
}
