//! The union of two lists.
ghost use Rattle.std.specs.Prelude.{◌≡◌, IfOk, IfErr};
ghost use Rattle.lists_postings.specs.Lists.{IsList};
ghost use Rattle.lists_postings.specs.Unions.{IsUnion, Explains};
ghost use Rattle.lists_postings.specs.Placings.{IsPlacing};
ghost use Rattle.lists_postings.specs.declared.merge.MergeError.{MergeError};

use base_types::Posting;
use std::alloc::{AllocError, AllocFailed, Global};

/// Why two lists have no union.
#[derive(Clone, Copy, Debug, PartialEq, Eq)]
pub enum MergeError {
    /// Two different postings of one document overlap in time, so at some time it would have two.
    Clash {
        /// The posting of the first list.
        one: Posting,
        /// The posting of the other list.
        other: Posting,
    },
    /// There was no memory for the union.
    Memory,
}

impl From<AllocError> for MergeError {
    ghost from_gives = { λ _ e. e ≡ MergeError.Memory };

    fn from(_error: AllocError) -> MergeError {
        MergeError::Memory
    }
}

impl<T: Drop> From<AllocFailed<T>> for MergeError {
    ghost from_gives = { λ _ e. e ≡ MergeError.Memory };

    fn from(_error: AllocFailed<T>) -> MergeError {
        MergeError::Memory
    }
}

/// How a posting stands to one of another list.
#[derive(Clone, Copy, Debug, PartialEq, Eq)]
pub(crate) enum Placing {
    /// They are one posting.
    Same,
    /// It comes before the other one.
    Before,
    /// It comes after the other one.
    After,
    /// They differ and are of one document, and some time lies in both.
    Clash,
}

/// How `p` stands to `q`.
fn placed(p: &Posting, q: &Posting) -> Placing
    ensures { IsPlacing p.now q.now result }
{
    if p.doc < q.doc {
        Placing::Before
    } else if q.doc < p.doc {
        Placing::After
    } else if p.span.to <= q.span.from {
        Placing::Before
    } else if q.span.to <= p.span.from {
        Placing::After
    } else if p.tf == q.tf && p.span.from == q.span.from && p.span.to == q.span.to {
        Placing::Same
    } else {
        Placing::Clash
    }
}

/// The union of two lists, with each distinct posting once. `Clash` comes exactly where two postings
/// of one document differ and overlap in time, one of each list, and carries such a pair. One pass
/// over both lists.
pub fn merge_distinct(
    alloc: Global,
    one: &[Posting],
    other: &[Posting],
) -> Result<Vec<Posting>, MergeError>
    requires one { IsList one.now }
    requires other { IsList other.now }
    ensures union { IfOk result (λ v. IsUnion one.now other.now v.items) }
    ensures refused { IfErr result (Explains one.now other.now) }
{
    let mut merged = Vec::new(alloc);
    let mut left = one;
    let mut right = other;
    'postings: loop {
        let Some((p, later)) = left.split_first() else {
            merged.extend_from_slice(right)?;
            return Ok(merged);
        };
        let Some((q, others)) = right.split_first() else {
            merged.extend_from_slice(left)?;
            return Ok(merged);
        };
        match placed(p, q) {
            Placing::Same => {
                merged.push(*p)?;
                left = later;
                right = others;
            }
            Placing::Before => {
                merged.push(*p)?;
                left = later;
            }
            Placing::After => {
                merged.push(*q)?;
                right = others;
            }
            Placing::Clash => {
                return Err(MergeError::Clash { one: *p, other: *q });
            }
        }
    }
}
