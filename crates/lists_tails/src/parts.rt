//! The postings of a tail's blocks, as one list.
ghost use Rattle.std.specs.Prelude.{◌≡◌, ◌++◌, ◌<◌, ◌^◌, length, IfOk, OnOk};
ghost use Rattle.lists_postings.specs.Lists.{sublist};
ghost use Rattle.lists_tails.specs.Blocks.{joined};

use base_types::{Posting, Span};
use std::alloc::{AllocError, Global};

/// How many postings the blocks have, below 2^64.
pub(crate) fn count(first: &Vec<Posting>, later: &[Vec<Posting>]) -> u64
    ensures { length (first.now.items ++ joined later.now) < 2 ^ 64 → result ≡ length (first.now.items ++ joined later.now) }
{
    let mut count = first.len() as u64;
    for block in later {
        count = count.saturating_add(block.len() as u64);
    }
    count
}

/// The postings of all blocks.
pub(crate) fn collect_all(
    alloc: Global,
    first: &Vec<Posting>,
    later: &[Vec<Posting>],
) -> Result<Vec<Posting>, AllocError>
    ensures { IfOk result (λ list. list.items ≡ first.now.items ++ joined later.now) }
{
    let mut list = Vec::new(alloc);
    list.extend_from_slice(first.as_slice())?;
    for block in later {
        list.extend_from_slice(block.as_slice())?;
    }
    Ok(list)
}

/// The postings of all blocks that have a time in the span.
pub(crate) fn collect_in(
    alloc: Global,
    first: &Vec<Posting>,
    later: &[Vec<Posting>],
    span: Span,
) -> Result<Vec<Posting>, AllocError>
    ensures { IfOk result (λ rows. rows.items ≡ sublist span.from span.to (first.now.items ++ joined later.now)) }
{
    let mut rows = Vec::new(alloc);
    push_in(&mut rows, first.as_slice(), span)?;
    for block in later {
        push_in(&mut rows, block.as_slice(), span)?;
    }
    Ok(rows)
}

/// Appends the list's postings that have a time in the span.
fn push_in(rows: &mut Vec<Posting>, list: &[Posting], span: Span) -> Result<(), AllocError>
    ensures { OnOk result (rows.new.items ≡ rows.old.items ++ sublist span.from span.to list.now) }
{
    rows.extend(
        list.iter()
            .filter(|p| p.span.meets(span.from, span.to))
            .copied(),
    )
}
