//! Parts of a list from which segments are spelled, and the bytes of one segment's sublist.
ghost use Rattle.std.specs.Prelude.{◌≡◌, ◌*◌, ◌≤◌, ◌∷◌, length, min, max, None, IfOk, IfSome};
ghost use Rattle.lists_postings.specs.Lists.{IsList, sublist};
ghost use Rattle.lists_postings.specs.Sizes.{size};
ghost use Rattle.pages_checked.specs.Layouts.{spelling_in};
ghost use Rattle.pages_sublists.specs.Segments.{seconds};
ghost use Rattle.pages_sublists.specs.Preparing.{Serves, IsEarliest, IsLatest, IsMostlyMet};

use base_types::{Posting, Time};
use journal_entries::Layout;
use lists_postings::overlap;
use pages_checked::encoded;
use std::alloc::{AllocError, Global};

/// From the earliest of some times to the latest.
#[derive(Clone, Copy)]
struct Reach {
    from: u64,
    to: u64,
}

impl Reach {
    /// The reach of these times and one more.
    fn with(self, time: Time) -> Reach
        ensures from { result.from ≡ min self.from time.seconds }
        ensures to { result.to ≡ max self.to time.seconds }
    {
        Reach {
            from: self.from.min(time.seconds),
            to: self.to.max(time.seconds),
        }
    }
}

/// The reach of both ends of all segments that begin at the cuts, in whatever order these are.
fn reach_of(cuts: &[Time], end: Time) -> Reach
    ensures from { IsEarliest (end.seconds ∷ seconds cuts.now) result.from }
    ensures to { IsLatest (end.seconds ∷ seconds cuts.now) result.to }
{
    let mut reach = Reach {
        from: end.seconds,
        to: end.seconds,
    };
    for cut in cuts {
        reach = reach.with(*cut);
    }
    reach
}

/// How many postings have a time in a reach.
fn met(list: &[Posting], reach: Reach) -> usize
    ensures { result ≡ size reach.from reach.to list.now }
{
    list.iter()
        .filter(|p| p.span.meets(reach.from, reach.to))
        .count()
}

/// The postings that overlap the segments that begin at the cuts, the last of which ends at `end`, where
/// they are at most half of the list: so each list of those that are held has half of the one before it at
/// most. Two passes over the list, and one over the cuts.
pub fn narrowed(
    alloc: Global,
    list: &[Posting],
    cuts: &[Time],
    end: Time,
) -> Result<Option<Vec<Posting>>, AllocError>
    requires { IsList list.now }
    ensures serves { IfOk result (λ part. IfSome part (λ v. Serves (seconds cuts.now) end.seconds list.now v.items)) }
    ensures half { IfOk result (λ part. IfSome part (λ v. 2 * length v.items ≤ length list.now)) }
    ensures none { IfOk result (λ part. part ≡ None → IsMostlyMet (seconds cuts.now) end.seconds list.now) }
{
    let reach = reach_of(cuts, end);
    if met(list, reach) > list.len() / 2 {
        return Ok(None);
    }
    Ok(Some(overlap(alloc, list, reach.from, reach.to)?))
}

/// The bytes of the sublist of the segment from `from` to `to`, in seconds. One pass over the list.
pub fn sublist_bytes(
    alloc: Global,
    layout: Layout,
    list: &[Posting],
    from: u64,
    to: u64,
) -> Result<Vec<u8>, AllocError>
    requires { IsList list.now }
    ensures { IfOk result (λ v. v.items ≡ spelling_in layout (sublist from to list.now)) }
{
    let part = overlap(alloc, list, from, to)?;
    encoded(alloc, layout, &part)
}
