//! The bytes of a plan's segments, and those that should stand there.
ghost use Rattle.std.specs.Prelude.{◌≡◌, ◌+◌, ◌<◌, ◌^◌, Some, None, length, map, All, IfOk, IfSome, IsErrOf, MatchOption};
ghost use Rattle.machine_model.specs.Causes.{Rose};
ghost use Rattle.machine_model.specs.Calls.{OnlyReads};
ghost use Rattle.lists_postings.specs.Lists.{IsList, sublist};
ghost use Rattle.pages_area.specs.Live.{IsInside};
ghost use Rattle.pages_area.specs.Ranges.{bytes_in};
ghost use Rattle.pages_checked.specs.Layouts.{spelling_in};
ghost use Rattle.pages_sublists.specs.Segments.{seconds};
ghost use Rattle.pages_sublists.specs.Preparing.{spellings};
ghost use Rattle.archive_check.specs.Verdicts.{DifferAt};
ghost use Rattle.archive_check.specs.Digests.{HasDigest};
ghost use Rattle.archive_check.specs.Checking.{AreAltered, IsFirstWrong};

use crate::bytes::{Spot, first_difference, read_extent};
use crate::digests::{Digests, altered_of};
use crate::error::VerifyError;
use base_types::{Posting, Time};
use journal_entries::{Layout, Place};
use machine_model::Disk;
use pages_sublists::{narrowed, sublist_bytes};
use std::alloc::Global;

/// A segment whose bytes differ, and where.
#[derive(Clone, Copy)]
pub(crate) struct Wrong {
    pub(crate) segment: usize,
    pub(crate) spot: Spot,
}

/// What is wrong in some segments.
#[derive(Clone, Copy)]
pub(crate) struct Faults {
    /// The first whose bytes differ, and where.
    pub(crate) wrong: Option<Wrong>,
    /// Where no bytes differ, and digests are asked: the first whose digest isn't that of its bytes.
    pub(crate) altered: Option<usize>,
}

/// How segments are looked through: by their layout, with their digests or without.
#[derive(Clone, Copy)]
pub(crate) struct Looking {
    pub(crate) layout: Layout,
    pub(crate) digests: Digests,
}

/// What is wrong in the segments that begin at the cuts, the last of which ends at `end`.
///
/// It reads each place whole, one by one, up to the first whose bytes differ, and computes a digest, where
/// one is asked, over the bytes in hand. It costs, for each halving of the segments, passes over the
/// postings that overlap each part; the lists of parts that are held at one time have no more postings
/// than the list.
pub(crate) fn first_faults<D: Disk>(
    alloc: Global,
    disk: &mut D,
    looking: Looking,
    list: &[Posting],
    cuts: &[Time],
    places: &[Place],
    end: Time,
) -> Result<Faults, VerifyError>
    requires list { IsList list.now }
    requires many { length places.now ≡ length cuts.now }
    requires inside { All (λ p. IsInside (D.disk disk.old).reach.pages p.extent) places.now }
    ensures only { D.Disk.only disk.old disk.new }
    ensures same { OnlyReads (D.disk disk.old) (D.disk disk.new) }
    ensures failed { IsErrOf result VerifyError.Failed → Rose (D.disk disk.old).faults (D.disk disk.new).faults }
    ensures within { IfOk result (λ f. IfSome f.wrong (λ w. w.segment < length cuts.now)) }
    ensures altered_within { IfOk result (λ f. IfSome f.altered (λ n. n < length cuts.now)) }
    ensures found { D.disk_tells
        → IfOk result (λ f. IsFirstWrong (map (λ p. bytes_in p.extent (D.disk disk.old).holds.pages) places.now)
        (spellings looking.layout list.now (seconds cuts.now) end.seconds) f.wrong) }
    ensures altered { D.disk_tells → looking.digests ≡ Digests.Asked
        → IfOk result (λ f. f.wrong ≡ None → AreAltered (D.disk disk.old).holds.pages places.now f.altered) }
{
    if cuts.is_empty() {
        return Ok(Faults {
            wrong: None,
            altered: None,
        });
    }
    let half = cuts.len() / 2;
    if half == 0 {
        return faults_of(alloc, disk, looking, list, cuts[0], end, &places[0]);
    }
    let part = narrowed(alloc, list, cuts, end)?;
    let list = part.as_deref().unwrap_or(list);
    let (left, right) = cuts.split_at(half);
    let (one, other) = places.split_at(half);
    let front = first_faults(alloc, disk, looking, list, left, one, cuts[half])?;
    match front.wrong {
        Some(_) => Ok(front),
        None => {
            let back = first_faults(alloc, disk, looking, list, right, other, end)?;
            Ok(joined(front.altered, back, half, right.len()))
        }
    }
}

/// What is wrong in segments of which so many in front have the right bytes, by what is wrong in the
/// others.
fn joined(front: Option<usize>, back: Faults, before: usize, count: usize) -> Faults
    requires within { IfSome back.wrong (λ w. w.segment < count) }
    requires altered_within { IfSome back.altered (λ n. n < count) }
    requires few { before + count < 2 ^ 64 }
    ensures wrong { MatchOption back.wrong (result.wrong ≡ None)
        (λ w. result.wrong ≡ Some (record { segment = before + w.segment; spot = w.spot })) }
    ensures altered { MatchOption front (MatchOption back.altered (result.altered ≡ None) (λ n. result.altered ≡ Some (before + n)))
        (λ n. result.altered ≡ Some n) }
{
    Faults {
        wrong: moved(back.wrong, before, count),
        altered: first_of(front, back.altered, before, count),
    }
}

/// The same segment, where so many stand in front of all.
fn moved(wrong: Option<Wrong>, before: usize, count: usize) -> Option<Wrong>
    requires within { IfSome wrong (λ w. w.segment < count) }
    requires few { before + count < 2 ^ 64 }
    ensures { MatchOption wrong (result ≡ None) (λ w. result ≡ Some (record { segment = before + w.segment; spot = w.spot })) }
{
    match wrong {
        Some(wrong) => Some(Wrong {
            segment: before + wrong.segment,
            spot: wrong.spot,
        }),
        None => None,
    }
}

/// The first of two segments, of which the second is counted behind so many.
fn first_of(front: Option<usize>, back: Option<usize>, before: usize, count: usize) -> Option<usize>
    requires within { IfSome back (λ n. n < count) }
    requires few { before + count < 2 ^ 64 }
    ensures { MatchOption front (MatchOption back (result ≡ None) (λ n. result ≡ Some (before + n))) (λ n. result ≡ Some n) }
{
    match front {
        Some(at) => Some(at),
        None => match back {
            Some(at) => Some(before + at),
            None => None,
        },
    }
}

/// What is wrong in one segment.
fn faults_of<D: Disk>(
    alloc: Global,
    disk: &mut D,
    looking: Looking,
    list: &[Posting],
    from: Time,
    to: Time,
    place: &Place,
) -> Result<Faults, VerifyError>
    requires list { IsList list.now }
    requires inside { IsInside (D.disk disk.old).reach.pages place.now.extent }
    ensures only { D.Disk.only disk.old disk.new }
    ensures same { OnlyReads (D.disk disk.old) (D.disk disk.new) }
    ensures failed { IsErrOf result VerifyError.Failed → Rose (D.disk disk.old).faults (D.disk disk.new).faults }
    ensures within { IfOk result (λ f. IfSome f.wrong (λ w. w.segment ≡ 0)) }
    ensures altered_within { IfOk result (λ f. IfSome f.altered (λ n. n ≡ 0)) }
    ensures found { D.disk_tells → IfOk result (λ f. MatchOption f.wrong
        (bytes_in place.now.extent (D.disk disk.old).holds.pages ≡ spelling_in looking.layout (sublist from.seconds to.seconds list.now))
        (λ w. DifferAt (bytes_in place.now.extent (D.disk disk.old).holds.pages)
        (spelling_in looking.layout (sublist from.seconds to.seconds list.now)) w.spot.place w.spot.found w.spot.wanted)) }
    ensures altered { D.disk_tells → looking.digests ≡ Digests.Asked → IfOk result (λ f. f.wrong ≡ None → MatchOption f.altered
        (HasDigest (D.disk disk.old).holds.pages place.now) (λ _. ¬ (HasDigest (D.disk disk.old).holds.pages place.now))) }
{
    let wanted = sublist_bytes(alloc, looking.layout, list, from.seconds, to.seconds)?;
    let found = read_extent(alloc, disk, place.extent)?;
    match first_difference(&found, &wanted) {
        Some(spot) => Ok(Faults {
            wrong: Some(Wrong { segment: 0, spot }),
            altered: None,
        }),
        None => Ok(Faults {
            wrong: None,
            altered: altered_of(looking.digests, &place.digest, &found),
        }),
    }
}
