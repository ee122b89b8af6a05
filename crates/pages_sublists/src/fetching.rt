//! Fetching a sublist from its place.
ghost use Rattle.std.specs.Prelude.{◌≡◌, ◌+◌, ◌*◌, ◌≤◌, ℕ, true, false, List, All, length, IfOk, OnOk, IfErr, MatchOption};
ghost use Rattle.machine_model.specs.Areas.{replaced};
ghost use Rattle.machine_model.specs.Causes.{Rose};
ghost use Rattle.base_types.specs.declared.extent.Extent.{Extent};
ghost use Rattle.pages_area.specs.Ranges.{bytes_in};
ghost use Rattle.pages_area.specs.Runs.{IsPageOf, IsTaken};
ghost use Rattle.pages_area.specs.Caches.{after_asking_all, missed_by_all, StandsFor};
ghost use Rattle.pages_area.specs.CacheLaws.{LieIn};
ghost use Rattle.pages_sublists.specs.Caching.{pieces_at};
ghost use Rattle.lists_postings.specs.Lists.{IsList};
ghost use Rattle.pages_sublists.specs.Fetching.{IsFetched, IsFirstAstray, IfDamaged, IfFailed, belongs};
ghost use Rattle.pages_sublists.specs.Gathering.{IsBare};
ghost use Rattle.pages_sublists.specs.Joining.{RefusesAlone};

use crate::why::{Damage, FetchError, Why};
use base_types::{Posting, Time};
use journal_entries::{Layout, Place};
use machine_model::{Area, Disk};
use pages_area::{PageCache, PageError};
use pages_checked::{CheckError, Checker};
use std::alloc::Global;

/// The ends of a segment in seconds, and the horizon of all.
#[derive(Clone, Copy)]
pub(crate) struct Bounds {
    pub(crate) from: u64,
    pub(crate) to: u64,
    pub(crate) horizon: u64,
}

/// A segment, and whether it is the first of all, which has a posting.
#[derive(Clone, Copy)]
pub(crate) struct Segment {
    pub(crate) bounds: Bounds,
    pub(crate) first: bool,
}

/// Asks for the bytes of a segment's place, and gives the list that they spell.
pub(crate) fn fetch_one<D: Disk>(
    cache: &mut PageCache,
    checker: &mut Checker,
    alloc: Global,
    disk: &mut D,
    layout: Layout,
    place: &Place,
    segment: Segment,
) -> Result<Vec<Posting>, FetchError>
    requires inside { place.now.extent.first * 4096 + place.now.extent.bytes ≤ (D.disk disk.old).reach.pages }
    ensures only { D.Disk.only disk.old disk.new }
    ensures failed { IfErr result (IfFailed (Rose (D.disk disk.old).faults (D.disk disk.new).faults)) }
    ensures same { D.disk disk.new ≡ record (D.disk disk.old) {
      faults = (D.disk disk.new).faults;
      bytes_read = (D.disk disk.new).bytes_read;
    } }
    ensures asked { D.disk_tells → StandsFor cache.old (D.disk disk.old).holds.pages
        → OnOk result (cache.new ≡ after_asking_all (pieces_at (D.disk disk.old).holds.pages place.now.extent) cache.old) }
    ensures count { D.disk_tells → StandsFor cache.old (D.disk disk.old).holds.pages
        → OnOk result ((D.disk disk.new).bytes_read ≡ replaced (D.disk disk.old).bytes_read Area.Pages ((D.disk disk.old).bytes_read.pages
        + missed_by_all (pieces_at (D.disk disk.old).holds.pages place.now.extent) cache.old)) }
    ensures stays { D.disk_tells → StandsFor cache.old (D.disk disk.old).holds.pages → StandsFor cache.new (D.disk disk.new).holds.pages }
    ensures lie { (taken : List Extent) → ((p : ℕ) → IsPageOf place.now.extent p → IsTaken taken p) → LieIn taken cache.old
        → LieIn taken cache.new }
    ensures list { IfOk result (λ v. IsList v.items) }
    ensures short { IfOk result (λ v. length v.items ≤ place.now.extent.bytes) }
    ensures some { IfOk result (λ v. ¬ (IsBare segment.first v.items)) }
    ensures found { D.disk_tells → StandsFor cache.old (D.disk disk.old).holds.pages
        → IfOk result (λ v. IsFetched layout place.now.digest segment.bounds.from segment.bounds.to segment.bounds.horizon
        (bytes_in place.now.extent (D.disk disk.old).holds.pages) v.items) }
    ensures damaged { D.disk_tells → StandsFor cache.old (D.disk disk.old).holds.pages
        → IfErr result (IfDamaged (λ d. (d.page ≡ place.now.extent.first)
        × RefusesAlone layout segment.bounds.horizon (bytes_in place.now.extent (D.disk disk.old).holds.pages)
        (record { from = segment.bounds.from; to = segment.bounds.to; place = place.now; first = segment.first }) d.why)) }
{
    let mut bytes = match vec![in alloc; 0; place.extent.bytes as usize] {
        Ok(bytes) => bytes,
        Err(_) => return Err(FetchError::Memory),
    };
    match cache.read(disk, place.extent, &mut bytes) {
        Ok(()) => {}
        Err(PageError::Failed) => return Err(FetchError::Failed),
        Err(PageError::Memory) => return Err(FetchError::Memory),
    }
    sifted(checker, alloc, layout, place, &bytes, segment)
}

/// The list that the bytes of a segment's place spell, if they have its digest and the list may stand
/// there.
fn sifted(
    checker: &mut Checker,
    alloc: Global,
    layout: Layout,
    place: &Place,
    bytes: &[u8],
    segment: Segment,
) -> Result<Vec<Posting>, FetchError>
    ensures found { IfOk result
        (λ v. IsFetched layout place.now.digest segment.bounds.from segment.bounds.to segment.bounds.horizon bytes.now v.items) }
    ensures some { IfOk result (λ v. ¬ (IsBare segment.first v.items)) }
    ensures failed { IfErr result (IfFailed ⊥) }
    ensures damaged { IfErr result (IfDamaged (λ d. (d.page ≡ place.now.extent.first) × RefusesAlone layout segment.bounds.horizon bytes.now
        (record { from = segment.bounds.from; to = segment.bounds.to; place = place.now; first = segment.first }) d.why)) }
{
    let page = place.extent.first;
    match checker.check(alloc, page, layout, &place.digest, bytes) {
        Ok(list) => {
            if let Some(posting) = first_astray(list, segment.bounds) {
                let why = Why::Astray { posting };
                return Err(FetchError::Damaged(Damage { page, why }));
            }
            if is_bare(segment.first, list) {
                let why = Why::Bare;
                return Err(FetchError::Damaged(Damage { page, why }));
            }
            Ok(Vec::from_slice(alloc, list)?)
        }
        Err(CheckError::Digest { got }) => {
            let stored = place.digest;
            let why = Why::Digest { stored, got };
            Err(FetchError::Damaged(Damage { page, why }))
        }
        Err(CheckError::Form) => {
            let why = Why::Form;
            Err(FetchError::Damaged(Damage { page, why }))
        }
        Err(CheckError::Memory) => Err(FetchError::Memory),
    }
}

/// The first posting that doesn't belong to a segment.
pub(crate) fn first_astray(list: &[Posting], bounds: Bounds) -> Option<Posting>
    ensures { MatchOption result (All (λ q. belongs bounds.from bounds.to bounds.horizon q ≡ true) list.now)
        (λ p. IsFirstAstray bounds.from bounds.to bounds.horizon list.now p) }
{
    for posting in list {
        if !belongs_to(posting, bounds) {
            return Some(*posting);
        }
    }
    None
}

/// Whether a posting has a time in a segment and ends by the horizon.
fn belongs_to(posting: &Posting, bounds: Bounds) -> bool
    ensures { result ≡ belongs bounds.from bounds.to bounds.horizon posting.now }
{
    posting.span.meets(bounds.from, bounds.to) && posting.span.to <= bounds.horizon
}

/// Whether it is the first segment of all, and without a posting.
fn is_bare(first: bool, list: &[Posting]) -> bool
    ensures yes { result ≡ true → IsBare first list.now }
    ensures no { result ≡ false → IsBare first list.now → ⊥ }
{
    first && list.is_empty()
}
