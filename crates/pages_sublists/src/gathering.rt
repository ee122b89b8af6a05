//! Gathering the sublists of the segments that overlap a window.
ghost use Rattle.std.specs.Prelude.{◌≡◌, [], ◌∷◌, ◌+◌, ◌^◌, ◌==◌, ◌<◌, ◌≤◌, ◌&&◌, nat_lt, true, ℕ, List, All, drop, length, sum_by, Ok, Err, IfOk, OnOk, IfErr};
ghost use Rattle.base_types.specs.declared.extent.Extent.{Extent};
ghost use Rattle.journal_entries.specs.declared.place.Place.{Place as PlainPlace};
ghost use Rattle.machine_model.specs.Areas.{replaced};
ghost use Rattle.machine_model.specs.Causes.{Rose};
ghost use Rattle.lists_postings.specs.Lists.{IsList};
ghost use Rattle.pages_area.specs.Live.{IsInside};
ghost use Rattle.pages_area.specs.Runs.{IsTaken};
ghost use Rattle.pages_area.specs.Caches.{after_asking_all, missed_by_all, StandsFor};
ghost use Rattle.pages_area.specs.CacheLaws.{LieIn};
ghost use Rattle.pages_sublists.specs.Caching.{pieces_of_all};
ghost use Rattle.pages_sublists.specs.Preparing.{extents};
ghost use Rattle.pages_sublists.specs.Segments.{seconds, next_cut};
ghost use Rattle.pages_sublists.specs.Fetching.{IfDamaged, IfFailed};
ghost use Rattle.pages_sublists.specs.Gathering.{Chosen, chosen, Gathers};
ghost use Rattle.pages_sublists.specs.Joining.{Paged, size_of_all, AreFetched, StopsAt};

use crate::fetching::{Bounds, Segment, fetch_one};
use crate::joining::{Sublist, join_all};
use crate::store::Sublists;
use crate::why::FetchError;
use base_types::{Posting, Span, Time};
use journal_entries::{Layout, Place};
use machine_model::{Area, Disk};
use pages_area::PageCache;
use pages_checked::Checker;
use std::alloc::Global;

/// What was gathered.
#[derive(Debug, Drop)]
pub struct Gathered {
    /// The union of the sublists.
    pub list: Vec<Posting>,
    /// How many postings they have, added up.
    pub read: u64,
}

/// The segments that begin at the cuts, the last of which ends at the horizon, with the places of their
/// sublists.
#[derive(Clone, Copy)]
struct Placed<'p> {
    layout: Layout,
    cuts: &'p [Time],
    horizon: Time,
    places: &'p [Place],
}

impl Sublists {
    /// The union of the sublists of the segments that overlap the window, each read from its place;
    /// pages that are kept are not read again. The cuts are the left ends of the segments, the horizon
    /// is the end of the last, and places are theirs. It costs a pass over the cuts, what the fetches
    /// do, and n log k for n postings in k segments that are read; where two clash, for each segment a
    /// pass over the union so far.
    pub fn gather<D: Disk>(
        &mut self,
        alloc: Global,
        disk: &mut D,
        layout: Layout,
        cuts: &[Time],
        horizon: Time,
        places: &[Place],
        span: Span,
    ) -> Result<Gathered, FetchError>
        requires as_many { length places.now ≡ length cuts.now }
        requires inside { All (λ (p : PlainPlace). IsInside (D.disk disk.old).reach.pages p.extent) places.now }
        requires few { sum_by (λ (p : PlainPlace). p.extent.bytes) places.now ≤ 2 ^ 60 }
        ensures only { D.Disk.only disk.old disk.new }
        ensures failed { IfErr result (IfFailed (Rose (D.disk disk.old).faults (D.disk disk.new).faults)) }
        ensures same { D.disk disk.new ≡ record (D.disk disk.old) {
          faults = (D.disk disk.new).faults;
          bytes_read = (D.disk disk.new).bytes_read;
        } }
        ensures list { IfOk result (λ g. IsList g.list.items) }
        ensures pages { self.new.pages ≡ self.old.pages }
        // The pages of the segments that overlap the window were asked for, in order.
        ensures asked { D.disk_tells → StandsFor self.old.cache (D.disk disk.old).holds.pages
            → OnOk result (self.new.cache
            ≡ after_asking_all (pieces_of_all (D.disk disk.old).holds.pages
            (chosen span.from span.to horizon.seconds true (seconds cuts.now) places.now)) self.old.cache) }
        // Exactly what was missed of them was read.
        ensures count { D.disk_tells → StandsFor self.old.cache (D.disk disk.old).holds.pages
            → OnOk result ((D.disk disk.new).bytes_read ≡ replaced (D.disk disk.old).bytes_read Area.Pages
            ((D.disk disk.old).bytes_read.pages
            + missed_by_all (pieces_of_all (D.disk disk.old).holds.pages
            (chosen span.from span.to horizon.seconds true (seconds cuts.now) places.now)) self.old.cache)) }
        // The list and the number read are what the bytes that reads give lead to.
        ensures gathered { D.disk_tells → StandsFor self.old.cache (D.disk disk.old).holds.pages
            → IfOk result (λ g. Gathers layout horizon.seconds (D.disk disk.old).holds.pages
            (chosen span.from span.to horizon.seconds true (seconds cuts.now) places.now) [] 0 (Ok (g.list.items, g.read))) }
        // And so is the damage.
        ensures damaged { D.disk_tells → StandsFor self.old.cache (D.disk disk.old).holds.pages
            → IfErr result (IfDamaged
            (λ d. Gathers layout horizon.seconds (D.disk disk.old).holds.pages
            (chosen span.from span.to horizon.seconds true (seconds cuts.now) places.now) [] 0 (Err d))) }
        ensures stays { D.disk_tells → StandsFor self.old.cache (D.disk disk.old).holds.pages
            → StandsFor self.new.cache (D.disk disk.new).holds.pages }
        // Whatever is answered, what is kept lies in the extents that are taken, where the places do.
        ensures lie { (taken : List Extent) → ((p : ℕ) → IsTaken (extents places.now) p → IsTaken taken p) → LieIn taken self.old.cache
            → LieIn taken self.new.cache }
    {
        let mut lists = Vec::new(alloc);
        let placed = Placed {
            layout,
            cuts,
            horizon,
            places,
        };
        let fetched = fetch_all(
            &mut self.cache,
            &mut self.checker,
            alloc,
            disk,
            &placed,
            span,
            &mut lists,
        );
        // A clash among the lists in front of a segment that is refused is the first damage.
        let list = match join_all(alloc, lists) {
            Ok(list) => list,
            Err(error) => return Err(error),
        };
        let read = match fetched {
            Ok(read) => read,
            Err(error) => return Err(error),
        };
        Ok(Gathered { list, read })
    }
}

/// Fetches the sublists of the segments that overlap the window, in order, up to the first one that is
/// refused, and counts their postings.
fn fetch_all<D: Disk>(
    cache: &mut PageCache,
    checker: &mut Checker,
    alloc: Global,
    disk: &mut D,
    placed: &Placed,
    span: Span,
    lists: &mut Vec<Sublist>,
) -> Result<u64, FetchError>
    requires none { lists.old.items ≡ [] }
    requires as_many { length placed.now.places.now ≡ length placed.now.cuts.now }
    requires inside { All (λ (p : PlainPlace). IsInside (D.disk disk.old).reach.pages p.extent) placed.now.places.now }
    requires few { sum_by (λ (p : PlainPlace). p.extent.bytes) placed.now.places.now ≤ 2 ^ 60 }
    ensures only { D.Disk.only disk.old disk.new }
    ensures failed { IfErr result (IfFailed (Rose (D.disk disk.old).faults (D.disk disk.new).faults)) }
    ensures same { D.disk disk.new ≡ record (D.disk disk.old) {
      faults = (D.disk disk.new).faults;
      bytes_read = (D.disk disk.new).bytes_read;
    } }
    ensures asked { D.disk_tells → StandsFor cache.old (D.disk disk.old).holds.pages
        → OnOk result (cache.new
        ≡ after_asking_all (pieces_of_all (D.disk disk.old).holds.pages
        (chosen span.from span.to placed.now.horizon.seconds true (seconds placed.now.cuts.now) placed.now.places.now)) cache.old) }
    ensures count { D.disk_tells → StandsFor cache.old (D.disk disk.old).holds.pages
        → OnOk result ((D.disk disk.new).bytes_read ≡ replaced (D.disk disk.old).bytes_read Area.Pages ((D.disk disk.old).bytes_read.pages
        + missed_by_all (pieces_of_all (D.disk disk.old).holds.pages
        (chosen span.from span.to placed.now.horizon.seconds true (seconds placed.now.cuts.now) placed.now.places.now)) cache.old)) }
    ensures stays { D.disk_tells → StandsFor cache.old (D.disk disk.old).holds.pages → StandsFor cache.new (D.disk disk.new).holds.pages }
    ensures lie { (taken : List Extent) → ((p : ℕ) → IsTaken (extents placed.now.places.now) p → IsTaken taken p) → LieIn taken cache.old
        → LieIn taken cache.new }
    ensures lists { All (λ (l : Paged). IsList l.1) lists.new.items }
    ensures read { IfOk result (λ n. n ≡ size_of_all lists.new.items) }
    ensures fetched { D.disk_tells → StandsFor cache.old (D.disk disk.old).holds.pages
        → OnOk result (AreFetched placed.now.layout placed.now.horizon.seconds (D.disk disk.old).holds.pages
        (chosen span.from span.to placed.now.horizon.seconds true (seconds placed.now.cuts.now) placed.now.places.now) lists.new.items
        []) }
    ensures stopped { D.disk_tells → StandsFor cache.old (D.disk disk.old).holds.pages
        → IfErr result (λ e. (rest : List Chosen)
        × (AreFetched placed.now.layout placed.now.horizon.seconds (D.disk disk.old).holds.pages
        (chosen span.from span.to placed.now.horizon.seconds true (seconds placed.now.cuts.now) placed.now.places.now) lists.new.items
        rest
        × IfDamaged (StopsAt placed.now.layout placed.now.horizon.seconds (D.disk disk.old).holds.pages rest) e)) }
{
    let mut read = 0;
    let places = placed.places;
    for k in 0..placed.cuts.len() {
        let place = &places[k];
        let segment = segment_at(placed.cuts, placed.horizon, k);
        if !overlaps(segment, span) {
            continue;
        }
        let found = match fetch_one(cache, checker, alloc, disk, placed.layout, place, segment) {
            Ok(found) => found,
            Err(error) => return Err(error),
        };
        read += found.len() as u64;
        match lists.push(Sublist::new(place.extent.first, found)) {
            Ok(()) => {}
            Err(_) => return Err(FetchError::Memory),
        }
    }
    Ok(read)
}

/// The segment that begins at a cut.
fn segment_at(cuts: &[Time], horizon: Time, k: usize) -> Segment
    requires { k < length cuts.now }
    ensures from { seconds (drop k cuts.now) ≡ result.bounds.from ∷ seconds (drop (k + 1) cuts.now) }
    ensures to { result.bounds.to ≡ next_cut (seconds (drop (k + 1) cuts.now)) horizon.seconds }
    ensures horizon { result.bounds.horizon ≡ horizon.seconds }
    ensures first { result.first ≡ (k == 0) }
{
    let bounds = Bounds {
        from: cuts[k].seconds,
        to: end_at(cuts, horizon, k + 1),
        horizon: horizon.seconds,
    };
    Segment {
        bounds,
        first: k == 0,
    }
}

/// The cut of this number, or the horizon.
fn end_at(cuts: &[Time], horizon: Time, k: usize) -> u64
    ensures { result ≡ next_cut (seconds (drop k cuts.now)) horizon.seconds }
{
    match cuts.get(k) {
        Some(cut) => cut.seconds,
        None => horizon.seconds,
    }
}

/// Whether a segment overlaps a window.
fn overlaps(segment: Segment, span: Span) -> bool
    ensures { result ≡ (nat_lt segment.bounds.from span.to && nat_lt span.from segment.bounds.to) }
{
    segment.bounds.from < span.to && span.from < segment.bounds.to
}
