//! Sublists that are prepared, and then written and adopted, or forgotten.
ghost use Rattle.std.specs.Prelude.{◌≡◌, ◌++◌, List, length, All, IfOk, IfErr, OnOk, OnErr, IsErrOf};
ghost use Rattle.std.specs.List.{AllZip};
ghost use Rattle.base_types.specs.declared.extent.Extent.{Extent};
ghost use Rattle.journal_entries.specs.declared.place.Place.{Place as PlainPlace};
ghost use Rattle.machine_model.specs.Causes.{HasCause};
ghost use Rattle.lists_postings.specs.Lists.{IsList};
ghost use Rattle.pages_area.specs.Live.{IsInside};
ghost use Rattle.pages_area.specs.Runs.{IsTaken};
ghost use Rattle.pages_area.specs.Taken.{HasTaken, AreApart};
ghost use Rattle.pages_area.specs.Placing.{ArePlaced, HaveNoRoom};
ghost use Rattle.pages_area.specs.Wrote.{Stored, extents_of, ranges_of};
ghost use Rattle.pages_area.specs.Crash.{ChangesOnly};
ghost use Rattle.pages_area.specs.Caches.{StandsFor};
ghost use Rattle.pages_sublists.specs.Caching.{without_all};
ghost use Rattle.pages_sublists.specs.Segments.{seconds};
ghost use Rattle.pages_sublists.specs.PlacedAt.{IsPlaceFault};
ghost use Rattle.pages_sublists.specs.Preparing.{IsFor, extents, pieces, pieces_of, sizes, spellings};

use crate::placing::{let_go, place_all, release, take_all};
use crate::spelled::{Spelling, spell_all};
use crate::starts::starts_of;
use crate::store::Sublists;
use crate::why::PlaceError;
use base_types::{Posting, Time};
use journal_entries::{Layout, Place};
use machine_model::{Disk, Failed};
use pages_area::{Pages, TakeError};
use std::alloc::Global;
use std::marker::Model;

/// Sublists with their bytes, whose pages are taken.
#[derive(Drop)]
pub struct Prepared {
    pub(crate) places: Vec<Place>,
    pub(crate) spellings: Vec<Spelling>,
    /// For each place, how many pages those in front of it take.
    pub(crate) starts: Vec<u64>,
}

impl Model for Prepared {
    ghost use Rattle.std.specs.List.{AllZip};
    ghost use Rattle.pages_sublists.specs.Paged.{AreStarts};
    ghost use Rattle.pages_sublists.specs.Preparing.{PreparedState, IsFor};

    ghost Value = { PreparedState };

    ghost view = { λ p. record { places = p.places.items; spellings = p.spellings.items } };

    ghost invariant = { λ p. AllZip IsFor p.places.items p.spellings.items × AreStarts p.starts.items p.spellings.items };
}

impl Prepared {
    /// The places in the order of the segments. Constant cost.
    pub fn places(&self) -> &[Place]
        ensures value { result.now ≡ self.now.places }
        ensures each { AllZip IsFor result.now self.now.spellings }
    {
        &self.places
    }
}

impl Sublists {
    /// Spells the sublist of each segment and takes its pages, in the order of the segments. The cuts
    /// are the left ends of the segments, and the horizon is the end of the last. It costs passes over
    /// the list, and for each halving of the segments passes over the postings of all sublists at most;
    /// and the digests of all bytes. Beside the bytes it holds as many postings as the list has, at most.
    pub fn prepare(
        &mut self,
        alloc: Global,
        layout: Layout,
        list: &[Posting],
        cuts: &[Time],
        horizon: Time,
    ) -> Result<Prepared, TakeError>
        requires list { IsList list.now }
        requires taken { (taken : List Extent) × HasTaken self.old.pages taken }
        ensures spelled { IfOk result (λ p. p.spellings ≡ spellings layout list.now (seconds cuts.now) horizon.seconds) }
        ensures each { IfOk result (λ p. AllZip IsFor p.places p.spellings) }
        // Each place takes the lowest run, the earlier ones having been placed.
        ensures placed { (taken : List Extent) → HasTaken self.old.pages taken
            → IfOk result (λ p. ArePlaced taken (sizes p.spellings) (extents p.places)) }
        ensures taken { (taken : List Extent) → HasTaken self.old.pages taken
            → IfOk result (λ p. HasTaken self.new.pages (extents p.places ++ taken)) }
        ensures full { (taken : List Extent) → HasTaken self.old.pages taken → IsErrOf result TakeError.Full
            → HaveNoRoom taken (sizes (spellings layout list.now (seconds cuts.now) horizon.seconds)) }
        // After an error no page is taken.
        ensures none { (taken : List Extent) → HasTaken self.old.pages taken → OnErr result (HasTaken self.new.pages taken) }
        ensures cache { self.new.cache ≡ self.old.cache }
    {
        let spellings = match spell_all(alloc, layout, list, cuts, horizon) {
            Ok(spellings) => spellings,
            Err(_) => return Err(TakeError::Memory),
        };
        let starts = match starts_of(alloc, &spellings) {
            Ok(starts) => starts,
            Err(_) => return Err(TakeError::Memory),
        };
        match place_all(&mut self.pages, alloc, &spellings) {
            Ok(places) => Ok(Prepared {
                places,
                spellings,
                starts,
            }),
            Err(error) => Err(error),
        }
    }

    /// Spells the sublist of each segment and takes the pages of these places, in the order of the
    /// segments: for each it tests first that the place is for the bytes, by their number and their
    /// digest, and then that its pages are free. After an error no page is taken. It costs what
    /// `prepare` does, and a copy of the places.
    pub fn prepare_at(
        &mut self,
        alloc: Global,
        layout: Layout,
        list: &[Posting],
        cuts: &[Time],
        horizon: Time,
        places: &[Place],
    ) -> Result<Prepared, PlaceError>
        requires list { IsList list.now }
        requires as_many { length places.now ≡ length cuts.now }
        requires empty { All (λ (p : PlainPlace). p.extent.bytes ≡ 0 → p.extent.first ≡ 0) places.now }
        requires taken { (taken : List Extent) × HasTaken self.old.pages taken }
        ensures spelled { IfOk result (λ p. p.spellings ≡ spellings layout list.now (seconds cuts.now) horizon.seconds) }
        ensures places { IfOk result (λ p. p.places ≡ places.now) }
        ensures each { IfOk result (λ p. AllZip IsFor p.places p.spellings) }
        ensures taken { (taken : List Extent) → HasTaken self.old.pages taken
            → IfOk result (λ p. HasTaken self.new.pages (extents p.places ++ taken)) }
        // The first place that fails a test is named.
        ensures refused { (taken : List Extent) → HasTaken self.old.pages taken
            → IfErr result (IsPlaceFault taken places.now (spellings layout list.now (seconds cuts.now) horizon.seconds)) }
        ensures none { (taken : List Extent) → HasTaken self.old.pages taken → OnErr result (HasTaken self.new.pages taken) }
        ensures cache { self.new.cache ≡ self.old.cache }
    {
        let spellings = spell_all(alloc, layout, list, cuts, horizon)?;
        let starts = starts_of(alloc, &spellings)?;
        let copy = Vec::from_slice(alloc, places)?;
        match take_all(&mut self.pages, places, &spellings) {
            Ok(()) => Ok(Prepared {
                places: copy,
                spellings,
                starts,
            }),
            Err(error) => Err(error),
        }
    }

    /// The new places are live, and the pages of the old ones free and kept no longer. Takes no memory.
    /// It costs what giving each old place back does, to the free pages and to the cache.
    pub fn adopt(&mut self, prepared: Prepared, old: &[Place])
        requires taken { (live : List Extent) × HasTaken self.old.pages (extents prepared.places ++ (extents old.now ++ live)) }
        ensures freed { (live : List Extent) → HasTaken self.old.pages (extents prepared.places ++ (extents old.now ++ live))
            → HasTaken self.new.pages (extents prepared.places ++ live) }
        ensures cache { self.new.cache ≡ without_all (extents old.now) self.old.cache }
    {
        release(&mut self.pages, old);
        let_go(&mut self.cache, &mut self.checker, old);
    }

    /// The pages of the places are free again. Takes no memory. It costs what giving each place back
    /// does.
    pub fn forget(&mut self, prepared: Prepared)
        requires taken { (live : List Extent) × HasTaken self.old.pages (extents prepared.places ++ live) }
        ensures freed { (live : List Extent) → HasTaken self.old.pages (extents prepared.places ++ live) → HasTaken self.new.pages live }
        ensures cache { self.new.cache ≡ self.old.cache }
    {
        release(&mut self.pages, prepared.places());
    }

    /// Writes each place's bytes, and makes them durable; none of these pages may be kept. Takes no
    /// memory. It makes a call of the disk for each place that has bytes, and one more.
    pub fn write<D: Disk>(&self, disk: &mut D, prepared: &Prepared) -> Result<(), Failed>
        requires taken { (live : List Extent) × HasTaken self.now.pages (extents prepared.now.places ++ live) }
        requires unkept { All (λ k. IsTaken (extents prepared.now.places) k.page → ⊥) self.now.cache }
        ensures only { D.Disk.only disk.old disk.new }
        ensures cause { HasCause (D.disk disk.old).faults (D.disk disk.new).faults result }
        ensures journal { (D.disk disk.new).reach.journal ≡ (D.disk disk.old).reach.journal }
        // After Ok each place lies inside the reach of Pages, on any disk.
        ensures inside { OnOk result (All (λ (p : PlainPlace). IsInside (D.disk disk.new).reach.pages p.extent) prepared.now.places) }
        ensures read { D.disk_tells → (D.disk disk.new).bytes_read ≡ (D.disk disk.old).bytes_read }
        // Whatever is answered, a stop leaves an image from before but for the places.
        ensures images { D.disk_tells → ChangesOnly (ranges_of (pieces prepared.now)) (D.disk disk.old) (D.disk disk.new) }
        // After Ok the bytes stand in the places, and all else reads as it did; no image is allowed but what reads give.
        ensures stored { D.disk_tells → OnOk result (Stored (pieces prepared.now) (D.disk disk.old) (D.disk disk.new)) }
        // So what is kept stands for Pages as it did.
        ensures stays { D.disk_tells → StandsFor self.now.cache (D.disk disk.old).holds.pages
            → OnOk result (StandsFor self.now.cache (D.disk disk.new).holds.pages) }
    {
        write_all(&self.pages, disk, &prepared.places, &prepared.spellings)
    }
}

/// Writes the bytes of places, and makes them durable.
fn write_all<D: Disk>(
    pages: &Pages,
    disk: &mut D,
    places: &[Place],
    spellings: &[Spelling],
) -> Result<(), Failed>
    requires each { AllZip IsFor places.now spellings.now }
    requires apart { AreApart (extents_of (pieces_of places.now spellings.now)) }
    ensures only { D.Disk.only disk.old disk.new }
    ensures cause { HasCause (D.disk disk.old).faults (D.disk disk.new).faults result }
    ensures journal { (D.disk disk.new).reach.journal ≡ (D.disk disk.old).reach.journal }
    ensures inside { OnOk result (All (λ (p : PlainPlace). IsInside (D.disk disk.new).reach.pages p.extent) places.now) }
    ensures read { D.disk_tells → (D.disk disk.new).bytes_read ≡ (D.disk disk.old).bytes_read }
    ensures images { D.disk_tells → ChangesOnly (ranges_of (pieces_of places.now spellings.now)) (D.disk disk.old) (D.disk disk.new) }
    ensures stored { D.disk_tells → OnOk result (Stored (pieces_of places.now spellings.now) (D.disk disk.old) (D.disk disk.new)) }
{
    for k in 0..places.len() {
        let bytes = spellings[k].bytes();
        pages.write_extent(disk, places[k].extent, bytes)?;
    }
    disk.sync()?;
    Ok(())
}
