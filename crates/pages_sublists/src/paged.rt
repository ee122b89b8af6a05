//! Sublists that are written some pages at a time.
ghost use Rattle.std.specs.Prelude.{◌≡◌, ◌+◌, ◌-◌, ◌*◌, ◌<◌, ◌≤◌, ◌++◌, min, List, length, take, drop, All, IfOk, OnOk};
ghost use Rattle.std.specs.List.{AllZip};
ghost use Rattle.base_types.specs.declared.extent.Extent.{Extent as PlainExtent};
ghost use Rattle.machine_model.specs.Calls.{IsSynced, Syncs};
ghost use Rattle.machine_model.specs.Causes.{HasCause};
ghost use Rattle.pages_area.specs.Crash.{ChangesOnly};
ghost use Rattle.pages_area.specs.Runs.{IsTaken, pages_for};
ghost use Rattle.pages_area.specs.Taken.{HasTaken, AreApart};
ghost use Rattle.pages_area.specs.Caches.{StandsFor};
ghost use Rattle.pages_area.specs.Pieces.{pieces as page_pieces};
ghost use Rattle.pages_sublists.specs.Paged.{AreStarts, ReachPages, WrotePages, page_ranges, pages_of, some_pages};
ghost use Rattle.pages_sublists.specs.Preparing.{IsFor, extents, pieces, pieces_of};

use crate::prepared::Prepared;
use crate::spelled::Spelling;
use crate::starts::start_at;
use crate::store::Sublists;
use base_types::{Extent, PAGE_BYTES};
use journal_entries::Place;
use machine_model::{Disk, Failed};
use pages_area::Pages;

impl Sublists {
    /// Writes so many pages of sublists that were prepared, or those that are left, from one on, counted
    /// over the places in order, and answers how many; none of their pages may be kept. Until the next good
    /// sync a stop may leave any part of them. Takes no memory. It makes a call of the disk for each place
    /// that has some of these pages, and costs the logarithm of the places beside them.
    pub fn write_some<D: Disk>(
        &self,
        disk: &mut D,
        prepared: &Prepared,
        from: u64,
        pages: u64,
    ) -> Result<u64, Failed>
        requires taken { (live : List PlainExtent) × HasTaken self.now.pages (extents prepared.now.places ++ live) }
        requires unkept { All (λ k. IsTaken (extents prepared.now.places) k.page → ⊥) self.now.cache }
        ensures only { D.Disk.only disk.old disk.new }
        ensures cause { HasCause (D.disk disk.old).faults (D.disk disk.new).faults result }
        ensures count { IfOk result (λ n. n ≡ length (some_pages from pages prepared.now)) }
        ensures journal { (D.disk disk.new).reach.journal ≡ (D.disk disk.old).reach.journal }
        // After Ok these pages lie inside the reach of Pages, on any disk.
        ensures inside { OnOk result (ReachPages (D.disk disk.new).reach.pages (some_pages from pages prepared.now)) }
        ensures read { D.disk_tells → (D.disk disk.new).bytes_read ≡ (D.disk disk.old).bytes_read }
        // Whatever is answered, a stop leaves an image from before but for these pages.
        ensures images { D.disk_tells → ChangesOnly (page_ranges (some_pages from pages prepared.now)) (D.disk disk.old) (D.disk disk.new) }
        // After Ok they hold their bytes, and all else reads as it did.
        ensures wrote { D.disk_tells
            → OnOk result (WrotePages (some_pages from pages prepared.now) (D.disk disk.old).holds (D.disk disk.new).holds) }
        // So what is kept, and the pages in front where they were written, go on being as reads give them, and these are.
        ensures counted { D.disk_tells
            → StandsFor (self.now.cache ++ take from (pages_of (pieces prepared.now))) (D.disk disk.old).holds.pages →
            OnOk result (StandsFor (self.now.cache ++ take (from + pages) (pages_of (pieces prepared.now))) (D.disk disk.new).holds.pages) }
    {
        write_pages(
            &self.pages,
            disk,
            &prepared.places,
            &prepared.spellings,
            &prepared.starts,
            from,
            pages,
        )
    }

    /// Makes all that was written durable. Takes no memory.
    pub fn settle<D: Disk>(&self, disk: &mut D) -> Result<(), Failed>
        ensures only { D.Disk.only disk.old disk.new }
        ensures cause { HasCause (D.disk disk.old).faults (D.disk disk.new).faults result }
        ensures reach { (D.disk disk.new).reach ≡ (D.disk disk.old).reach }
        ensures images { D.disk_tells → Syncs (D.disk disk.old) (D.disk disk.new) }
        ensures durable { D.disk_tells → OnOk result (IsSynced (D.disk disk.old) (D.disk disk.new)) }
        ensures read { D.disk_tells → (D.disk disk.new).bytes_read ≡ (D.disk disk.old).bytes_read }
    {
        disk.sync()
    }
}

/// Writes so many pages of places, or those that are left, from one on, counted over the places in order.
fn write_pages<D: Disk>(
    pages: &Pages,
    disk: &mut D,
    places: &[Place],
    spellings: &[Spelling],
    starts: &[u64],
    from: u64,
    most: u64,
) -> Result<u64, Failed>
    requires each { AllZip IsFor places.now spellings.now }
    requires starts { AreStarts starts.now spellings.now }
    requires apart { AreApart (extents places.now) }
    ensures only { D.Disk.only disk.old disk.new }
    ensures cause { HasCause (D.disk disk.old).faults (D.disk disk.new).faults result }
    ensures count { IfOk result (λ n. n ≡ length (take most (drop from (pages_of (pieces_of places.now spellings.now))))) }
    ensures journal { (D.disk disk.new).reach.journal ≡ (D.disk disk.old).reach.journal }
    ensures inside { OnOk result
        (ReachPages (D.disk disk.new).reach.pages (take most (drop from (pages_of (pieces_of places.now spellings.now))))) }
    ensures read { D.disk_tells → (D.disk disk.new).bytes_read ≡ (D.disk disk.old).bytes_read }
    ensures images { D.disk_tells
        → ChangesOnly (page_ranges (take most (drop from (pages_of (pieces_of places.now spellings.now))))) (D.disk disk.old)
        (D.disk disk.new) }
    ensures wrote { D.disk_tells
        → OnOk result (WrotePages (take most (drop from (pages_of (pieces_of places.now spellings.now)))) (D.disk disk.old).holds
        (D.disk disk.new).holds) }
{
    let start = start_at(starts, from);
    let mut skip = from - start.front;
    let mut left = most;
    for k in start.place..places.len() {
        if left == 0 {
            return Ok(most);
        }
        let bytes = spellings[k].bytes();
        let wrote = write_part(pages, disk, places[k].extent, bytes, skip, left)?;
        skip = skip.saturating_sub(places[k].extent.pages());
        left -= wrote;
    }
    Ok(most - left)
}

/// Writes so many pages of an extent, or those that are left, from one on. With none no device is called.
fn write_part<D: Disk>(
    pages: &Pages,
    disk: &mut D,
    extent: Extent,
    bytes: &[u8],
    from: u64,
    most: u64,
) -> Result<u64, Failed>
    requires long { length bytes.now ≡ extent.bytes }
    ensures only { D.Disk.only disk.old disk.new }
    ensures cause { HasCause (D.disk disk.old).faults (D.disk disk.new).faults result }
    ensures count { IfOk result (λ n. n ≡ length (take most (drop from (page_pieces extent.first bytes.now)))) }
    ensures journal { (D.disk disk.new).reach.journal ≡ (D.disk disk.old).reach.journal }
    ensures inside { OnOk result (ReachPages (D.disk disk.new).reach.pages (take most (drop from (page_pieces extent.first bytes.now)))) }
    ensures read { D.disk_tells → (D.disk disk.new).bytes_read ≡ (D.disk disk.old).bytes_read }
    ensures images { D.disk_tells
        → ChangesOnly (page_ranges (take most (drop from (page_pieces extent.first bytes.now)))) (D.disk disk.old) (D.disk disk.new) }
    ensures wrote { D.disk_tells
        → OnOk result (WrotePages (take most (drop from (page_pieces extent.first bytes.now))) (D.disk disk.old).holds
        (D.disk disk.new).holds) }
{
    let all = extent.pages();
    if from >= all {
        return Ok(0);
    }
    let count = (all - from).min(most);
    let part = part_of(extent, from, count);
    let start = (PAGE_BYTES * from) as usize;
    let end = start + part.bytes as usize;
    pages.write_extent(disk, part, &bytes[start..end])?;
    Ok(count)
}

/// So many pages of an extent, from one on.
fn part_of(extent: Extent, from: u64, count: u64) -> Extent
    requires { from + count ≤ pages_for extent.bytes }
    ensures first { result.first ≡ extent.first + from }
    ensures bytes { result.bytes ≡ min extent.bytes (4096 * (from + count)) - 4096 * from }
{
    let end = extent.bytes.min(PAGE_BYTES * (from + count));
    Extent {
        first: extent.first + from as u32,
        bytes: end.saturating_sub(PAGE_BYTES * from),
    }
}
