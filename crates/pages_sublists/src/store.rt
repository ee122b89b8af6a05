//! Sublists in pages.
ghost use Rattle.std.specs.Prelude.{◌≡◌, [], ◌+◌, ◌*◌, ◌≤◌, ℕ, List, IfOk, OnOk, IfErr};
ghost use Rattle.base_types.specs.declared.extent.Extent.{Extent as PlainExtent};
ghost use Rattle.machine_model.specs.Areas.{replaced};
ghost use Rattle.machine_model.specs.Causes.{Rose};
ghost use Rattle.pages_area.specs.Ranges.{bytes_in};
ghost use Rattle.pages_area.specs.Runs.{IsPageOf, IsTaken};
ghost use Rattle.pages_area.specs.Taken.{HasTaken};
ghost use Rattle.pages_area.specs.Live.{AreLive, IsRefused};
ghost use Rattle.pages_area.specs.Caches.{after_asking_all, missed_by_all, StandsFor};
ghost use Rattle.pages_area.specs.CacheLaws.{LieIn};
ghost use Rattle.pages_sublists.specs.Caching.{pieces_at};
ghost use Rattle.pages_sublists.specs.Fetching.{IfDamaged, IfFailed};
ghost use Rattle.pages_sublists.specs.Framing.{IsFramed, IsUnframed};

use crate::framing::frames_of;
use crate::why::FetchError;
use base_types::Extent;
use journal_entries::Place;
use machine_model::{Area, Disk};
use pages_area::{LiveError, PageCache, Pages};
use pages_checked::Checker;
use pages_codec::Frames;
use std::alloc::Global;
use std::marker::Model;

/// The pages that sublists have, pages that were read, and bytes that were checked. Contracts see the
/// first two.
#[derive(Drop)]
pub struct Sublists {
    pub(crate) pages: Pages,
    pub(crate) checker: Checker,
    pub(crate) cache: PageCache,
}

impl Model for Sublists {
    ghost use Rattle.pages_sublists.specs.Caching.{SublistsState};

    ghost Value = { SublistsState };

    ghost view = { λ s. record { pages = s.pages; cache = s.cache } };
}

impl Sublists {
    /// The store in which the pages of these extents are taken, in Pages of `reach` bytes, and none is
    /// kept. It costs what `Pages::from_live` does.
    pub fn from_live(alloc: Global, live: &[Extent], reach: u64) -> Result<Sublists, LiveError>
        ensures taken { IfOk result (λ s. HasTaken s.pages live.now × AreLive live.now reach) }
        // An extent is refused exactly where it is the first that doesn't pass.
        ensures refused { IfErr result (IsRefused live.now reach) }
        ensures cache { IfOk result (λ s. s.cache ≡ []) }
    {
        let pages = match Pages::from_live(alloc, live, reach) {
            Ok(pages) => pages,
            Err(error) => return Err(error),
        };
        let checker = Checker::new(alloc)?;
        let cache = PageCache::new(alloc)?;
        Ok(Sublists {
            pages,
            checker,
            cache,
        })
    }

    /// Reads the bytes of a place that is spelled in blocks, and gives the headers of these. Pages that are
    /// kept are not read again. It costs the digest of the bytes where they aren't remembered, as for
    /// `gather`, and constant time a block.
    pub fn fetch_frames<D: Disk>(
        &mut self,
        alloc: Global,
        disk: &mut D,
        place: &Place,
    ) -> Result<Frames, FetchError>
        requires inside { place.now.extent.first * 4096 + place.now.extent.bytes ≤ (D.disk disk.old).reach.pages }
        ensures only { D.Disk.only disk.old disk.new }
        ensures failed { IfErr result (IfFailed (Rose (D.disk disk.old).faults (D.disk disk.new).faults)) }
        ensures same { D.disk disk.new ≡ record (D.disk disk.old) {
          faults = (D.disk disk.new).faults;
          bytes_read = (D.disk disk.new).bytes_read;
        } }
        ensures pages { self.new.pages ≡ self.old.pages }
        ensures asked { D.disk_tells → StandsFor self.old.cache (D.disk disk.old).holds.pages
            → OnOk result (self.new.cache ≡ after_asking_all (pieces_at (D.disk disk.old).holds.pages place.now.extent) self.old.cache) }
        ensures count { D.disk_tells → StandsFor self.old.cache (D.disk disk.old).holds.pages
            → OnOk result ((D.disk disk.new).bytes_read ≡ replaced (D.disk disk.old).bytes_read Area.Pages
            ((D.disk disk.old).bytes_read.pages
            + missed_by_all (pieces_at (D.disk disk.old).holds.pages place.now.extent) self.old.cache)) }
        ensures found { D.disk_tells → StandsFor self.old.cache (D.disk disk.old).holds.pages
            → IfOk result (λ f. IsFramed place.now.digest (bytes_in place.now.extent (D.disk disk.old).holds.pages) f) }
        ensures damaged { D.disk_tells → StandsFor self.old.cache (D.disk disk.old).holds.pages
            → IfErr result (IfDamaged (λ d. (d.page ≡ place.now.extent.first)
            × IsUnframed place.now.digest (bytes_in place.now.extent (D.disk disk.old).holds.pages) d.why)) }
        ensures stays { D.disk_tells → StandsFor self.old.cache (D.disk disk.old).holds.pages
            → StandsFor self.new.cache (D.disk disk.new).holds.pages }
        ensures lie { (taken : List PlainExtent) → ((p : ℕ) → IsPageOf place.now.extent p → IsTaken taken p) → LieIn taken self.old.cache
            → LieIn taken self.new.cache }
    {
        frames_of(&mut self.cache, &mut self.checker, alloc, disk, place)
    }
}
