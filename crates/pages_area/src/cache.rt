//! The cache: asking for a page, for all pages of an extent, and giving pages back.
ghost use Rattle.std.specs.Prelude.{◌≡◌, ◌+◌, ◌*◌, ◌<◌, ◌≤◌, ⊤, ℕ, [], length, take, drop, IsTrue, IsOk, IfOk, IfErr, OnOk, OnErr, Contains};
ghost use Rattle.machine_model.specs.Areas.{replaced};
ghost use Rattle.machine_model.specs.Calls.{OnlyReads};
ghost use Rattle.machine_model.specs.Causes.{Rose};
ghost use Rattle.pages_area.specs.Ranges.{bytes_in};
ghost use Rattle.pages_area.specs.Runs.{pages_for};
ghost use Rattle.pages_area.specs.Caches.{is_hit, after_asking, after_asking_all, missed, missed_by_all, AreDistinct, IsGiven, AreGiven, StandsFor};
ghost use Rattle.pages_area.specs.Pieces.{piece_size, pieces, first_pieces, without_pages};
ghost use Rattle.pages_area.specs.Causes.{IsCause};

use crate::error::PageError;
use crate::kept::{MOST_KEPT, copy_kept, let_go, read_missed};
use base_types::{Extent, PAGE_BYTES};
use lru::LruCache;
use machine_model::{Area, Disk};
use std::alloc::{AllocError, Global};
use std::marker::Model;
use std::num::NonZeroUsize;

/// Pages of the area Pages with what was read of them, the most recently used first: 1,024 at most, of
/// at most 4,096 bytes each. Contracts see the list.
#[derive(Drop)]
pub struct PageCache {
    alloc: Global,
    kept: LruCache<u32, Vec<u8>>,
}

impl Model for PageCache {
    ghost use Rattle.std.specs.Prelude.{List};
    ghost use Rattle.pages_area.specs.Caches.{Kept};
    ghost use Rattle.pages_area.specs.Inside.{kept_of, IsInOrder};

    ghost Value = { List Kept };

    ghost view = { λ c. kept_of c.kept.entries };

    ghost invariant = { λ c. IsInOrder c.kept };
}

impl PageCache {
    /// A cache that keeps no page yet. It takes the memory of a table of the pages, and none for their
    /// bytes.
    pub fn new(alloc: Global) -> Result<PageCache, AllocError>
        ensures { IfOk result (λ c. c ≡ []) }
    {
        // While a page is read there is room for it beside the others.
        let room = NonZeroUsize::MIN.saturating_add(MOST_KEPT);
        let kept = LruCache::new(alloc, room)?;
        Ok(PageCache { alloc, kept })
    }

    /// Gives the bytes that an extent has in its page of this index, counted from 0: its piece of the
    /// page. At a hit it costs a look-up and a copy of the piece; at a miss one read of exactly the
    /// piece too, and the memory for it, which is taken before the disk is asked. After an error the
    /// bytes in `buf` mean nothing.
    pub fn read_page<D: Disk>(
        &mut self,
        disk: &mut D,
        extent: Extent,
        index: u64,
        buf: &mut [u8],
    ) -> Result<(), PageError>
        requires page { index < pages_for extent.bytes }
        requires long { length buf.old ≡ piece_size extent.bytes index }
        requires inside { extent.first * 4096 + extent.bytes ≤ (D.disk disk.old).reach.pages }
        ensures only { D.Disk.only disk.old disk.new }
        ensures same { OnlyReads (D.disk disk.old) (D.disk disk.new) }
        // It failed only where the disk's count rose; where there was no memory the disk wasn't asked.
        ensures cause { IfErr result (IsCause (Rose (D.disk disk.old).faults (D.disk disk.new).faults) (disk.new ≡ disk.old)) }
        // A hit gives the bytes that are kept, asks no disk and takes no memory.
        ensures hit { IsTrue (is_hit (extent.first + index) (length buf.old) self.old)
            → IsOk result × Contains self.old (record { page = extent.first + index; bytes = buf.new }) × (disk.new ≡ disk.old) }
        ensures asked { OnOk result (self.new ≡ after_asking (record { page = extent.first + index; bytes = buf.new }) self.old) }
        ensures kept { OnErr result (self.new ≡ self.old) }
        // At a hit the bytes are the kept ones, at a miss what reads give.
        ensures given { D.disk_tells
            → OnOk result (IsGiven (D.disk disk.old).holds.pages self.old (record { page = extent.first + index; bytes = buf.new })) }
        ensures bytes { D.disk_tells → StandsFor self.old (D.disk disk.old).holds.pages
            → OnOk result (buf.new ≡ take (length buf.old) (drop ((extent.first + index) * 4096) (D.disk disk.old).holds.pages)) }
        ensures stays { D.disk_tells → StandsFor self.old (D.disk disk.old).holds.pages → StandsFor self.new (D.disk disk.new).holds.pages }
        // A miss reads the piece, and nothing else is read.
        ensures count { D.disk_tells
            → OnOk result ((D.disk disk.new).bytes_read ≡ replaced (D.disk disk.old).bytes_read Area.Pages
            ((D.disk disk.old).bytes_read.pages + missed (record { page = extent.first + index; bytes = buf.new }) self.old)) }
        ensures unread { D.disk_tells → OnErr result ((D.disk disk.new).bytes_read ≡ (D.disk disk.old).bytes_read) }
    {
        let page = extent.first + index as u32;
        if copy_kept(&mut self.kept, page, buf) {
            return Ok(());
        }
        read_missed(&mut self.kept, self.alloc, disk, page, buf)
    }

    /// Gives the bytes of an extent, by asking for its pages in turn; with no bytes no page is asked
    /// for. It costs what `read_page` does, for each page. After an error the bytes in `buf` mean
    /// nothing from the page on that wasn't read.
    pub fn read<D: Disk>(
        &mut self,
        disk: &mut D,
        extent: Extent,
        buf: &mut [u8],
    ) -> Result<(), PageError>
        requires long { length buf.old ≡ extent.bytes }
        requires inside { extent.first * 4096 + extent.bytes ≤ (D.disk disk.old).reach.pages }
        ensures only { D.Disk.only disk.old disk.new }
        ensures same { OnlyReads (D.disk disk.old) (D.disk disk.new) }
        // It failed only where the disk's count rose.
        ensures cause { IfErr result (IsCause (Rose (D.disk disk.old).faults (D.disk disk.new).faults) ⊤) }
        ensures asked { OnOk result (self.new ≡ after_asking_all (pieces extent.first buf.new) self.old) }
        // Of each page the bytes are the kept ones at a hit, and at a miss what reads give.
        ensures given { D.disk_tells → OnOk result (AreGiven (D.disk disk.old).holds.pages self.old (pieces extent.first buf.new)) }
        ensures bytes { D.disk_tells → StandsFor self.old (D.disk disk.old).holds.pages
            → OnOk result (buf.new ≡ bytes_in extent (D.disk disk.old).holds.pages) }
        ensures stays { D.disk_tells → StandsFor self.old (D.disk disk.old).holds.pages → StandsFor self.new (D.disk disk.new).holds.pages }
        // The pieces that are missed are read, and nothing else is.
        ensures count { D.disk_tells
            → OnOk result ((D.disk disk.new).bytes_read ≡ replaced (D.disk disk.old).bytes_read Area.Pages
            ((D.disk disk.old).bytes_read.pages + missed_by_all (pieces extent.first buf.new) self.old)) }
        // After an error the pages before the one that wasn't read were asked for.
        ensures part { OnErr result ((n : ℕ) × ((n < pages_for extent.bytes)
            × ((self.new ≡ after_asking_all (first_pieces n extent.first buf.new) self.old)
            × (D.disk_tells → (D.disk disk.new).bytes_read ≡ replaced (D.disk disk.old).bytes_read Area.Pages
            ((D.disk disk.old).bytes_read.pages + missed_by_all (first_pieces n extent.first buf.new) self.old))))) }
    {
        'pages: for index in 0..extent.pages() {
            let start = (PAGE_BYTES * index) as usize;
            let end = extent.bytes.min(PAGE_BYTES * (index + 1)) as usize;
            match self.read_page(disk, extent, index, &mut buf[start..end]) {
                Ok(()) => {}
                Err(error) => return Err(error),
            }
        }
        Ok(())
    }

    /// Lets the pages of an extent go: to be called before anything is written there. Takes no memory;
    /// constant cost for each page of the extent, kept or not.
    pub fn give_back(&mut self, extent: Extent)
        ensures { self.new ≡ without_pages extent self.old }
    {
        let_go(&mut self.kept, extent.first, extent.pages() as u32);
    }

    /// How many pages are kept: 1,024 at most, and none twice. Constant cost.
    pub fn len(&self) -> usize
        ensures value { result ≡ length self.now }
        ensures most { result ≤ 1024 }
        ensures distinct { AreDistinct self.now }
    {
        self.kept.len()
    }
}
