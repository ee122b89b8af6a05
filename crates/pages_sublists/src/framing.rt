//! The headers of a place's blocks, and one block at a time.
ghost use Rattle.std.specs.Prelude.{◌≡◌, ◌<◌, ◌+◌, ◌*◌, ◌≤◌, ℕ, List, length, IfOk, OnOk, IfErr};
ghost use Rattle.machine_model.specs.Areas.{replaced};
ghost use Rattle.machine_model.specs.Causes.{Rose};
ghost use Rattle.base_types.specs.declared.extent.Extent.{Extent as PlainExtent};
ghost use Rattle.pages_area.specs.Ranges.{bytes_in};
ghost use Rattle.pages_area.specs.Runs.{IsPageOf, IsTaken};
ghost use Rattle.pages_area.specs.Caches.{after_asking_all, missed_by_all, StandsFor};
ghost use Rattle.pages_area.specs.CacheLaws.{LieIn};
ghost use Rattle.pages_sublists.specs.Caching.{pieces_at};
ghost use Rattle.pages_sublists.specs.Fetching.{IfDamaged, IfFailed};
ghost use Rattle.pages_sublists.specs.Framing.{IsFramed, IsUnframed, IsOpened, IsUnopened};

use crate::fetching::{Bounds, first_astray};
use crate::why::{Damage, FetchError, Why};
use base_types::{Posting, Span, Time};
use journal_entries::{Layout, Place};
use machine_model::{Area, Disk};
use pages_area::{PageCache, PageError};
use pages_checked::{Checker, DigestError};
use pages_codec::{Frames, ListError};
use std::alloc::Global;

/// The headers that bytes of a place have, if they have its digest. It costs the digest where the checker
/// doesn't remember the bytes.
fn framed(
    checker: &mut Checker,
    alloc: Global,
    place: &Place,
    bytes: Vec<u8>,
) -> Result<Frames, FetchError>
    ensures found { IfOk result (λ f. IsFramed place.now.digest bytes.items f) }
    ensures failed { IfErr result (IfFailed ⊥) }
    ensures damaged { IfErr result (IfDamaged (λ d. (d.page ≡ place.now.extent.first) × IsUnframed place.now.digest bytes.items d.why)) }
{
    let page = place.extent.first;
    match checker.check_digest(alloc, page, Layout::Blocks, &place.digest, &bytes) {
        Ok(()) => {}
        Err(DigestError::Other { got }) => {
            let stored = place.digest;
            let why = Why::Digest { stored, got };
            return Err(FetchError::Damaged(Damage { page, why }));
        }
        Err(DigestError::Memory) => return Err(FetchError::Memory),
    }
    match Frames::read(alloc, bytes) {
        Ok(frames) => Ok(frames),
        Err(ListError::Form { .. }) => {
            let why = Why::Form;
            Err(FetchError::Damaged(Damage { page, why }))
        }
        Err(ListError::Memory) => Err(FetchError::Memory),
    }
}

/// Asks for the bytes of a place, and gives the headers that they have.
pub(crate) fn frames_of<D: Disk>(
    cache: &mut PageCache,
    checker: &mut Checker,
    alloc: Global,
    disk: &mut D,
    place: &Place,
) -> Result<Frames, FetchError>
    requires inside { place.now.extent.first * 4096 + place.now.extent.bytes ≤ (D.disk disk.old).reach.pages }
    ensures only { D.Disk.only disk.old disk.new }
    ensures failed { IfErr result (IfFailed (Rose (D.disk disk.old).faults (D.disk disk.new).faults)) }
    ensures same { D.disk disk.new ≡ record (D.disk disk.old) {
      faults = (D.disk disk.new).faults;
      bytes_read = (D.disk disk.new).bytes_read;
    } }
    ensures asked { D.disk_tells → StandsFor cache.old (D.disk disk.old).holds.pages
        → OnOk result (cache.new ≡ after_asking_all (pieces_at (D.disk disk.old).holds.pages place.now.extent) cache.old) }
    ensures count { D.disk_tells → StandsFor cache.old (D.disk disk.old).holds.pages
        → OnOk result ((D.disk disk.new).bytes_read ≡ replaced (D.disk disk.old).bytes_read Area.Pages ((D.disk disk.old).bytes_read.pages
        + missed_by_all (pieces_at (D.disk disk.old).holds.pages place.now.extent) cache.old)) }
    ensures stays { D.disk_tells → StandsFor cache.old (D.disk disk.old).holds.pages → StandsFor cache.new (D.disk disk.new).holds.pages }
    ensures lie { (taken : List PlainExtent) → ((p : ℕ) → IsPageOf place.now.extent p → IsTaken taken p) → LieIn taken cache.old
        → LieIn taken cache.new }
    ensures found { D.disk_tells → StandsFor cache.old (D.disk disk.old).holds.pages
        → IfOk result (λ f. IsFramed place.now.digest (bytes_in place.now.extent (D.disk disk.old).holds.pages) f) }
    ensures damaged { D.disk_tells → StandsFor cache.old (D.disk disk.old).holds.pages
        → IfErr result (IfDamaged (λ d. (d.page ≡ place.now.extent.first)
        × IsUnframed place.now.digest (bytes_in place.now.extent (D.disk disk.old).holds.pages) d.why)) }
{
    let mut bytes = match vec![in alloc; 0; place.extent.bytes as usize] {
        Ok(bytes) => bytes,
        Err(_) => return Err(FetchError::Memory),
    };
    match cache.read(disk, place.extent, &mut bytes) {
        Ok(()) => {}
        Err(PageError::Failed) => return Err(FetchError::Failed),
        Err(PageError::Memory) => return Err(FetchError::Memory),
    }
    framed(checker, alloc, place, bytes)
}

/// The postings of a block of the place that begins at a page, if the block is one and they belong to a
/// segment below a horizon. One pass over the block's bytes.
pub fn opened(
    alloc: Global,
    frames: &Frames,
    block: usize,
    page: u32,
    span: Span,
    horizon: Time,
) -> Result<Vec<Posting>, FetchError>
    requires { block < length frames.now.heads }
    ensures found { IfOk result (λ v. IsOpened frames.now block span.from span.to horizon.seconds v.items) }
    ensures failed { IfErr result (IfFailed ⊥) }
    ensures damaged { IfErr result
        (IfDamaged (λ d. (d.page ≡ page) × IsUnopened frames.now block span.from span.to horizon.seconds d.why)) }
{
    let bounds = Bounds {
        from: span.from,
        to: span.to,
        horizon: horizon.seconds,
    };
    match frames.open(alloc, block) {
        Ok(list) => {
            if let Some(posting) = first_astray(&list, bounds) {
                let why = Why::Astray { posting };
                return Err(FetchError::Damaged(Damage { page, why }));
            }
            Ok(list)
        }
        Err(ListError::Form { .. }) => {
            let why = Why::Form;
            Err(FetchError::Damaged(Damage { page, why }))
        }
        Err(ListError::Memory) => Err(FetchError::Memory),
    }
}
