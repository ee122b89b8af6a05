//! The pages that a cache keeps.
ghost use Rattle.std.specs.Prelude.{◌≡◌, ◌+◌, ◌*◌, ◌≤◌, ◌^◌, ◌∷◌, false, nat_eq, length, take, None, IsTrue, IsSome, OnOk, OnErr, IfErr, Contains};
ghost use Rattle.std.specs.Map.{lookup, remove_entry};
ghost use Rattle.machine_model.specs.Areas.{replaced};
ghost use Rattle.machine_model.specs.Calls.{OnlyReads};
ghost use Rattle.machine_model.specs.Causes.{HasCause, Rose};
ghost use Rattle.pages_area.specs.Caches.{is_hit, after_asking, IsHeld};
ghost use Rattle.pages_area.specs.Pieces.{without_run};
ghost use Rattle.pages_area.specs.Causes.{IsCause};
ghost use Rattle.pages_area.specs.Inside.{kept_of, IsInOrder, HasOneMore};

use crate::error::PageError;
use base_types::PAGE_BYTES;
use lru::LruCache;
use machine_model::{Area, Disk, Failed};
use std::alloc::Global;

/// The most pages that are kept between two calls.
pub(crate) const MOST_KEPT: usize = 1024;

/// Copies the piece of a page that is kept with the length of `buf`, and moves the page to the front.
/// False, and nothing is moved, where none is.
pub(crate) fn copy_kept(kept: &mut LruCache<u32, Vec<u8>>, page: u32, buf: &mut [u8]) -> bool
    requires order { IsInOrder kept.old }
    ensures found { result ≡ is_hit page (length buf.old) (kept_of kept.old.entries) }
    ensures piece { IsTrue result → Contains (kept_of kept.old.entries) (record { page = page; bytes = buf.new }) }
    ensures moved { IsTrue result
        → kept_of kept.new.entries ≡ after_asking (record { page = page; bytes = buf.new }) (kept_of kept.old.entries) }
    ensures order { IsInOrder kept.new }
    ensures same { result ≡ false → kept.new ≡ kept.old }
{
    match kept.peek(&page) {
        Some(piece) => {
            if piece.len() != buf.len() {
                return false;
            }
            buf.copy_from_slice(piece);
        }
        None => return false,
    }
    kept.promote(&page)
}

/// Reads the piece of a page, and keeps it in front. All memory is taken before the disk is asked.
pub(crate) fn read_missed<D: Disk>(
    kept: &mut LruCache<u32, Vec<u8>>,
    alloc: Global,
    disk: &mut D,
    page: u32,
    buf: &mut [u8],
) -> Result<(), PageError>
    requires order { IsInOrder kept.old }
    requires inside { page * 4096 + length buf.old ≤ (D.disk disk.old).reach.pages }
    requires short { length buf.old ≤ 4096 }
    ensures only { D.Disk.only disk.old disk.new }
    ensures same { OnlyReads (D.disk disk.old) (D.disk disk.new) }
    ensures cause { IfErr result (IsCause (Rose (D.disk disk.old).faults (D.disk disk.new).faults) (disk.new ≡ disk.old)) }
    ensures asked { OnOk result
        (kept_of kept.new.entries ≡ after_asking (record { page = page; bytes = buf.new }) (kept_of kept.old.entries)) }
    ensures kept { OnErr result (kept.new ≡ kept.old) }
    ensures order { IsInOrder kept.new }
    ensures piece { D.disk_tells → OnOk result (IsHeld (D.disk disk.old).holds.pages (record { page = page; bytes = buf.new })) }
    ensures count { D.disk_tells
        → OnOk result ((D.disk disk.new).bytes_read ≡ replaced (D.disk disk.old).bytes_read Area.Pages
        ((D.disk disk.old).bytes_read.pages + length buf.new)) }
    ensures unread { D.disk_tells → OnErr result ((D.disk disk.new).bytes_read ≡ (D.disk disk.old).bytes_read) }
{
    let piece = vec![in alloc; 0; buf.len()]?;
    if kept.contains(&page) {
        refill(kept, disk, page, piece, buf)?;
        return Ok(());
    }
    add_empty(kept, alloc, page)?;
    if refill(kept, disk, page, piece, buf).is_err() {
        kept.pop_mru();
        return Err(PageError::Failed);
    }
    cut(kept);
    Ok(())
}

/// Puts a page in front, of which nothing was read yet.
fn add_empty(kept: &mut LruCache<u32, Vec<u8>>, alloc: Global, page: u32) -> Result<(), PageError>
    requires order { IsInOrder kept.old }
    requires other { lookup (nat_eq page) kept.old.entries ≡ None }
    ensures added { OnOk result (HasOneMore page kept.old kept.new) }
    ensures memory { IfErr result (λ e. e ≡ PageError.Memory) }
    ensures kept { OnErr result (kept.new ≡ kept.old) }
{
    match kept.put(page, Vec::new(alloc)) {
        Ok(_) => Ok(()),
        Err(_) => Err(PageError::Memory),
    }
}

/// Lets what was used longest ago go, where one page too many is kept.
fn cut(kept: &mut LruCache<u32, Vec<u8>>)
    requires { length kept.old.entries ≤ 1025 }
    ensures cut { kept.new.entries ≡ take 1024 kept.old.entries }
    ensures room { kept.new.cap ≡ kept.old.cap }
{
    if kept.len() > MOST_KEPT {
        kept.pop_lru();
    }
}

/// Reads the piece of a page that is kept, and puts it in the place of what is kept of it.
fn refill<D: Disk>(
    kept: &mut LruCache<u32, Vec<u8>>,
    disk: &mut D,
    page: u32,
    mut piece: Vec<u8>,
    buf: &mut [u8],
) -> Result<(), Failed>
    requires known { IsSome (lookup (nat_eq page) kept.old.entries) }
    requires long { length piece.items ≡ length buf.old }
    requires inside { page * 4096 + length buf.old ≤ (D.disk disk.old).reach.pages }
    requires short { length buf.old ≤ 4096 }
    ensures only { D.Disk.only disk.old disk.new }
    ensures same { OnlyReads (D.disk disk.old) (D.disk disk.new) }
    ensures cause { HasCause (D.disk disk.old).faults (D.disk disk.new).faults result }
    ensures first { OnOk result (kept_of kept.new.entries ≡ record { page = page; bytes = buf.new }
        ∷ kept_of (remove_entry (nat_eq page) kept.old.entries)) }
    ensures kept { OnErr result (kept.new ≡ kept.old) }
    ensures room { kept.new.cap ≡ kept.old.cap }
    ensures piece { D.disk_tells → OnOk result (IsHeld (D.disk disk.old).holds.pages (record { page = page; bytes = buf.new })) }
    ensures count { D.disk_tells
        → OnOk result ((D.disk disk.new).bytes_read ≡ replaced (D.disk disk.old).bytes_read Area.Pages
        ((D.disk disk.old).bytes_read.pages + length buf.new)) }
    ensures unread { D.disk_tells → OnErr result ((D.disk disk.new).bytes_read ≡ (D.disk disk.old).bytes_read) }
{
    disk.read(Area::Pages, u64::from(page) * PAGE_BYTES, buf)?;
    piece.copy_from_slice(buf);
    // The page is kept, so this takes no memory.
    let _ = kept.put(page, piece);
    Ok(())
}

/// Lets so many pages from one on go.
pub(crate) fn let_go(kept: &mut LruCache<u32, Vec<u8>>, first: u32, count: u32)
    requires order { IsInOrder kept.old }
    requires limit { first + count ≤ 2 ^ 28 }
    ensures left { kept_of kept.new.entries ≡ without_run first count (kept_of kept.old.entries) }
    ensures order { IsInOrder kept.new }
{
    'pages: for page in first..first + count {
        kept.pop(&page);
    }
}
