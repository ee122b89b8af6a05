//! The bytes of extents.
ghost use Rattle.std.specs.Prelude.{◌≡◌, ◌∷◌, [], ◌+◌, ◌*◌, ◌≤◌, max, length, OnOk};
ghost use Rattle.machine_model.specs.Causes.{HasCause};
ghost use Rattle.pages_area.specs.Ranges.{range_of};
ghost use Rattle.pages_area.specs.Wrote.{Wrote, reach_with};
ghost use Rattle.pages_area.specs.Crash.{ChangesOnly};

use crate::pages::Pages;
use base_types::{Extent, PAGE_BYTES};
use machine_model::{Area, Disk, Failed};

/// Where the bytes of an extent begin.
fn start(extent: Extent) -> u64
    ensures { result ≡ extent.first * 4096 }
{
    u64::from(extent.first) * PAGE_BYTES
}

/// Where they end.
pub(crate) fn end(extent: Extent) -> u64
    ensures { result ≡ extent.first * 4096 + extent.bytes }
{
    start(extent) + extent.bytes
}

impl Pages {
    /// Writes the bytes of an extent, which a stop may leave in part until the next good sync. With
    /// no bytes no device is called. Takes no memory.
    pub fn write_extent<D: Disk>(
        &self,
        disk: &mut D,
        extent: Extent,
        bytes: &[u8],
    ) -> Result<(), Failed>
        requires { length bytes.now ≡ extent.bytes }
        ensures only { D.Disk.only disk.old disk.new }
        // A failure comes only where the disk's count of faults rose.
        ensures cause { HasCause (D.disk disk.old).faults (D.disk disk.new).faults result }
        // The journal has its length, and Pages after Ok reaches to the end of the extent, if not further.
        ensures journal { (D.disk disk.new).reach.journal ≡ (D.disk disk.old).reach.journal }
        ensures reach { OnOk result ((D.disk disk.new).reach.pages ≡ reach_with extent (D.disk disk.old).reach.pages) }
        ensures no_longer { (D.disk disk.new).reach.pages ≤ max (D.disk disk.old).reach.pages (extent.first * 4096 + extent.bytes) }
        // Whatever is answered, a stop leaves an image from before but for this range.
        ensures images { D.disk_tells → ChangesOnly (range_of extent ∷ []) (D.disk disk.old) (D.disk disk.new) }
        // After Ok the bytes stand there, and all else reads as it did.
        ensures wrote { D.disk_tells
            → OnOk result (Wrote (record { extent = extent; bytes = bytes.now } ∷ []) (D.disk disk.old).holds (D.disk disk.new).holds) }
        ensures read { D.disk_tells → (D.disk disk.new).bytes_read ≡ (D.disk disk.old).bytes_read }
    {
        if bytes.is_empty() {
            return Ok(());
        }
        disk.write(Area::Pages, start(extent), bytes)?;
        Ok(())
    }
}
