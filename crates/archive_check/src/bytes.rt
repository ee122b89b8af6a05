//! The bytes of places, and where bytes differ.
ghost use Rattle.std.specs.Prelude.{◌≡◌, slice_get, IfOk, IsErrOf, MatchOption};
ghost use Rattle.machine_model.specs.Causes.{Rose};
ghost use Rattle.machine_model.specs.Calls.{OnlyReads};
ghost use Rattle.pages_area.specs.Live.{IsInside};
ghost use Rattle.pages_area.specs.Ranges.{bytes_in};
ghost use Rattle.archive_check.specs.Verdicts.{DifferAt};

use crate::error::VerifyError;
use base_types::{Extent, PAGE_BYTES};
use machine_model::{Area, Disk};
use std::alloc::Global;

/// A place at which bytes differ, with what stands there; None past the end.
#[derive(Clone, Copy)]
pub(crate) struct Spot {
    pub(crate) place: u64,
    pub(crate) found: Option<u8>,
    pub(crate) wanted: Option<u8>,
}

/// The bytes of an extent in Pages. Costs one read, and memory of its length; with no bytes no device
/// is called.
pub(crate) fn read_extent<D: Disk>(
    alloc: Global,
    disk: &mut D,
    extent: Extent,
) -> Result<Vec<u8>, VerifyError>
    requires inside { IsInside (D.disk disk.old).reach.pages extent }
    ensures only { D.Disk.only disk.old disk.new }
    ensures same { OnlyReads (D.disk disk.old) (D.disk disk.new) }
    ensures failed { IsErrOf result VerifyError.Failed → Rose (D.disk disk.old).faults (D.disk disk.new).faults }
    ensures bytes { D.disk_tells → IfOk result (λ v. v.items ≡ bytes_in extent (D.disk disk.old).holds.pages) }
{
    let mut bytes = vec![in alloc; 0; extent.bytes as usize]?;
    if !bytes.is_empty() {
        disk.read(
            Area::Pages,
            u64::from(extent.first) * PAGE_BYTES,
            &mut bytes,
        )?;
    }
    Ok(bytes)
}

/// The byte at a place; None past the end.
fn byte_at(bytes: &[u8], at: usize) -> Option<u8>
    ensures { result ≡ slice_get bytes.now at }
{
    bytes.get(at).copied()
}

/// The first place at which bytes differ from those that are wanted. Costs the longer one.
pub(crate) fn first_difference(found: &[u8], wanted: &[u8]) -> Option<Spot>
    ensures { MatchOption result (found.now ≡ wanted.now) (λ s. DifferAt found.now wanted.now s.place s.found s.wanted) }
{
    for at in 0..found.len().max(wanted.len()) {
        let one = byte_at(found, at);
        let other = byte_at(wanted, at);
        if one != other {
            return Some(Spot {
                place: at as u64,
                found: one,
                wanted: other,
            });
        }
    }
    None
}
