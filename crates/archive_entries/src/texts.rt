//! Texts read at their places in the journal.
ghost use Rattle.std.specs.Prelude.{◌≡◌, ◌≤◌, ◌+◌, IfOk, IsErrOf};
ghost use Rattle.machine_model.specs.Causes.{Rose};
ghost use Rattle.machine_model.specs.Calls.{OnlyReads};
ghost use Rattle.archive_entries.specs.Texts.{text_in};

use crate::error::ReadError;
use base_types::TextPlace;
use journal_gates::Journal;
use machine_model::Disk;
use std::alloc::Global;

/// The bytes at a place of the journal, which lies in front of its end. Costs one read, and memory of the
/// place's length.
pub fn read_text<D: Disk>(
    alloc: Global,
    disk: &mut D,
    journal: &Journal,
    place: TextPlace,
) -> Result<Vec<u8>, ReadError>
    requires inside { place.at + place.bytes ≤ journal.now.end }
    requires reached { journal.now.end ≤ (D.disk disk.old).reach.journal }
    ensures only { D.Disk.only disk.old disk.new }
    ensures same { OnlyReads (D.disk disk.old) (D.disk disk.new) }
    ensures unread { D.disk_tells → (D.disk disk.new).bytes_read.pages ≡ (D.disk disk.old).bytes_read.pages }
    ensures failed { IsErrOf result ReadError.Failed → Rose (D.disk disk.old).faults (D.disk disk.new).faults }
    ensures text { D.disk_tells → IfOk result (λ text. text.items ≡ text_in (D.disk disk.old).holds.journal place) }
{
    let mut text = vec![in alloc; 0; place.bytes as usize]?;
    journal.read(disk, place.at, &mut text)?;
    Ok(text)
}
