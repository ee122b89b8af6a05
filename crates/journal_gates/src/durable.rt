//! Writes to the journal that are synced at once.
ghost use Rattle.std.specs.Prelude.{◌≡◌, ◌+◌, ◌≤◌, ◌^◌, ◌-◌, max, length, OnOk};
ghost use Rattle.machine_model.specs.Causes.{HasCause};
ghost use Rattle.machine_model.specs.Calls.{WritesThrough, Stays};

use machine_model::{Area, Disk, Failed};

// A write to the journal that is synced.
pub(crate) fn write_through<D: Disk>(disk: &mut D, at: u64, bytes: &[u8]) -> Result<(), Failed>
    requires { at + length bytes.now ≤ 2 ^ 40 }
    ensures only { D.Disk.only disk.old disk.new }
    ensures cause { HasCause (D.disk disk.old).faults (D.disk disk.new).faults result }
    ensures reach { OnOk result ((D.disk disk.new).reach.journal ≡ max (D.disk disk.old).reach.journal (at + length bytes.now)) }
    ensures pages { (D.disk disk.new).reach.pages ≡ (D.disk disk.old).reach.pages }
    ensures images { D.disk_tells → WritesThrough Area.Journal at (length bytes.now) (D.disk disk.old) (D.disk disk.new) }
    ensures stays { D.disk_tells → OnOk result (Stays Area.Journal at bytes.now (D.disk disk.old) (D.disk disk.new)) }
    ensures read { D.disk_tells → (D.disk disk.new).bytes_read ≡ (D.disk disk.old).bytes_read }
{
    disk.write(Area::Journal, at, bytes)?;
    disk.sync()
}
