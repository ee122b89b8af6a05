//! Where bytes are kept, through stops.
ghost use Rattle.std.specs.Prelude.{◌≡◌, ◌+◌, ◌-◌, ◌^◌, ◌≤◌, ◌∷◌, max, length, take, drop, IfOk, OnOk, OnErr, IsErr};
ghost use Rattle.machine_model.specs.Areas.{part, replaced};
ghost use Rattle.machine_model.specs.States.{DiskState};
ghost use Rattle.machine_model.specs.Causes.{HasCause};
ghost use Rattle.machine_model.specs.Images.{MayLeave, AreBytes};
ghost use Rattle.machine_model.specs.Moments.{GoesOn};
ghost use Rattle.machine_model.specs.Calls.{Writes, Syncs, IsSynced, IsPartlyReached, written};

use crate::{Area, Failed};

/// A disk of two areas, each of at most 2^40 bytes.
pub trait Disk {
    ghost use Rattle.machine_model.specs.declared.area.Area.{Area};

    /// Whether the disk tells what it holds and may leave: then clauses on content hold.
    ghost disk_tells: { Type 0 };

    /// The lengths, the bytes that reads give, the counts, and the moments with their images.
    ghost disk: { Self → DiskState };

    /// The disk came from the first state to the second by calls of this trait alone.
    ghost only: { Self → Self → Type 0 };

    /// A sync of the disk has failed. From then on each sync fails: what the disk could not write may
    /// be lost.
    ghost has_lost: { Self → Type 0 };

    /// The length of an area, in bytes.
    fn length(&mut self, area: Area) -> Result<u64, Failed>
        ensures only { only self.old self.new }
        ensures cause { HasCause (disk self.old).faults (disk self.new).faults result }
        ensures length { IfOk result (λ n. n ≡ part (disk self.old).reach area) }
        ensures same { disk self.new ≡ record (disk self.old) { faults = (disk self.new).faults } };

    /// Reads `buf.len()` bytes of an area from the place `at` on.
    fn read(&mut self, area: Area, at: u64, buf: &mut [u8]) -> Result<(), Failed>
        requires { at + length buf.old ≤ part (disk self.old).reach area }
        ensures only { only self.old self.new }
        ensures cause { HasCause (disk self.old).faults (disk self.new).faults result }
        ensures bytes { disk_tells → OnOk result (buf.new ≡ take (length buf.old) (drop at (part (disk self.old).holds area))) }
        ensures count { disk_tells
            → OnOk result ((disk self.new).bytes_read ≡ replaced (disk self.old).bytes_read area
            (part (disk self.old).bytes_read area + length buf.old)) }
        ensures failed { disk_tells → OnErr result ((disk self.new).bytes_read ≡ (disk self.old).bytes_read) }
        ensures same { disk self.new ≡ record (disk self.old) {
          faults = (disk self.new).faults;
          bytes_read = (disk self.new).bytes_read;
        } };

    /// Writes bytes into an area from the place `at` on; the area grows where they pass its end,
    /// and a gap reads as zeros. Until the next good sync a stop may leave any part of them.
    fn write(&mut self, area: Area, at: u64, bytes: &[u8]) -> Result<(), Failed>
        requires { at + length bytes.now ≤ 2 ^ 40 }
        ensures only { only self.old self.new }
        ensures cause { HasCause (disk self.old).faults (disk self.new).faults result }
        ensures reach { OnOk result
            ((disk self.new).reach ≡ replaced (disk self.old).reach area (max (part (disk self.old).reach area) (at + length bytes.now))) }
        ensures between { OnErr result (IsPartlyReached area (at + length bytes.now) (disk self.old).reach (disk self.new).reach) }
        ensures images { disk_tells → Writes area at (length bytes.now) (disk self.old) (disk self.new) }
        ensures tried { disk_tells
            → OnOk result ((disk self.new).now.pending ≡ replaced (disk self.old).now.pending area
            (record { at = at; count = length bytes.now } ∷ part (disk self.old).now.pending area)) }
        ensures holds { disk_tells
            → OnOk result ((disk self.new).holds ≡ replaced (disk self.old).holds area
            (written at bytes.now (part (disk self.old).holds area))) }
        ensures read { disk_tells → (disk self.new).bytes_read ≡ (disk self.old).bytes_read };

    /// Makes both areas durable: after `Ok` the only image is what reads give.
    ///
    /// Once a sync has failed, every later one fails, whatever is called between. The system may drop
    /// what it could not write, and then nothing could be made of a good answer.
    fn sync(&mut self) -> Result<(), Failed>
        ensures only { only self.old self.new }
        ensures cause { HasCause (disk self.old).faults (disk self.new).faults result }
        ensures reach { (disk self.new).reach ≡ (disk self.old).reach }
        ensures images { disk_tells → Syncs (disk self.old) (disk self.new) }
        ensures durable { disk_tells → OnOk result (IsSynced (disk self.old) (disk self.new)) }
        ensures failed { disk_tells → OnErr result ((disk self.new).now ≡ (disk self.old).now) }
        ensures read { disk_tells → (disk self.new).bytes_read ≡ (disk self.old).bytes_read }
        ensures lost { OnErr result (has_lost self.new) }
        ensures stays_lost { has_lost self.old → IsErr result };

    ghost only_same: { (x : Self) → only x x };

    ghost only_joins: { (x y z : Self) → only x y → only y z → only x z };

    ghost only_faults: { (x y : Self) → only x y → (disk x).faults ≤ (disk y).faults };

    ghost only_reach: { (x y : Self) (a : Area) → only x y → part (disk x).reach a ≤ part (disk y).reach a };

    ghost only_goes_on: { (x y : Self) → disk_tells → only x y → GoesOn (disk x) (disk y) };

    ghost only_beside: { (x y : Self) → disk_tells → only x y → (disk y).now.beside ≡ (disk x).now.beside };

    ghost only_read: { (x y : Self) (a : Area) → disk_tells → only x y → part (disk x).bytes_read a ≤ part (disk y).bytes_read a };

    ghost only_lost: { (x y : Self) → only x y → has_lost x → has_lost y };
    // the count is that of a real machine's counter
    ghost faults_limit: { (x : Self) → (disk x).faults ≤ 2 ^ 64 - 1 };

    ghost reach_limit: { (x : Self) (a : Area) → part (disk x).reach a ≤ 2 ^ 40 };

    ghost reach_holds: { (x : Self) (a : Area) → disk_tells → length (part (disk x).holds a) ≡ part (disk x).reach a };
    // what reads give is one of the allowed images, and so it is bytes
    ghost holds_allowed: { (x : Self) → disk_tells → MayLeave (disk x).now (disk x).holds };

    ghost stable_bytes: { (x : Self) (a : Area) → disk_tells → AreBytes (part (disk x).now.stable a) };
}
