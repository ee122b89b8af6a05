//! A loaded journal, and the append that is safe at any stop.
ghost use Rattle.std.specs.Prelude.{◌≡◌, ◌↔◌, ◌+◌, ◌-◌, ◌<◌, ◌≤◌, ◌^◌, ◌++◌, [], ◌∷◌, List, ℕ, false, IsTrue, length, take, drop, IfOk, OnOk, OnErr, IsErrOf};
ghost use Rattle.machine_model.specs.Causes.{HasCause, Rose};
ghost use Rattle.machine_model.specs.Calls.{OnlyReads};
ghost use Rattle.journal_gates.specs.Records.{new_bytes, gate_bytes};
ghost use Rattle.journal_gates.specs.Spelled.{EachSpells};
ghost use Rattle.journal_gates.specs.InStep.{IsInStep};
ghost use Rattle.journal_gates.specs.Crash.{Appends, KeepsPages};

use crate::durable::write_through;
use crate::{AppendError, Frame};
use machine_model::{Area, Disk, Failed};
use std::marker::Model;

/// The most bytes that a journal may have.
const MOST_BYTES: u64 = 1 << 40;

/// A loaded journal: the place behind the closed gate that ends its records, and whether it may be appended to.
#[derive(Debug, Drop)]
pub struct Journal {
    end: u64,
    live: bool,
}

impl Model for Journal {
    ghost use Rattle.std.specs.Prelude.{◌≤◌, ◌^◌};
    ghost use Rattle.journal_gates.specs.Records.{new_bytes};
    ghost use Rattle.journal_gates.specs.State.{JournalState};

    ghost Value = { JournalState };

    ghost view = { λ j. record { end = j.end; live = j.live } };

    ghost invariant = { λ j. (new_bytes ≤ j.end) × (j.end ≤ 2 ^ 40) };
}

impl Journal {
    // A journal that may be read and not appended to.
    pub(crate) fn at(end: u64) -> Journal
        requires low { new_bytes ≤ end }
        requires high { end ≤ 2 ^ 40 }
        ensures end { result.end ≡ end }
        ensures live { ¬ (IsTrue result.live) }
    {
        Journal { end, live: false }
    }

    // The journal, which may be appended to from now on.
    pub(crate) fn made_live(self) -> Journal
        ensures end { result.end ≡ self.end }
        ensures live { IsTrue result.live }
    {
        Journal {
            end: self.end,
            live: true,
        }
    }

    /// Whether records may be appended: from the load until an `append` answers `Failed`, and never
    /// where the journal was opened to read. Costs nothing.
    pub fn is_live(&self) -> bool
        ensures { result ≡ self.now.live }
    {
        self.live
    }

    /// The number of bytes up to and with the closed gate that ends the records: at least 17, at most 2^40. Costs nothing.
    pub fn end(&self) -> u64
        ensures end { result ≡ self.now.end }
        ensures least { new_bytes ≤ result }
        ensures most { result ≤ 2 ^ 40 }
    {
        self.end
    }

    /// Appends a record, and answers the place of its body. At `Ok` it is durable. Takes no memory.
    ///
    /// `Full`: the journal would have more than 2^40 bytes, and nothing was changed. `Failed`: the disk failed,
    /// and the journal is spent; whether it has the record shows when it is loaded again.
    /// Costs two writes and two syncs: the body with 5 bytes more, and one byte.
    pub fn append<D: Disk>(&mut self, disk: &mut D, frame: &Frame) -> Result<u64, AppendError>
        requires { IsTrue self.old.live }
        ensures only { D.Disk.only disk.old disk.new }
        ensures failed { IsErrOf result AppendError.Failed → Rose (D.disk disk.old).faults (D.disk disk.new).faults }
        ensures full { IsErrOf result AppendError.Full ↔ (2 ^ 40 < self.old.end + gate_bytes + length frame.now) }
        ensures same { IsErrOf result AppendError.Full → (self.new ≡ self.old) × (disk.new ≡ disk.old) }
        ensures place { IfOk result (λ at. at ≡ self.old.end + 4) }
        ensures end { OnOk result (self.new.end ≡ self.old.end + gate_bytes + length frame.now) }
        ensures within { OnOk result (self.new.end ≤ (D.disk disk.new).reach.journal) }
        ensures live { IsTrue self.new.live ↔ ¬ (IsErrOf result AppendError.Failed) }
        ensures spent { IsErrOf result AppendError.Failed → self.new ≡ record self.old { live = false } }
        // In step, each image left since spells the old bodies, or these and the new one.
        ensures crash { D.disk_tells → (bodies : List (List ℕ)) → IsInStep (D.disk disk.old) self.old.end bodies →
            Appends bodies frame.now (D.disk disk.old) (D.disk disk.new) }
        // And it stays in step: with the new body, in each image.
        ensures in_step { D.disk_tells → (bodies : List (List ℕ)) → IsInStep (D.disk disk.old) self.old.end bodies →
            OnOk result (IsInStep (D.disk disk.new) self.new.end (bodies ++ frame.now ∷ [])) }
        ensures durable { D.disk_tells → (bodies : List (List ℕ)) → IsInStep (D.disk disk.old) self.old.end bodies →
            OnOk result (EachSpells (D.disk disk.new) (bodies ++ frame.now ∷ [])) }
        // In step or not, no call of it touches the pages.
        ensures pages { D.disk_tells → KeepsPages (D.disk disk.old) (D.disk disk.new) }
        ensures pages_hold { D.disk_tells → OnOk result ((D.disk disk.new).holds.pages ≡ (D.disk disk.old).holds.pages) }
        ensures pages_reach { (D.disk disk.new).reach.pages ≡ (D.disk disk.old).reach.pages }
        ensures read { D.disk_tells → (D.disk disk.new).bytes_read ≡ (D.disk disk.old).bytes_read }
    {
        let (gate, behind) = frame.parts();
        let grown = behind.len() as u64;
        if MOST_BYTES - self.end < grown {
            return Err(AppendError::Full);
        }
        self.live = false;
        write_through(disk, self.end, behind)?;
        write_through(disk, self.end - 1, gate)?;
        let body = self.end + 4;
        self.end += grown;
        self.live = true;
        Ok(body)
    }

    /// Reads bytes of the journal, as a body by its head. Takes no memory; costs one read.
    pub fn read<D: Disk>(&self, disk: &mut D, at: u64, buf: &mut [u8]) -> Result<(), Failed>
        requires before_end { at + length buf.old ≤ self.now.end }
        requires reached { self.now.end ≤ (D.disk disk.old).reach.journal }
        ensures only { D.Disk.only disk.old disk.new }
        ensures cause { HasCause (D.disk disk.old).faults (D.disk disk.new).faults result }
        ensures bytes { D.disk_tells → OnOk result (buf.new ≡ take (length buf.old) (drop at (D.disk disk.old).holds.journal)) }
        ensures count { D.disk_tells → OnOk result ((D.disk disk.new).bytes_read ≡
            record (D.disk disk.old).bytes_read { journal = (D.disk disk.old).bytes_read.journal + length buf.old }) }
        ensures failed { D.disk_tells → OnErr result ((D.disk disk.new).bytes_read ≡ (D.disk disk.old).bytes_read) }
        ensures unread { D.disk_tells → (D.disk disk.new).bytes_read.pages ≡ (D.disk disk.old).bytes_read.pages }
        ensures same { OnlyReads (D.disk disk.old) (D.disk disk.new) }
    {
        disk.read(Area::Journal, at, buf)
    }
}
