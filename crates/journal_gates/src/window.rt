//! A window on a journal's bytes, so that records are read in pieces.
ghost use Rattle.std.specs.Prelude.{◌≡◌, ◌+◌, ◌-◌, ◌<◌, ◌≤◌, List, ℕ, min, length, take, drop, OnOk, IsErrOf};
ghost use Rattle.machine_model.specs.Causes.{Rose};
ghost use Rattle.machine_model.specs.Calls.{OnlyReads};
ghost use Rattle.journal_gates.specs.Records.{gate_bytes};
ghost use Rattle.journal_gates.specs.Windows.{IsView, Covers, piece_of};
ghost use Rattle.journal_gates.specs.Scanning.{LiesAt};

use crate::JournalError;
use crate::gate::{GATE_BYTES, Gate, gate_in};
use machine_model::{Area, Disk};
use std::alloc::Global;
use std::marker::Model;

/// The most bytes of a journal that are read at once, but where more are asked for.
const WINDOW_BYTES: u64 = 65_536;

/// Bytes of a journal in hand, which is read up to an end.
#[derive(Debug, Drop)]
pub struct Window {
    end: u64,
    from: u64,
    bytes: Vec<u8>,
}

impl Model for Window {
    ghost use Rattle.journal_gates.specs.Windows.{WindowState};

    ghost Value = { WindowState };

    ghost view = { λ w. record { end = w.end; from = w.from; bytes = w.bytes.items } };
}

impl Window {
    // No bytes yet.
    pub(crate) fn new(alloc: Global, end: u64) -> Window
        ensures end { result.end ≡ end }
        ensures view { (journal : List ℕ) → IsView result journal }
    {
        Window {
            end,
            from: 0,
            bytes: Vec::new(alloc),
        }
    }

    /// Takes so many bytes from a place on into hand. Where they aren't, the next bytes from there on are
    /// read: 64 KiB or what is left up to the end, or all that are asked for.
    pub fn cover<D: Disk>(&mut self, disk: &mut D, at: u64, count: u32) -> Result<(), JournalError>
        requires inside { at + count ≤ self.old.end }
        requires reached { self.old.end ≤ (D.disk disk.old).reach.journal }
        ensures only { D.Disk.only disk.old disk.new }
        ensures same { OnlyReads (D.disk disk.old) (D.disk disk.new) }
        ensures unread { D.disk_tells → (D.disk disk.new).bytes_read.pages ≡ (D.disk disk.old).bytes_read.pages }
        ensures failed { IsErrOf result JournalError.Failed → Rose (D.disk disk.old).faults (D.disk disk.new).faults }
        ensures fair { (at : ℕ) → IsErrOf result (JournalError.NotJournal at) → ⊥ }
        ensures end { self.new.end ≡ self.old.end }
        ensures covers { OnOk result (Covers self.new at count) }
        ensures view { D.disk_tells → IsView self.old (D.disk disk.old).holds.journal
            → OnOk result (IsView self.new (D.disk disk.old).holds.journal) }
    {
        let behind = at + u64::from(count);
        if at < self.from || (self.bytes.len() as u64) < behind - self.from {
            let more = (self.end - at).min(WINDOW_BYTES).max(u64::from(count));
            self.from = at;
            self.bytes.resize(more as usize, 0)?;
            disk.read(Area::Journal, at, &mut self.bytes)?;
        }
        Ok(())
    }

    /// So many bytes in hand from a place on. Costs nothing.
    pub fn piece(&self, at: u64, count: u32) -> &[u8]
        requires { Covers self.now at count }
        ensures piece { result.now ≡ piece_of self.now at count }
        ensures len { length result.now ≡ count }
        ensures lies { (journal : List ℕ) → IsView self.now journal → result.now ≡ take count (drop at journal) }
    {
        let start = (at - self.from) as usize;
        &self.bytes[start..start + count as usize]
    }

    // How many bytes there are of a gate and its length: five, or what is left up to the end.
    pub(crate) fn gate_len(&self, gate: u64) -> u32
        requires inside { gate < self.now.end }
        ensures { result ≡ min (self.now.end - gate) gate_bytes }
    {
        (self.end - gate).min(GATE_BYTES) as u32
    }

    // What lies at a gate that is in hand, with its length or up to the end.
    pub(crate) fn gate_at(&self, gate: u64, count: u32) -> Gate
        requires inside { gate < self.now.end }
        requires count { count ≡ min (self.now.end - gate) gate_bytes }
        requires covers { Covers self.now gate count }
        ensures fits { (bytes : ℕ) → result ≡ Gate.Open bytes → gate + gate_bytes + bytes < self.now.end }
        ensures lies { (journal : List ℕ) → length journal ≡ self.now.end → IsView self.now journal → LiesAt (drop gate journal) result }
    {
        gate_in(self.piece(gate, count), self.end - gate)
    }
}
