//! How a journal is loaded, and opened to read alone.
ghost use Rattle.std.specs.Prelude.{◌≡◌, ◌+◌, ◌<◌, ◌≤◌, [], List, ℕ, All, length, take, IsTrue, IfOk, IfSome, OnOk, IsErrOf, MatchOption};
ghost use Rattle.machine_model.specs.Causes.{HasCause, Rose};
ghost use Rattle.machine_model.specs.Calls.{OnlyReads, Syncs};
ghost use Rattle.machine_model.specs.Images.{Only};
ghost use Rattle.journal_gates.specs.Header.{header};
ghost use Rattle.journal_gates.specs.Records.{first_gate, new_bytes};
ghost use Rattle.journal_gates.specs.Heads.{AreInRow, LiesBefore};
ghost use Rattle.journal_gates.specs.Spelled.{Spells, EachSpells};
ghost use Rattle.journal_gates.specs.Refused.{IsNotJournal, IsCutShort};
ghost use Rattle.journal_gates.specs.Found.{IsFound, IsLaidOut};
ghost use Rattle.journal_gates.specs.InStep.{IsInStep};
ghost use Rattle.journal_gates.specs.Crash.{KeepsBodies, KeepsPages};
ghost use Rattle.journal_gates.specs.Windows.{IsView};

use crate::durable::write_through;
use crate::gate::{GATE_BYTES, Gate};
use crate::header::{FIRST_GATE, HEADER_BYTES, NEW_BYTES, NEW_JOURNAL, first_wrong};
use crate::window::Window;
use crate::{Head, Journal, JournalError};
use machine_model::{Area, Disk, Failed};
use std::alloc::Global;

impl Journal {
    /// Loads the journal of a disk, and answers where its records lie, in order.
    ///
    /// It syncs first. A journal of at most 17 bytes is new, whatever they are: the header and a closed
    /// gate are written and synced.
    /// `NotJournal`: the bytes are no journal, which shows at that place. `Failed`: the disk failed.
    /// `Memory`: there was none for a piece of the journal, or for the heads.
    /// Costs time in the length of the journal. It is read once, in pieces of 64 KiB (or what is left) that
    /// begin at least 65,532 bytes apart; a body past the end of a piece is passed over. Takes 64 KiB, and 24
    /// bytes a record.
    pub fn load<D: Disk>(alloc: Global, disk: &mut D) -> Result<(Journal, Vec<Head>), JournalError>
        ensures only { D.Disk.only disk.old disk.new }
        ensures failed { IsErrOf result JournalError.Failed → Rose (D.disk disk.old).faults (D.disk disk.new).faults }
        ensures live { IfOk result (λ p. IsTrue p.0.live) }
        ensures least { IfOk result (λ p. new_bytes ≤ p.0.end) }
        ensures within { IfOk result (λ p. p.0.end ≤ (D.disk disk.new).reach.journal) }
        ensures row { IfOk result (λ p. AreInRow first_gate p.1.items p.0.end) }
        ensures heads { IfOk result (λ p. All (LiesBefore p.0.end) p.1.items) }
        // What it answers of the bytes that reads gave at the start.
        ensures not_journal { D.disk_tells → (at : ℕ) → IsErrOf result (JournalError.NotJournal at) →
            IsNotJournal (D.disk disk.old).holds.journal at }
        ensures found { D.disk_tells → IfOk result (λ p. IsFound (D.disk disk.old).holds.journal p.0.end p.1.items) }
        // If they spell bodies, these are what was found, and the disk is in step with them.
        ensures in_step { D.disk_tells → (bodies : List (List ℕ)) → Spells (D.disk disk.old).holds.journal bodies →
            IfOk result (λ p. IsLaidOut bodies p.0.end p.1.items × IsInStep (D.disk disk.new) p.0.end bodies
            × Spells (D.disk disk.new).holds.journal bodies) }
        // Where each image spells one list of bodies, each image left since spells it, and it is what was found.
        ensures crash { D.disk_tells → (bodies : List (List ℕ)) → EachSpells (D.disk disk.old) bodies →
            KeepsBodies bodies (D.disk disk.old) (D.disk disk.new) }
        ensures finds { D.disk_tells → (bodies : List (List ℕ)) → EachSpells (D.disk disk.old) bodies →
            IfOk result (λ p. IsLaidOut bodies p.0.end p.1.items × IsInStep (D.disk disk.new) p.0.end bodies) }
        // A journal that isn't new is synced and read, and nothing else.
        ensures longer { D.disk_tells → new_bytes < length (D.disk disk.old).holds.journal → Syncs (D.disk disk.old) (D.disk disk.new) }
        // A journal that isn't new is durable then: no image is allowed but what reads give.
        ensures one { D.disk_tells → new_bytes < length (D.disk disk.old).holds.journal →
            OnOk result (Only (D.disk disk.new).holds (D.disk disk.new)) }
        ensures pages { D.disk_tells → KeepsPages (D.disk disk.old) (D.disk disk.new) }
        ensures pages_hold { D.disk_tells → OnOk result ((D.disk disk.new).holds.pages ≡ (D.disk disk.old).holds.pages) }
        ensures pages_reach { (D.disk disk.new).reach.pages ≡ (D.disk disk.old).reach.pages }
        ensures unread { D.disk_tells → (D.disk disk.new).bytes_read.pages ≡ (D.disk disk.old).bytes_read.pages }
    {
        let total = settle(disk)?;
        if total > NEW_BYTES {
            let (journal, heads) = open(alloc, disk, total)?;
            Ok((journal.made_live(), heads))
        } else {
            begin(alloc, disk)
        }
    }

    /// Opens the journal of a disk to read it alone, and answers where its records lie, in order. None
    /// where the journal has at most 17 bytes: then it is new, whatever they are, and has no records.
    ///
    /// It reads as `load` does, and neither writes nor syncs: so a stop may leave other bytes than those
    /// that it read. Nothing can be appended to the journal that it gives.
    /// `NotJournal`, `Failed`, `Memory` and the cost are those of `load`.
    pub fn open_to_read<D: Disk>(
        alloc: Global,
        disk: &mut D,
    ) -> Result<Option<(Journal, Vec<Head>)>, JournalError>
        ensures only { D.Disk.only disk.old disk.new }
        // No image changes, and no length.
        ensures same { OnlyReads (D.disk disk.old) (D.disk disk.new) }
        ensures failed { IsErrOf result JournalError.Failed → Rose (D.disk disk.old).faults (D.disk disk.new).faults }
        ensures new { IfOk result
            (λ o. MatchOption o ((D.disk disk.old).reach.journal ≤ new_bytes) (λ p. new_bytes < (D.disk disk.old).reach.journal)) }
        ensures not_live { IfOk result (λ o. IfSome o (λ p. ¬ (IsTrue p.0.live))) }
        ensures least { IfOk result (λ o. IfSome o (λ p. new_bytes ≤ p.0.end)) }
        ensures within { IfOk result (λ o. IfSome o (λ p. p.0.end ≤ (D.disk disk.new).reach.journal)) }
        ensures row { IfOk result (λ o. IfSome o (λ p. AreInRow first_gate p.1.items p.0.end)) }
        ensures heads { IfOk result (λ o. IfSome o (λ p. All (LiesBefore p.0.end) p.1.items)) }
        // What it answers of the bytes that reads give.
        ensures not_journal { D.disk_tells → (at : ℕ) → IsErrOf result (JournalError.NotJournal at) →
            IsNotJournal (D.disk disk.old).holds.journal at }
        ensures found { D.disk_tells → IfOk result (λ o. MatchOption o (length (D.disk disk.old).holds.journal ≤ new_bytes)
            (λ p. IsFound (D.disk disk.old).holds.journal p.0.end p.1.items)) }
        ensures unread { D.disk_tells → (D.disk disk.new).bytes_read.pages ≡ (D.disk disk.old).bytes_read.pages }
    {
        let total = disk.length(Area::Journal)?;
        if total <= NEW_BYTES {
            return Ok(None);
        }
        let (journal, heads) = open(alloc, disk, total)?;
        Ok(Some((journal, heads)))
    }
}

// Makes the disk durable, and answers the length of the journal.
fn settle<D: Disk>(disk: &mut D) -> Result<u64, Failed>
    ensures only { D.Disk.only disk.old disk.new }
    ensures cause { HasCause (D.disk disk.old).faults (D.disk disk.new).faults result }
    ensures reach { (D.disk disk.new).reach ≡ (D.disk disk.old).reach }
    ensures total { IfOk result (λ total. total ≡ (D.disk disk.new).reach.journal) }
    ensures images { D.disk_tells → Syncs (D.disk disk.old) (D.disk disk.new) }
    ensures one { D.disk_tells → OnOk result (Only (D.disk disk.new).holds (D.disk disk.new)) }
    ensures read { D.disk_tells → (D.disk disk.new).bytes_read ≡ (D.disk disk.old).bytes_read }
{
    disk.sync()?;
    disk.length(Area::Journal)
}

// Reads a journal with more bytes than a new one, and changes nothing.
fn open<D: Disk>(
    alloc: Global,
    disk: &mut D,
    total: u64,
) -> Result<(Journal, Vec<Head>), JournalError>
    requires long { total ≡ (D.disk disk.old).reach.journal }
    requires longer { new_bytes < total }
    ensures only { D.Disk.only disk.old disk.new }
    ensures same { OnlyReads (D.disk disk.old) (D.disk disk.new) }
    ensures failed { IsErrOf result JournalError.Failed → Rose (D.disk disk.old).faults (D.disk disk.new).faults }
    ensures not_live { IfOk result (λ p. ¬ (IsTrue p.0.live)) }
    ensures least { IfOk result (λ p. new_bytes ≤ p.0.end) }
    ensures within { IfOk result (λ p. p.0.end ≤ total) }
    ensures row { IfOk result (λ p. AreInRow first_gate p.1.items p.0.end) }
    ensures heads { IfOk result (λ p. All (LiesBefore p.0.end) p.1.items) }
    ensures not_journal { D.disk_tells → (at : ℕ) → IsErrOf result (JournalError.NotJournal at) →
        IsNotJournal (D.disk disk.old).holds.journal at }
    ensures found { D.disk_tells → IfOk result (λ p. IsFound (D.disk disk.old).holds.journal p.0.end p.1.items) }
    ensures in_step { D.disk_tells → Only (D.disk disk.old).holds (D.disk disk.old) →
        (bodies : List (List ℕ)) → Spells (D.disk disk.old).holds.journal bodies →
        IfOk result (λ p. IsLaidOut bodies p.0.end p.1.items × IsInStep (D.disk disk.new) p.0.end bodies
        × Spells (D.disk disk.new).holds.journal bodies) }
    ensures unread { D.disk_tells → (D.disk disk.new).bytes_read.pages ≡ (D.disk disk.old).bytes_read.pages }
{
    let mut window = Window::new(alloc, total);
    window.cover(disk, 0, HEADER_BYTES)?;
    if let Some(at) = first_wrong(window.piece(0, HEADER_BYTES)) {
        return Err(JournalError::NotJournal { at });
    }
    scan(alloc, disk, window)
}

// Goes over the records, up to the first closed gate.
fn scan<D: Disk>(
    alloc: Global,
    disk: &mut D,
    window: Window,
) -> Result<(Journal, Vec<Head>), JournalError>
    requires long { window.end ≡ (D.disk disk.old).reach.journal }
    requires longer { new_bytes < window.end }
    ensures only { D.Disk.only disk.old disk.new }
    ensures same { OnlyReads (D.disk disk.old) (D.disk disk.new) }
    ensures failed { IsErrOf result JournalError.Failed → Rose (D.disk disk.old).faults (D.disk disk.new).faults }
    ensures not_live { IfOk result (λ p. ¬ (IsTrue p.0.live)) }
    ensures least { IfOk result (λ p. new_bytes ≤ p.0.end) }
    ensures within { IfOk result (λ p. p.0.end ≤ window.end) }
    ensures row { IfOk result (λ p. AreInRow first_gate p.1.items p.0.end) }
    ensures not_journal { D.disk_tells → IsView window (D.disk disk.old).holds.journal →
        take first_gate (D.disk disk.old).holds.journal ≡ header →
        (at : ℕ) → IsErrOf result (JournalError.NotJournal at) → IsCutShort (D.disk disk.old).holds.journal at }
    ensures found { D.disk_tells → IsView window (D.disk disk.old).holds.journal →
        take first_gate (D.disk disk.old).holds.journal ≡ header →
        IfOk result (λ p. IsFound (D.disk disk.old).holds.journal p.0.end p.1.items) }
    ensures unread { D.disk_tells → (D.disk disk.new).bytes_read.pages ≡ (D.disk disk.old).bytes_read.pages }
{
    let mut window = window;
    let mut heads = Vec::new(alloc);
    let mut gate = FIRST_GATE;
    loop {
        let count = window.gate_len(gate);
        window.cover(disk, gate, count)?;
        match window.gate_at(gate, count) {
            Gate::Closed => return Ok((Journal::at(gate + 1), heads)),
            Gate::CutShort => return Err(JournalError::NotJournal { at: gate }),
            Gate::Open(bytes) => {
                let body = gate + GATE_BYTES;
                heads.push(Head { gate, body, bytes })?;
                gate = body + u64::from(bytes);
            }
        }
    }
}

// Writes a new journal over one that has no more bytes.
fn begin<D: Disk>(alloc: Global, disk: &mut D) -> Result<(Journal, Vec<Head>), JournalError>
    requires short { (D.disk disk.old).reach.journal ≤ new_bytes }
    requires one { D.disk_tells → Only (D.disk disk.old).holds (D.disk disk.old) }
    ensures only { D.Disk.only disk.old disk.new }
    ensures failed { IsErrOf result JournalError.Failed → Rose (D.disk disk.old).faults (D.disk disk.new).faults }
    ensures fair { (at : ℕ) → IsErrOf result (JournalError.NotJournal at) → ⊥ }
    ensures live { IfOk result (λ p. IsTrue p.0.live) }
    ensures end { IfOk result (λ p. p.0.end ≡ new_bytes) }
    ensures none { IfOk result (λ p. p.1.items ≡ []) }
    ensures within { OnOk result (new_bytes ≤ (D.disk disk.new).reach.journal) }
    ensures in_step { D.disk_tells → IfOk result (λ p. IsLaidOut [] p.0.end p.1.items × IsInStep (D.disk disk.new) p.0.end []) }
    ensures crash { D.disk_tells → KeepsBodies [] (D.disk disk.old) (D.disk disk.new) }
    ensures pages { D.disk_tells → KeepsPages (D.disk disk.old) (D.disk disk.new) }
    ensures pages_hold { D.disk_tells → OnOk result ((D.disk disk.new).holds.pages ≡ (D.disk disk.old).holds.pages) }
    ensures pages_reach { (D.disk disk.new).reach.pages ≡ (D.disk disk.old).reach.pages }
    ensures unread { D.disk_tells → (D.disk disk.new).bytes_read.pages ≡ (D.disk disk.old).bytes_read.pages }
{
    write_through(disk, 0, &NEW_JOURNAL)?;
    Ok((Journal::at(NEW_BYTES).made_live(), Vec::new(alloc)))
}
