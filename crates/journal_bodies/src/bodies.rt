//! Bodies by their numbers.
ghost use Rattle.std.specs.Prelude.{◌≡◌, ◌+◌, ◌-◌, ◌≤◌, ◌++◌, [], ◌∷◌, List, ℕ, length, take, drop, vec_len, vec_capacity, IfOk, OnOk, IsErrOf};
ghost use Rattle.machine_model.specs.Causes.{Rose};
ghost use Rattle.machine_model.specs.Calls.{OnlyReads};
ghost use Rattle.journal_gates.specs.Records.{first_gate, gate_bytes, front};
ghost use Rattle.journal_gates.specs.Heads.{heads_of};
ghost use Rattle.journal_gates.specs.Spelled.{Spells};
ghost use Rattle.journal_gates.specs.Windows.{Covers, IsView};
ghost use Rattle.journal_bodies.specs.Numbered.{AreIn, LiesAt};

use journal_gates::{GATE_BYTES, Head, Journal, JournalError, Window};
use machine_model::Disk;
use std::alloc::{AllocError, Global};
use std::marker::Model;

/// The length of a journal without records.
const NEW_BYTES: u64 = 17;

/// The bodies of a loaded journal, each found by its number, from 1 on. Takes 24 bytes for each, and the
/// memory of a window.
#[derive(Drop)]
pub struct NumberedBodies {
    heads: Vec<Head>,
    window: Window,
    end: u64,
}

impl Model for NumberedBodies {
    ghost use Rattle.std.specs.Prelude.{◌≡◌, ◌-◌, ◌≤◌, All, vec_len, vec_capacity};
    ghost use Rattle.journal_gates.specs.Records.{first_gate, new_bytes};
    ghost use Rattle.journal_gates.specs.Heads.{AreInRow, LiesBefore};
    ghost use Rattle.journal_bodies.specs.Numbered.{NumberedState};

    ghost Value = { NumberedState };

    ghost view = { λ n. record {
      heads = n.heads.items;
      window = n.window;
      room = vec_capacity n.heads - vec_len n.heads;
    } };

    // They lie in a row up to the end of the journal.
    ghost invariant = { λ n. (n.end ≡ n.window.end) × (new_bytes ≤ n.window.end) × AreInRow first_gate n.heads.items n.window.end
        × All (LiesBefore n.window.end) n.heads.items };
}

impl NumberedBodies {
    /// Finds where the bodies of a loaded journal lie. It reads the journal as a load does, and writes nothing.
    ///
    /// `NotJournal`: reads give another journal than the loaded one, which shows at that place; never on a
    /// disk that keeps what it has. `Failed`, `Memory` and the cost are those of `Journal::load`.
    pub fn of<D: Disk>(
        alloc: Global,
        disk: &mut D,
        journal: &Journal,
    ) -> Result<NumberedBodies, JournalError>
        ensures only { D.Disk.only disk.old disk.new }
        ensures same { OnlyReads (D.disk disk.old) (D.disk disk.new) }
        ensures unread { D.disk_tells → (D.disk disk.new).bytes_read.pages ≡ (D.disk disk.old).bytes_read.pages }
        ensures failed { IsErrOf result JournalError.Failed → Rose (D.disk disk.old).faults (D.disk disk.new).faults }
        ensures end { IfOk result (λ n. n.window.end ≡ journal.now.end) }
        ensures found { D.disk_tells → (bodies : List (List ℕ)) → Spells (D.disk disk.old).holds.journal bodies
            → journal.now.end ≡ length (front bodies) + 1
            → IfOk result (AreIn (D.disk disk.old).holds.journal bodies) }
        ensures never { D.disk_tells → (bodies : List (List ℕ)) → Spells (D.disk disk.old).holds.journal bodies
            → journal.now.end ≡ length (front bodies) + 1 → (at : ℕ) → IsErrOf result (JournalError.NotJournal at) → ⊥ }
    {
        let window = journal.window(alloc);
        let end = journal.end();
        match Journal::open_to_read(alloc, disk)? {
            Some((found, heads)) => {
                if found.end() != end {
                    return Err(JournalError::NotJournal {
                        at: found.end() - 1,
                    });
                }
                Ok(NumberedBodies { heads, window, end })
            }
            None => {
                if end != NEW_BYTES {
                    return Err(JournalError::NotJournal { at: NEW_BYTES - 1 });
                }
                Ok(NumberedBodies {
                    heads: Vec::new(alloc),
                    window,
                    end,
                })
            }
        }
    }

    /// How many there are. Costs nothing.
    pub fn count(&self) -> u64
        ensures { result ≡ length self.now.heads }
    {
        self.heads.len() as u64
    }

    /// Takes the body of a number into hand, and answers where it lies. Costs a read where it isn't in hand:
    /// of 64 KiB from its place on, or of the whole body.
    pub fn find<D: Disk>(&mut self, disk: &mut D, number: u64) -> Result<Head, JournalError>
        requires some { 1 ≤ number }
        requires within { number ≤ length self.old.heads }
        requires reached { self.old.window.end ≤ (D.disk disk.old).reach.journal }
        ensures only { D.Disk.only disk.old disk.new }
        ensures same { OnlyReads (D.disk disk.old) (D.disk disk.new) }
        ensures unread { D.disk_tells → (D.disk disk.new).bytes_read.pages ≡ (D.disk disk.old).bytes_read.pages }
        ensures failed { IsErrOf result JournalError.Failed → Rose (D.disk disk.old).faults (D.disk disk.new).faults }
        ensures fair { (at : ℕ) → IsErrOf result (JournalError.NotJournal at) → ⊥ }
        ensures heads { self.new.heads ≡ self.old.heads }
        ensures end { self.new.window.end ≡ self.old.window.end }
        ensures room { self.new.room ≡ self.old.room }
        ensures covers { IfOk result (λ head. Covers self.new.window head.body head.bytes) }
        // Of a journal that spells bodies it is the one of this number.
        ensures body { D.disk_tells → (bodies : List (List ℕ)) → AreIn (D.disk disk.old).holds.journal bodies self.old
            → IfOk result (λ head. LiesAt (D.disk disk.old).holds.journal bodies number head
            × AreIn (D.disk disk.old).holds.journal bodies self.new) }
    {
        let head = self.heads[(number - 1) as usize];
        self.window.cover(disk, head.body, head.bytes)?;
        Ok(head)
    }

    /// The body in hand that lies there. Costs nothing.
    pub fn body(&self, head: &Head) -> &[u8]
        requires { Covers self.now.window head.now.body head.now.bytes }
        ensures lies { (journal : List ℕ) → IsView self.now.window journal → result.now ≡ take head.now.bytes (drop head.now.body journal) }
        ensures len { length result.now ≡ head.now.bytes }
    {
        self.window.piece(head.body, head.bytes)
    }

    /// Makes room for one more.
    pub fn make_room(&mut self) -> Result<(), AllocError>
        ensures heads { self.new.heads ≡ self.old.heads }
        ensures window { self.new.window ≡ self.old.window }
        ensures room { OnOk result (1 ≤ self.new.room) }
    {
        self.heads.reserve(1)
    }

    /// Adds a body of so many bytes that was appended to the journal. Takes no memory. Constant cost.
    pub fn add(&mut self, alloc: Global, journal: &Journal, bytes: u32)
        requires room { 1 ≤ self.old.room }
        requires appended { journal.now.end ≡ self.old.window.end + gate_bytes + bytes }
        ensures end { self.new.window.end ≡ journal.now.end }
        ensures count { length self.new.heads ≡ length self.old.heads + 1 }
        ensures more { (bodies : List (List ℕ)) (body : List ℕ) → length body ≡ bytes → self.old.heads ≡ heads_of first_gate bodies
            → self.old.window.end ≡ length (front bodies) + 1 → self.new.heads ≡ heads_of first_gate (bodies ++ body ∷ []) }
        ensures view { (bytes : List ℕ) → IsView self.new.window bytes }
    {
        let last = journal.end();
        let gate = self.end - 1;
        let head = Head {
            gate,
            body: gate + GATE_BYTES,
            bytes,
        };
        put(&mut self.heads, head);
        self.window = journal.window(alloc);
        self.end = last;
    }
}

/// Puts a head behind the others, for which there is room. Constant cost.
fn put(heads: &mut Vec<Head>, head: Head)
    requires { vec_len heads.old + 1 ≤ vec_capacity heads.old }
    ensures { heads.new.items ≡ heads.old.items ++ head ∷ [] }
{
    heads.push(head).unwrap();
}
