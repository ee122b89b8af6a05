//! Loading an archive.
ghost use Rattle.std.specs.Prelude.{None, ◌≡◌, ◌<◌, ◌≤◌, [], ℕ, List, length, All, IsTrue, IfOk, OnOk, IsErrOf};
ghost use Rattle.journal_gates.specs.Records.{first_gate, new_bytes};
ghost use Rattle.machine_model.specs.Areas.{Bytes};
ghost use Rattle.machine_model.specs.Causes.{Rose};
ghost use Rattle.machine_model.specs.Calls.{OnlyReads, Syncs};
ghost use Rattle.journal_gates.specs.Heads.{AreInRow, LiesBefore, heads_of};
ghost use Rattle.journal_gates.specs.Spelled.{EachSpells, Spells};
ghost use Rattle.journal_gates.specs.Crash.{KeepsBodies, KeepsPages};
ghost use Rattle.model_archive.specs.Histories.{History};
ghost use Rattle.model_archive.specs.Stands.{Stands, EachStands, IsNotArchive, bodies_of};
ghost use Rattle.model_archive.specs.Worlds.{world_of};
ghost use Rattle.archive_hand.specs.States.{StandsFor, AreInStep, AreInStepBy, Reaches};
ghost use Rattle.archive_hand.specs.Changing.{KeepsHistory};
ghost use Rattle.archive_hand.specs.Stored.{Store};

use crate::archive::Archive;
use archive_entries::{LoadError, Replayed, replay};
use archive_plans::Shelf;
use journal_gates::{Head, Journal};
use machine_model::{Area, Disk};
use std::alloc::Global;

impl Archive {
    /// Loads the archive of a disk. A journal of at most 17 bytes is new, whatever they are, and
    /// stands for an archive without entries; no other one is written to.
    ///
    /// `NotArchive`: the journal is no archive's, which shows at that place: the first byte that
    /// differs from the header, an open gate whose record lies past the end, the first field of an
    /// entry that is cut short or not allowed, the gate of an entry that may not come after those
    /// before it, or the gate of the plan of the first live place that lies outside Pages or shares a
    /// page with an earlier one. `Failed`: the disk failed. `Memory`: an allocation failed.
    /// Costs time in the length of the journal, which is read in pieces of 64 KiB or a whole body,
    /// two look-ups an entry, the words of all texts, n log n in their counts and in the postings of
    /// each plan's word, and a search among free runs for each live place. No page is read.
    pub fn load<D: Disk>(alloc: Global, disk: &mut D) -> Result<Archive, LoadError>
        ensures only { D.Disk.only disk.old disk.new }
        ensures failed { IsErrOf result LoadError.Failed → Rose (D.disk disk.old).faults (D.disk disk.new).faults }
        // On any disk: it is live, keeps no page yet, the disk reaches as far as its journal, and it stands for a history.
        ensures live { IfOk result (λ a. IsTrue a.live) }
        ensures empty { IfOk result (λ a. a.shelf.cache ≡ []) }
        ensures unasked { IfOk result (λ a. a.asked ≡ []) }
        ensures idle { IfOk result (λ a. a.job ≡ None) }
        ensures within { IfOk result (λ a. Reaches (D.disk disk.new).reach a) }
        ensures stands { IfOk result (λ a. (h : History) × StandsFor a h) }
        // What it answers of the bytes that reads gave at the start; where they stand for a history, it is the one loaded.
        ensures not_archive { D.disk_tells → (at : ℕ) → IsErrOf result (LoadError.NotArchive at) → IsNotArchive (D.disk disk.old).holds at }
        ensures found { D.disk_tells
            → IfOk result (λ a. (h : History) × (StandsFor a h × Spells (D.disk disk.old).holds.journal (bodies_of h))) }
        // And the disk is in step with it then, by what reads give, whatever lies in Pages.
        ensures by_reads { D.disk_tells
            → IfOk result (λ a. (s : Store)
            × (AreInStepBy (D.disk disk.new) a s × Spells (D.disk disk.old).holds.journal (bodies_of s.history)
            × (s.pages ≡ (D.disk disk.old).holds.pages) × (s.asked ≡ []) × (s.job ≡ None))) }
        ensures in_step { D.disk_tells → (h : History) → Stands h (D.disk disk.old).holds
            → IfOk result (λ a. AreInStep (D.disk disk.new) a (world_of h)) }
        ensures exact { D.disk_tells → OnOk result ((at : ℕ) → IsNotArchive (D.disk disk.old).holds at → ⊥) }
        // Where each image stands for one history, each image left since stands for it.
        ensures crash { D.disk_tells → (h : History) → EachStands (D.disk disk.old) h → KeepsHistory h (D.disk disk.old) (D.disk disk.new) }
        // So it is of the bodies that each journal spells, whatever they are and whatever lies in Pages.
        ensures kept { D.disk_tells → (bodies : List (List ℕ)) → EachSpells (D.disk disk.old) bodies
            → KeepsBodies bodies (D.disk disk.old) (D.disk disk.new) }
        ensures never { D.disk_tells → (h : History) → EachStands (D.disk disk.old) h → (at : ℕ) → IsErrOf result (LoadError.NotArchive at)
            → ⊥ }
        // No byte of Pages is read.
        ensures unread { D.disk_tells → (D.disk disk.new).bytes_read.pages ≡ (D.disk disk.old).bytes_read.pages }
        // A journal that isn't new is synced and read, and nothing else.
        ensures longer { D.disk_tells → new_bytes < length (D.disk disk.old).holds.journal → Syncs (D.disk disk.old) (D.disk disk.new) }
        ensures pages { D.disk_tells → KeepsPages (D.disk disk.old) (D.disk disk.new) }
    {
        let (journal, heads) = Journal::load(alloc, disk)?;
        archive_of(alloc, disk, journal, &heads)
    }
}

/// The archive of a journal, by the entries that lie where these heads say. It reads alone.
fn archive_of<D: Disk>(
    alloc: Global,
    disk: &mut D,
    journal: Journal,
    heads: &[Head],
) -> Result<Archive, LoadError>
    requires reached { journal.end ≤ (D.disk disk.old).reach.journal }
    requires row { AreInRow first_gate heads.now journal.end }
    requires inside { All (LiesBefore journal.end) heads.now }
    ensures only { D.Disk.only disk.old disk.new }
    ensures same { OnlyReads (D.disk disk.old) (D.disk disk.new) }
    ensures failed { IsErrOf result LoadError.Failed → Rose (D.disk disk.old).faults (D.disk disk.new).faults }
    ensures unread { D.disk_tells → (D.disk disk.new).bytes_read.pages ≡ (D.disk disk.old).bytes_read.pages }
    ensures live { IfOk result (λ a. a.live ≡ journal.live) }
    ensures empty { IfOk result (λ a. a.shelf.cache ≡ []) }
    ensures unasked { IfOk result (λ a. a.asked ≡ []) }
    ensures idle { IfOk result (λ a. a.job ≡ None) }
    ensures end { IfOk result (λ a. a.end ≡ journal.end) }
    ensures within { IfOk result (λ a. Reaches (D.disk disk.new).reach a) }
    ensures stands { IfOk result (λ a. (h : History) × StandsFor a h) }
    // Where the journal spells the bodies that lie there: what it answers is so of any image that spells them and whose pages are as long.
    ensures not_archive { D.disk_tells → (bodies : List (List ℕ)) → heads.now ≡ heads_of first_gate bodies
        → Spells (D.disk disk.old).holds.journal bodies →
        (image : Bytes) → Spells image.journal bodies → length image.pages ≡ (D.disk disk.old).reach.pages →
        (at : ℕ) → IsErrOf result (LoadError.NotArchive at) → IsNotArchive image at }
    ensures found { D.disk_tells → (bodies : List (List ℕ)) → heads.now ≡ heads_of first_gate bodies
        → Spells (D.disk disk.old).holds.journal bodies →
        IfOk result (λ a. (h : History) × (StandsFor a h × (bodies_of h ≡ bodies))) }
    ensures exact { D.disk_tells → (bodies : List (List ℕ)) → heads.now ≡ heads_of first_gate bodies
        → Spells (D.disk disk.old).holds.journal bodies →
        (image : Bytes) → Spells image.journal bodies → length image.pages ≡ (D.disk disk.old).reach.pages →
        OnOk result ((at : ℕ) → IsNotArchive image at → ⊥) }
{
    let replayed = replay(alloc, disk, &journal, heads)?;
    let Replayed {
        directory,
        index,
        plans,
        marked,
    } = replayed;
    let reach = disk.length(Area::Pages)?;
    let shelf = Shelf::of(alloc, plans, reach)?;
    Ok(Archive::of(
        alloc,
        journal,
        directory,
        index,
        shelf,
        heads.len() as u64,
        marked,
    ))
}
