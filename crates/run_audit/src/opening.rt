//! An archive that is opened to be audited.
ghost use Rattle.std.specs.Prelude.{◌≡◌, ◌≤◌, [], ℕ, List, length, All, IfOk, IfSome, OnOk, IsErrOf, MatchOption};
ghost use Rattle.journal_gates.specs.Records.{first_gate};
ghost use Rattle.machine_model.specs.Areas.{Bytes};
ghost use Rattle.machine_model.specs.Causes.{Rose};
ghost use Rattle.machine_model.specs.Calls.{OnlyReads};
ghost use Rattle.journal_gates.specs.Heads.{AreInRow, LiesBefore, heads_of};
ghost use Rattle.journal_gates.specs.Spelled.{Spells};
ghost use Rattle.model_archive.specs.Histories.{History};
ghost use Rattle.model_archive.specs.Stands.{IsNotArchive, bodies_of};
ghost use Rattle.run_audit.specs.Opened.{IsOpened};

use archive_entries::{LoadError, Replayed, replay};
use archive_plans::Shelf;
use journal_gates::{Head, Journal};
use lists_versions::Directory;
use machine_model::{Area, Disk};
use std::alloc::Global;

/// What a check asks of an archive: where texts and sublists lie.
#[derive(Drop)]
pub(crate) struct Opened {
    pub(crate) journal: Journal,
    pub(crate) directory: Directory,
    pub(crate) shelf: Shelf,
}

/// Opens the archive of a disk. None where the journal has at most 17 bytes: then it is new, whatever they
/// are, and there is nothing to check.
///
/// It refuses what a load refuses, and neither writes nor syncs: so a crash may leave another archive than
/// the one that it read. Costs what a load does.
pub(crate) fn open<D: Disk>(alloc: Global, disk: &mut D) -> Result<Option<Opened>, LoadError>
    ensures only { D.Disk.only disk.old disk.new }
    ensures same { OnlyReads (D.disk disk.old) (D.disk disk.new) }
    ensures failed { IsErrOf result LoadError.Failed → Rose (D.disk disk.old).faults (D.disk disk.new).faults }
    ensures opened { IfOk result (λ o. IfSome o (λ a. (h : History) × IsOpened h (D.disk disk.new).reach a)) }
    ensures not_archive { D.disk_tells → (at : ℕ) → IsErrOf result (LoadError.NotArchive at) → IsNotArchive (D.disk disk.old).holds at }
    ensures found { D.disk_tells → IfOk result (λ o. MatchOption o (Spells (D.disk disk.old).holds.journal [])
        (λ a. (h : History) × (IsOpened h (D.disk disk.new).reach a × Spells (D.disk disk.old).holds.journal (bodies_of h)))) }
    ensures exact { D.disk_tells → OnOk result ((at : ℕ) → IsNotArchive (D.disk disk.old).holds at → ⊥) }
{
    match Journal::open_to_read(alloc, disk)? {
        Some((journal, heads)) => {
            let opened = opened_by(alloc, disk, journal, &heads)?;
            Ok(Some(opened))
        }
        None => Ok(None),
    }
}

/// The archive of a journal, by the entries that lie where these heads say.
fn opened_by<D: Disk>(
    alloc: Global,
    disk: &mut D,
    journal: Journal,
    heads: &[Head],
) -> Result<Opened, LoadError>
    requires reached { journal.end ≤ (D.disk disk.old).reach.journal }
    requires row { AreInRow first_gate heads.now journal.end }
    requires inside { All (LiesBefore journal.end) heads.now }
    ensures only { D.Disk.only disk.old disk.new }
    ensures same { OnlyReads (D.disk disk.old) (D.disk disk.new) }
    ensures failed { IsErrOf result LoadError.Failed → Rose (D.disk disk.old).faults (D.disk disk.new).faults }
    ensures opened { IfOk result (λ a. (h : History) × IsOpened h (D.disk disk.new).reach a) }
    // Where the journal spells the bodies that lie there: what it answers is so of any image that spells them and whose pages are as long.
    ensures not_archive { D.disk_tells → (bodies : List (List ℕ)) → heads.now ≡ heads_of first_gate bodies
        → Spells (D.disk disk.old).holds.journal bodies →
        (image : Bytes) → Spells image.journal bodies → length image.pages ≡ (D.disk disk.old).reach.pages →
        (at : ℕ) → IsErrOf result (LoadError.NotArchive at) → IsNotArchive image at }
    ensures found { D.disk_tells → (bodies : List (List ℕ)) → heads.now ≡ heads_of first_gate bodies
        → Spells (D.disk disk.old).holds.journal bodies →
        IfOk result (λ a. (h : History) × (IsOpened h (D.disk disk.new).reach a × (bodies_of h ≡ bodies))) }
    ensures exact { D.disk_tells → (bodies : List (List ℕ)) → heads.now ≡ heads_of first_gate bodies
        → Spells (D.disk disk.old).holds.journal bodies →
        (image : Bytes) → Spells image.journal bodies → length image.pages ≡ (D.disk disk.old).reach.pages →
        OnOk result ((at : ℕ) → IsNotArchive image at → ⊥) }
{
    let replayed = replay(alloc, disk, &journal, heads)?;
    let Replayed {
        directory,
        index: _,
        plans,
        marked: _,
    } = replayed;
    let reach = disk.length(Area::Pages)?;
    let shelf = Shelf::of(alloc, plans, reach)?;
    Ok(Opened {
        journal,
        directory,
        shelf,
    })
}
