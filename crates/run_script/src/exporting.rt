//! A run that shows the entries of an archive as packets.
ghost use Rattle.std.specs.Prelude.{◌≡◌, ◌⊎◌, ℕ};
ghost use Rattle.machine_model.specs.Calls.{Syncs};
ghost use Rattle.machine_model.specs.Causes.{Rose};
ghost use Rattle.model_archive.specs.Histories.{History};
ghost use Rattle.model_archive.specs.Stands.{IsNotArchive};
ghost use Rattle.run_script.specs.Exporting.{EndsExport, Exported, LeavesAlone};
ghost use Rattle.run_script.specs.Headline.{IsLoadedFrom, LoadsAs};

use crate::status::Status;
use archive_hand::Archive;
use machine_model::Machine;
use run_follow::export;
use run_words::FirstEntry;
use std::alloc::Global;

/// Loads the archive of the machine's disk, and shows its entries from one on as packets. Nothing is
/// pulled.
pub(crate) fn run_export<M: Machine>(alloc: Global, machine: &mut M, first: FirstEntry) -> Status
    ensures source { M.source machine.new ≡ M.source machine.old }
    ensures ends { EndsExport result }
    ensures disk_fault { result ≡ Status.Disk → Rose (M.disk machine.old).faults (M.disk machine.new).faults }
    ensures sink_fault { result ≡ Status.Sink → Rose (M.sink machine.old).faults (M.sink machine.new).faults }
    ensures not_archive { M.disk_tells → (at : ℕ) → result ≡ Status.NotArchive at → IsNotArchive (M.disk machine.old).holds at }
    ensures refused { M.disk_tells → (at : ℕ) → IsNotArchive (M.disk machine.old).holds at →
        (result ≡ Status.NotArchive at) ⊎ ((result ≡ Status.Disk) ⊎ (result ≡ Status.Memory)) }
    ensures left_alone { M.disk_tells → (at : ℕ) → IsNotArchive (M.disk machine.old).holds at →
        (M.sink machine.new ≡ M.sink machine.old) × Syncs (M.disk machine.old) (M.disk machine.new) }
    ensures loaded { M.disk_tells → IsLoadedFrom (M.disk machine.old).holds result }
    ensures exported { M.sink_tells → M.disk_tells → (h : History) → LoadsAs h (M.disk machine.old).holds →
        Exported h first.number result (M.sink machine.old) (M.sink machine.new) (M.disk machine.old) (M.disk machine.new) }
    ensures spared { M.sink_tells → M.disk_tells →
        LeavesAlone (M.disk machine.old) (M.disk machine.new) (M.sink machine.old).shown (M.sink machine.new).shown }
    ensures complete { M.disk_tells → ((at : ℕ) → IsNotArchive (M.disk machine.old).holds at → ⊥) →
        (Rose (M.disk machine.old).faults (M.disk machine.new).faults → ⊥) →
        (Rose (M.sink machine.old).faults (M.sink machine.new).faults → ⊥) →
        (result ≡ Status.Done) ⊎ (result ≡ Status.Memory) }
{
    let archive = match Archive::load(alloc, machine) {
        Ok(archive) => archive,
        Err(error) => return Status::from(error),
    };
    match export(alloc, machine, archive.journal(), first.number) {
        Ok(()) => Status::Done,
        Err(error) => Status::from(error),
    }
}
