//! A run that takes the packets of its input into the archive.
ghost use Rattle.std.specs.Prelude.{◌≡◌, ◌⊎◌, ℕ, List};
ghost use Rattle.machine_model.specs.Calls.{Syncs};
ghost use Rattle.machine_model.specs.Causes.{Rose};
ghost use Rattle.machine_model.specs.Pulls.{Pull};
ghost use Rattle.machine_model.specs.States.{state_by};
ghost use Rattle.model_archive.specs.Histories.{History};
ghost use Rattle.model_archive.specs.Stands.{IsNotArchive};
ghost use Rattle.run_script.specs.Following.{EndsFollow, IsCompletelyFollowed, Replicated};
ghost use Rattle.run_script.specs.Headline.{IsLoadedFrom, LoadsAs};

use crate::status::Status;
use archive_hand::Archive;
use machine_model::Machine;
use run_taking::follow;
use std::alloc::Global;

/// Loads the archive of the machine's disk, and takes the packets of its source into it one after another.
pub(crate) fn run_follow<M: Machine>(alloc: Global, machine: &mut M) -> Status
    ensures ends { EndsFollow result }
    ensures disk_fault { result ≡ Status.Disk → Rose (M.disk machine.old).faults (M.disk machine.new).faults }
    ensures source_fault { result ≡ Status.Source → Rose (M.source machine.old).faults (M.source machine.new).faults }
    ensures sink_fault { result ≡ Status.Sink → Rose (M.sink machine.old).faults (M.sink machine.new).faults }
    ensures not_archive { M.disk_tells → (at : ℕ) → result ≡ Status.NotArchive at → IsNotArchive (M.disk machine.old).holds at }
    ensures refused { M.disk_tells → (at : ℕ) → IsNotArchive (M.disk machine.old).holds at →
        (result ≡ Status.NotArchive at) ⊎ ((result ≡ Status.Disk) ⊎ (result ≡ Status.Memory)) }
    ensures left_alone { M.disk_tells → (at : ℕ) → IsNotArchive (M.disk machine.old).holds at →
        (M.source machine.new ≡ M.source machine.old) × (M.sink machine.new ≡ M.sink machine.old)
        × Syncs (M.disk machine.old) (M.disk machine.new) }
    ensures loaded { M.disk_tells → IsLoadedFrom (M.disk machine.old).holds result }
    ensures followed { M.source_tells → M.sink_tells → M.disk_tells → (h : History) → LoadsAs h (M.disk machine.old).holds →
        (pulls : List Pull) × M.asked machine.old pulls machine.new
        × Replicated h result (state_by M.source M.sink M.disk machine.old) (state_by M.source M.sink M.disk machine.new) pulls }
    ensures complete { M.source_tells → M.sink_tells → M.disk_tells →
        IsCompletelyFollowed result (state_by M.source M.sink M.disk machine.old) (state_by M.source M.sink M.disk machine.new) }
{
    let mut archive = match Archive::load(alloc, machine) {
        Ok(archive) => archive,
        Err(error) => return Status::from(error),
    };
    Status::from(follow(alloc, machine, &mut archive))
}
