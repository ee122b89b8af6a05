//! A run over the commands of the input.
ghost use Rattle.std.specs.Prelude.{◌≡◌, ◌⊎◌, ◌<◌, ℕ, List, length};
ghost use Rattle.machine_model.specs.Calls.{Syncs};
ghost use Rattle.machine_model.specs.Causes.{Rose};
ghost use Rattle.machine_model.specs.Pulls.{Pull};
ghost use Rattle.machine_model.specs.States.{state_by};
ghost use Rattle.model_archive.specs.Histories.{History};
ghost use Rattle.model_archive.specs.Stands.{IsNotArchive, Stands};
ghost use Rattle.run_script.specs.Statuses.{OfPackets};
ghost use Rattle.run_script.specs.Headline.{Ends, EndsSpoiled, IsComplete, IsLoadedFrom, LoadsAs, ReadingRun, StandingRun, store_of};

use crate::desk::Desk;
use crate::serve::serve;
use crate::status::Status;
use archive_hand::Archive;
use machine_model::Machine;
use pages_sublists::Damage;
use std::alloc::Global;

/// Loads the archive of the machine's disk, and carries out the items of its source one after another.
pub(crate) fn run_script<M: Machine>(alloc: Global, machine: &mut M) -> Status
    ensures no_usage { result ≡ Status.Usage → ⊥ }
    ensures not_full { (length : ℕ) → result ≡ Status.NotEmpty length → ⊥ }
    ensures no_packets { OfPackets result → ⊥ }
    ensures disk_fault { result ≡ Status.Disk → Rose (M.disk machine.old).faults (M.disk machine.new).faults }
    ensures source_fault { result ≡ Status.Source → Rose (M.source machine.old).faults (M.source machine.new).faults }
    ensures sink_fault { result ≡ Status.Sink → Rose (M.sink machine.old).faults (M.sink machine.new).faults }
    ensures not_archive { M.disk_tells → (at : ℕ) → result ≡ Status.NotArchive at → IsNotArchive (M.disk machine.old).holds at }
    ensures refused { M.disk_tells → (at : ℕ) → IsNotArchive (M.disk machine.old).holds at →
        (result ≡ Status.NotArchive at) ⊎ ((result ≡ Status.Disk) ⊎ (result ≡ Status.Memory)) }
    ensures left_alone { M.disk_tells → (at : ℕ) → IsNotArchive (M.disk machine.old).holds at →
        (M.source machine.new ≡ M.source machine.old) × (M.sink machine.new ≡ M.sink machine.old)
        × Syncs (M.disk machine.old) (M.disk machine.new) }
    ensures headline { M.source_tells → M.sink_tells → M.disk_tells → (h : History) → Stands h (M.disk machine.old).holds →
        (pulls : List Pull) × M.asked machine.old pulls machine.new
        × StandingRun h result (state_by M.source M.sink M.disk machine.old) (state_by M.source M.sink M.disk machine.new) pulls }
    ensures by_reads { M.source_tells → M.sink_tells → M.disk_tells → (h : History) → LoadsAs h (M.disk machine.old).holds →
        (pulls : List Pull) × M.asked machine.old pulls machine.new
        × ReadingRun (store_of h (M.disk machine.old)) result (state_by M.source M.sink M.disk machine.old)
        (state_by M.source M.sink M.disk machine.new) pulls }
    ensures damaged { M.disk_tells → (d : Damage) → result ≡ Status.Damaged d →
        (h : History) × LoadsAs h (M.disk machine.old).holds
        × EndsSpoiled M.source_tells (store_of h (M.disk machine.old)) (M.source machine.old) (M.source machine.new)
        (M.disk machine.new) d }
    ensures loaded { M.disk_tells → IsLoadedFrom (M.disk machine.old).holds result }
    ensures input_at { M.source_tells → ((at : ℕ) × (result ≡ Status.NotArchive at))
        ⊎ Ends result (M.source machine.old) (M.source machine.new) }
    ensures complete { M.source_tells → M.sink_tells → M.disk_tells →
        IsComplete result (state_by M.source M.sink M.disk machine.old) (state_by M.source M.sink M.disk machine.new) }
{
    let mut desk = match Desk::new(alloc) {
        Ok(desk) => desk,
        Err(_) => return Status::Memory,
    };
    let mut archive = match Archive::load(alloc, machine) {
        Ok(archive) => archive,
        Err(error) => return Status::from(error),
    };
    serve(
        alloc,
        machine,
        &mut archive,
        &mut desk.reader,
        &mut desk.page,
    )
}
