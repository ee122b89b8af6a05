//! A run over the commands of a sample.
ghost use Rattle.std.specs.Prelude.{◌≡◌, ◌⊎◌, ◌<◌, ◌≤◌, ℕ, List, [], length, IsTrue};
ghost use Rattle.machine_model.specs.Calls.{Syncs};
ghost use Rattle.machine_model.specs.Causes.{Rose};
ghost use Rattle.machine_model.specs.States.{DiskState};
ghost use Rattle.journal_gates.specs.Crash.{KeepsBodies};
ghost use Rattle.journal_gates.specs.Spelled.{EachSpells, Spells};
ghost use Rattle.model_archive.specs.Histories.{History};
ghost use Rattle.model_archive.specs.Worlds.{world_of};
ghost use Rattle.model_archive.specs.Legal.{IsLoadable};
ghost use Rattle.model_archive.specs.Stands.{Stands, EachStands, IsNotArchive, bodies_of};
ghost use Rattle.archive_hand.specs.States.{AreInStep, Reaches};
ghost use Rattle.archive_hand.specs.Changing.{KeepsHistory};
ghost use Rattle.run_script.specs.Causes.{IsLoaded};
ghost use Rattle.run_script.specs.Sampling.{EndsSample, Sampled};

use crate::status::Status;
use archive_hand::Archive;
use archive_replies::{ReplyPage, show};
use base_sample::Sample;
use machine_model::Machine;
use pages_sublists::Damage;
use run_sample::fill;
use run_words::SampleNumbers;
use std::alloc::Global;

/// Loads the archive of the machine's disk, and where it is empty carries out the commands of a sample
/// on it and shows the two lines of what came of them. Nothing is pulled.
pub(crate) fn run_sample<M: Machine>(
    alloc: Global,
    machine: &mut M,
    numbers: SampleNumbers,
) -> Status
    ensures source { M.source machine.new ≡ M.source machine.old }
    ensures ends { EndsSample result ⊎ (((at : ℕ) × (result ≡ Status.NotArchive at)) ⊎ ((length : ℕ) × (result ≡ Status.NotEmpty length))) }
    ensures disk_fault { result ≡ Status.Disk → Rose (M.disk machine.old).faults (M.disk machine.new).faults }
    ensures sink_fault { result ≡ Status.Sink → Rose (M.sink machine.old).faults (M.sink machine.new).faults }
    ensures not_archive { M.disk_tells → (at : ℕ) → result ≡ Status.NotArchive at → IsNotArchive (M.disk machine.old).holds at }
    ensures refused { M.disk_tells → (at : ℕ) → IsNotArchive (M.disk machine.old).holds at →
        (result ≡ Status.NotArchive at) ⊎ ((result ≡ Status.Disk) ⊎ (result ≡ Status.Memory)) }
    ensures left_alone { M.disk_tells → (at : ℕ) → IsNotArchive (M.disk machine.old).holds at →
        (M.sink machine.new ≡ M.sink machine.old) × Syncs (M.disk machine.old) (M.disk machine.new) }
    ensures undamaged { M.disk_tells → (d : Damage) → result ≡ Status.Damaged d → ⊥ }
    ensures not_empty { (n : ℕ) → result ≡ Status.NotEmpty n
        → (1 ≤ n) × (M.disk_tells → (h : History) × Spells (M.disk machine.old).holds.journal (bodies_of h) × IsLoadable h
        × (n ≡ length h)) }
    ensures occupied { M.disk_tells → (h : History) → Spells (M.disk machine.old).holds.journal (bodies_of h) → IsLoadable h
        → 1 ≤ length h →
        (result ≡ Status.NotEmpty (length h))
        ⊎ ((result ≡ Status.Disk) ⊎ ((result ≡ Status.Memory) ⊎ ((at : ℕ) × (result ≡ Status.NotArchive at)))) }
    ensures spared { M.disk_tells → (h : History) → EachStands (M.disk machine.old) h → 1 ≤ length h →
        (M.sink machine.new ≡ M.sink machine.old) × KeepsHistory h (M.disk machine.old) (M.disk machine.new) }
    ensures kept { M.disk_tells → (bodies : List (List ℕ)) → EachSpells (M.disk machine.old) bodies → 1 ≤ length bodies →
        (M.sink machine.new ≡ M.sink machine.old) × KeepsBodies bodies (M.disk machine.old) (M.disk machine.new) }
    ensures sampled { M.sink_tells → M.disk_tells → Stands [] (M.disk machine.old).holds →
        Sampled numbers.seed numbers.count result (M.sink machine.old) (M.sink machine.new) (M.disk machine.old) (M.disk machine.new) }
    ensures complete { M.disk_tells → Stands [] (M.disk machine.old).holds →
        (Rose (M.disk machine.old).faults (M.disk machine.new).faults → ⊥) →
        (Rose (M.sink machine.old).faults (M.sink machine.new).faults → ⊥) →
        (result ≡ Status.Done) ⊎ (result ≡ Status.Memory) }
{
    let mut page = match ReplyPage::new(alloc) {
        Ok(page) => page,
        Err(_) => return Status::Memory,
    };
    let mut archive = match Archive::load(alloc, machine) {
        Ok(archive) => archive,
        Err(error) => return Status::from(error),
    };
    let length = archive.length();
    if length > 0 {
        return Status::NotEmpty { length };
    }
    fill_and_show(alloc, machine, &mut archive, &mut page, numbers)
}

/// Carries out the commands of a sample on an archive, and shows the two lines of what came of them.
fn fill_and_show<M: Machine>(
    alloc: Global,
    machine: &mut M,
    archive: &mut Archive,
    page: &mut ReplyPage,
    numbers: SampleNumbers,
) -> Status
    requires live { IsTrue archive.old.live }
    requires within { Reaches (M.disk machine.old).reach archive.old }
    ensures source { M.source machine.new ≡ M.source machine.old }
    ensures ends { EndsSample result }
    ensures disk_later { (M.disk machine.old).faults ≤ (M.disk machine.new).faults }
    ensures disk_fault { result ≡ Status.Disk → Rose (M.disk machine.old).faults (M.disk machine.new).faults }
    ensures sink_fault { result ≡ Status.Sink → Rose (M.sink machine.old).faults (M.sink machine.new).faults }
    ensures undamaged { M.disk_tells → AreInStep (M.disk machine.old) archive.old (world_of []) → (d : Damage) →
        result ≡ Status.Damaged d → ⊥ }
    ensures sampled { M.sink_tells → M.disk_tells → AreInStep (M.disk machine.old) archive.old (world_of []) →
        (began : DiskState) → IsLoaded (M.sink machine.old).shown began (M.disk machine.old) →
        Sampled numbers.seed numbers.count result (M.sink machine.old) (M.sink machine.new) began (M.disk machine.new) }
{
    let sample = Sample::new(numbers.seed, numbers.count);
    let report = match fill(alloc, machine, archive, sample) {
        Ok(report) => report,
        Err(error) => return Status::from(error),
    };
    match page.generated(numbers.count, &report.tally, &report.verdict) {
        Ok(()) => {}
        Err(_) => return Status::Memory,
    }
    match show(machine, page.as_bytes()) {
        Ok(()) => Status::Done,
        Err(_) => Status::Sink,
    }
}
