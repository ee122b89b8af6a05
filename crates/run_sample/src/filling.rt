//! Carrying out all commands of a sample.
ghost use Rattle.std.specs.Prelude.{◌≡◌, ℕ, OnOk, IsErrOf, IsTrue};
ghost use Rattle.machine_model.specs.Causes.{Rose};
ghost use Rattle.base_sample.specs.Samples.{sample_of};
ghost use Rattle.model_archive.specs.Worlds.{World};
ghost use Rattle.archive_hand.specs.States.{AreInStep, Reaches};
ghost use Rattle.run_sample.specs.Filling.{IsFilled};

use crate::carrying::carry_out;
use crate::counting::{NOTHING, with_note};
use crate::error::FillError;
use crate::report::Report;
use archive_hand::Archive;
use base_sample::Sample;
use machine_model::Disk;
use std::alloc::Global;

/// Carries out the commands of a sample on an archive, one after another, and counts what came of
/// them. A refused command is counted, and the next one is carried out.
///
/// `Failed`, `Memory`: the archive may be spent. `Damaged`: a question came to a sublist that isn't
/// what the entry of its plan says. The commands in front are carried out then, and at `Failed` maybe
/// the one that failed.
/// Costs what each call of the archive costs, and holds one command at a time.
pub fn fill<D: Disk>(
    alloc: Global,
    disk: &mut D,
    archive: &mut Archive,
    sample: Sample,
) -> Result<Report, FillError>
    requires live { IsTrue archive.old.live }
    requires within { Reaches (D.disk disk.old).reach archive.old }
    requires whole { (seed : ℕ) × (count : ℕ) × (sample ≡ sample_of seed count) }
    ensures only { D.Disk.only disk.old disk.new }
    ensures failed { IsErrOf result FillError.Failed → Rose (D.disk disk.old).faults (D.disk disk.new).faults }
    // At Ok the archive can go on.
    ensures live { OnOk result (IsTrue archive.new.live) }
    ensures within { OnOk result (Reaches (D.disk disk.new).reach archive.new) }
    // In step with a disk that tells, it is one run of the abstract archive over the commands. Each image left since stands for a history of that
    // run; at Ok the counts and the verdict are those of the run, and the archive stands for its last history.
    ensures filled { D.disk_tells → (w : World) → AreInStep (D.disk disk.old) archive.old w
        → IsFilled w sample result (D.disk disk.old) (D.disk disk.new) archive.new }
{
    let mut rest = sample;
    let mut tally = NOTHING;
    let mut last = None;
    'commands: while let Some(command) = rest.next_command(alloc)? {
        let note = carry_out(alloc, disk, archive, command)?;
        tally = with_note(tally, &note)?;
        last = note.verdict();
    }
    Ok(Report {
        tally,
        verdict: last.unwrap(),
    })
}
