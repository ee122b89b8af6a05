//! The check of an archive by its texts.
ghost use Rattle.std.specs.Prelude.{IfOk, IsErrOf};
ghost use Rattle.machine_model.specs.Causes.{Rose};
ghost use Rattle.machine_model.specs.Calls.{OnlyReads};
ghost use Rattle.model_archive.specs.Histories.{History};
ghost use Rattle.archive_check.specs.Checked.{IsChecked};
ghost use Rattle.archive_hand.specs.States.{StandsFor, AreInStepBy, Reaches};
ghost use Rattle.archive_hand.specs.Stored.{Store};
ghost use Rattle.archive_hand.specs.Takes.{TakesBy};
ghost use Rattle.archive_questions.specs.Endings.{verified};
ghost use Rattle.base_commands.specs.declared.command.Command.TheVariants as commands;
ghost use Rattle.base_commands.specs.declared.command.Item.TheVariants as items;

use archive_check::VerifyError;
use archive_hand::Archive;
use machine_model::Disk;
use model_archive::Verdict;
use std::alloc::Global;

/// Checks the archive by its texts, and tells what it finds: that all is sound, or the first fault.
/// Words go by number, the segments of their plans in order, and of each plan last whether it is a
/// least one; where a text isn't UTF-8, that is told. Of what is in memory it uses only where texts
/// and sublists lie, and no digest is asked. Nothing is changed.
///
/// `Failed`: the disk failed. `Memory`: an allocation failed.
/// Without plans nothing is read. Else each text and each sublist is read once, and the lists of all
/// words are made anew; it costs what `archive_check::verify` does.
pub fn verify<D: Disk>(
    alloc: Global,
    disk: &mut D,
    archive: &Archive,
) -> Result<Verdict, VerifyError>
    requires within { Reaches (D.disk disk.old).reach archive.now }
    ensures only { D.Disk.only disk.old disk.new }
    ensures same { OnlyReads (D.disk disk.old) (D.disk disk.new) }
    ensures failed { IsErrOf result VerifyError.Failed → Rose (D.disk disk.old).faults (D.disk disk.new).faults }
    // Whatever the disk holds, if it tells: the verdict is by what reads give, and by where the entries say that texts and sublists lie.
    ensures checked { D.disk_tells → (h : History) → StandsFor archive.now h → IfOk result (IsChecked h (D.disk disk.old).holds) }
    // In step by what reads give, whatever lies in Pages, it is a step.
    ensures by_reads { D.disk_tells → (s : Store) → AreInStepBy (D.disk disk.old) archive.now s
        → TakesBy s (items.Command commands.Verify) (verified result) (D.disk disk.old) (D.disk disk.new) archive.now }
{
    let plans = archive.shelf().plans();
    archive_check::verify(alloc, disk, archive.journal(), archive.directory(), plans)
}
