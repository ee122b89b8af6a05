//! Carrying out one command of a sample.
ghost use Rattle.std.specs.Prelude.{◌≡◌, IfOk, OnOk, IsErrOf, IsSome, IsTrue};
ghost use Rattle.machine_model.specs.Causes.{Rose};
ghost use Rattle.base_commands.specs.Documents.{HasDocument};
ghost use Rattle.base_commands.specs.declared.command.Command.TheVariants as plain;
ghost use Rattle.base_commands.specs.declared.command.Item.TheVariants as items;
ghost use Rattle.base_sample.specs.Laws.{MayBeSampled};
ghost use Rattle.model_archive.specs.Worlds.{World};
ghost use Rattle.archive_hand.specs.States.{AreInStep, Reaches};
ghost use Rattle.run_sample.specs.Carrying.{CarriesOut, verdict_of};

use crate::error::FillError;
use crate::note::{Note, of_change, of_check, of_plan, of_question};
use archive_changes::{arrive, delete, plan};
use archive_hand::Archive;
use archive_questions::{find, verify};
use base_commands::{Command, Text};
use machine_model::Disk;
use std::alloc::Global;

/// Carries out a command of a sample. Costs what its call of the archive does.
pub(crate) fn carry_out<D: Disk>(
    alloc: Global,
    disk: &mut D,
    archive: &mut Archive,
    command: Command,
) -> Result<Note, FillError>
    requires live { IsTrue archive.old.live }
    requires within { Reaches (D.disk disk.old).reach archive.old }
    requires sampled { MayBeSampled command }
    ensures only { D.Disk.only disk.old disk.new }
    ensures failed { IsErrOf result FillError.Failed → Rose (D.disk disk.old).faults (D.disk disk.new).faults }
    ensures live { OnOk result (IsTrue archive.new.live) }
    ensures within { OnOk result (Reaches (D.disk disk.new).reach archive.new) }
    ensures checked { command ≡ plain.Verify → IfOk result (λ note. IsSome (verdict_of note)) }
    ensures outcome { D.disk_tells → (w : World) → AreInStep (D.disk disk.old) archive.old w → HasDocument (items.Command command) →
        CarriesOut w command result (D.disk disk.old) (D.disk disk.new) archive.new }
{
    match command {
        Command::Arrive {
            doc,
            at,
            text: Text::Bytes(content),
        } => of_change(arrive(alloc, disk, archive, doc, at, content.as_slice())),
        Command::Delete { doc, at } => of_change(delete(alloc, disk, archive, doc, at)),
        Command::Plan {
            word,
            kind,
            fraction,
        } => of_plan(plan(alloc, disk, archive, &word, kind, fraction)),
        Command::Find { at, expr } => of_question(find(alloc, disk, archive, at, &expr)),
        Command::Verify => of_check(verify(alloc, disk, archive)),
        Command::Arrive {
            text: Text::TooLong { .. },
            ..
        }
        | Command::Propose { .. }
        | Command::Between { .. }
        | Command::Show { .. }
        | Command::Certificate { .. }
        | Command::Format
        | Command::Batch(_)
        | Command::Begin { .. }
        | Command::Top { .. }
        | Command::Best { .. }
        | Command::Approx { .. }
        | Command::Rough { .. }
        | Command::Share { .. } => unreachable!(),
    }
}
