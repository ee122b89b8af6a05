//! Carrying out one item and showing its reply, and the stint of work behind it.
ghost use Rattle.std.specs.Prelude.{◌≡◌, ◌<◌, ◌≤◌, [], OnOk, IsErrOf, IsSome};
ghost use Rattle.model_archive.specs.Steps.{left_of};
ghost use Rattle.archive_hand.specs.Jobs.{plain_job};
ghost use Rattle.machine_model.specs.Causes.{Rose};
ghost use Rattle.archive_hand.specs.States.{AreInStepBy};
ghost use Rattle.archive_hand.specs.Stored.{Spoils, Store, StoreStep, StoreStint};
ghost use Rattle.run_script.specs.Causes.{IsLeft};
ghost use Rattle.run_script.specs.Outcomes.{CanGoOn, CarriesOn, CarriesOut, NeverSpoiled, Passes, PassesOn};

use crate::answer::{answer, work};
use crate::stop::Stop;
use archive_hand::Archive;
use archive_replies::{ReplyPage, show};
use base_commands::Item;
use machine_model::Machine;
use pages_sublists::Damage;
use std::alloc::Global;

/// Carries out an item and shows its reply, and then, if a plan was being written when it came, does a stint
/// of that and shows what it says.
pub(crate) fn carry_on<M: Machine>(
    alloc: Global,
    machine: &mut M,
    archive: &mut Archive,
    page: &mut ReplyPage,
    item: Item,
) -> Result<(), Stop>
    requires ready { CanGoOn archive.old (M.disk machine.old).reach }
    ensures source { M.source machine.new ≡ M.source machine.old }
    ensures asked { M.asked machine.old [] machine.new }
    ensures disk_later { (M.disk machine.old).faults ≤ (M.disk machine.new).faults }
    ensures sink_later { (M.sink machine.old).faults ≤ (M.sink machine.new).faults }
    ensures disk_fault { IsErrOf result Stop.Disk → Rose (M.disk machine.old).faults (M.disk machine.new).faults }
    ensures sink_fault { IsErrOf result Stop.Sink → Rose (M.sink machine.old).faults (M.sink machine.new).faults }
    ensures left { OnOk result (IsLeft M.disk_tells (M.disk machine.old) (M.disk machine.new) archive.old archive.new) }
    ensures outcome { M.disk_tells → M.sink_tells → (s : Store) → AreInStepBy (M.disk machine.old) archive.old s →
        CarriesOn s item result (M.sink machine.old).shown (M.sink machine.new).shown (M.disk machine.old)
        (M.disk machine.new) archive.new }
    // The same by the disk alone.
    ensures passes { M.disk_tells → (s : Store) → AreInStepBy (M.disk machine.old) archive.old s
        → PassesOn s item result (M.disk machine.new) archive.new }
{
    let working = archive.is_at_work();
    match carry_out(alloc, machine, archive, page, item) {
        Ok(()) => {}
        Err(stop) => return Err(stop),
    }
    if !working {
        return Ok(());
    }
    // No item ends the work.
    if archive.is_at_work() {
        return do_stint(machine, archive, page);
    }
    Ok(())
}

/// Carries out an item, and then shows its reply whole.
fn carry_out<M: Machine>(
    alloc: Global,
    machine: &mut M,
    archive: &mut Archive,
    page: &mut ReplyPage,
    item: Item,
) -> Result<(), Stop>
    requires ready { CanGoOn archive.old (M.disk machine.old).reach }
    ensures source { M.source machine.new ≡ M.source machine.old }
    ensures asked { M.asked machine.old [] machine.new }
    ensures disk_later { (M.disk machine.old).faults ≤ (M.disk machine.new).faults }
    ensures sink_later { (M.sink machine.old).faults ≤ (M.sink machine.new).faults }
    ensures disk_fault { IsErrOf result Stop.Disk → Rose (M.disk machine.old).faults (M.disk machine.new).faults }
    ensures sink_fault { IsErrOf result Stop.Sink → Rose (M.sink machine.old).faults (M.sink machine.new).faults }
    ensures left { OnOk result (IsLeft M.disk_tells (M.disk machine.old) (M.disk machine.new) archive.old archive.new) }
    ensures outcome { M.disk_tells → M.sink_tells → (s : Store) → AreInStepBy (M.disk machine.old) archive.old s →
        CarriesOut s (StoreStep s item) (Spoils s item) result (M.sink machine.old).shown (M.sink machine.new).shown
        (M.disk machine.old) (M.disk machine.new) archive.new }
    ensures passes { M.disk_tells → (s : Store) → AreInStepBy (M.disk machine.old) archive.old s
        → Passes s (StoreStep s item) (Spoils s item) result (M.disk machine.new) archive.new }
{
    match answer(alloc, machine, archive, page, item) {
        Ok(()) => {}
        Err(halt) => return Err(Stop::from(halt)),
    }
    match show(machine, page.as_bytes()) {
        Ok(()) => Ok(()),
        Err(_) => Err(Stop::Sink),
    }
}

/// Does a stint of the work on the plan that is being written, and then shows what it says whole.
pub(crate) fn do_stint<M: Machine>(
    machine: &mut M,
    archive: &mut Archive,
    page: &mut ReplyPage,
) -> Result<(), Stop>
    requires ready { CanGoOn archive.old (M.disk machine.old).reach }
    requires working { IsSome archive.old.job }
    ensures source { M.source machine.new ≡ M.source machine.old }
    ensures asked { M.asked machine.old [] machine.new }
    ensures disk_later { (M.disk machine.old).faults ≤ (M.disk machine.new).faults }
    ensures sink_later { (M.sink machine.old).faults ≤ (M.sink machine.new).faults }
    ensures disk_fault { IsErrOf result Stop.Disk → Rose (M.disk machine.old).faults (M.disk machine.new).faults }
    ensures sink_fault { IsErrOf result Stop.Sink → Rose (M.sink machine.old).faults (M.sink machine.new).faults }
    ensures fed { IsErrOf result Stop.Memory → ⊥ }
    ensures undamaged { (d : Damage) → IsErrOf result (Stop.Damaged d) → ⊥ }
    ensures left { OnOk result (IsLeft M.disk_tells (M.disk machine.old) (M.disk machine.new) archive.old archive.new) }
    ensures less { OnOk result (left_of (plain_job archive.new.job) < left_of (plain_job archive.old.job)) }
    ensures outcome { M.disk_tells → M.sink_tells → (s : Store) → AreInStepBy (M.disk machine.old) archive.old s →
        CarriesOut s (StoreStint s) NeverSpoiled result (M.sink machine.old).shown (M.sink machine.new).shown (M.disk machine.old)
        (M.disk machine.new) archive.new }
    ensures passes { M.disk_tells → (s : Store) → AreInStepBy (M.disk machine.old) archive.old s
        → Passes s (StoreStint s) NeverSpoiled result (M.disk machine.new) archive.new }
{
    match work(machine, archive, page) {
        Ok(()) => {}
        Err(halt) => return Err(Stop::from(halt)),
    }
    let said = page.as_bytes();
    match show(machine, said) {
        Ok(()) => Ok(()),
        Err(_) => Err(Stop::Sink),
    }
}
