//! Going over the items of the input.
ghost use Rattle.std.specs.Prelude.{◌≡◌, ◌⊎◌, ◌<◌, ◌≤◌, ◌^◌, ◌++◌, [], List, OnOk, IfErr, IsErrOf, MatchResult, ℕ};
ghost use Rattle.machine_model.specs.Pulls.{Pull};
ghost use Rattle.machine_model.specs.States.{SourceState, MachineState, state_by};
ghost use Rattle.archive_hand.specs.States.{AreInStepBy};
ghost use Rattle.archive_hand.specs.Stored.{Store};
ghost use Rattle.run_script.specs.Headline.{Ends, EndsEarly};
ghost use Rattle.run_script.specs.Causes.{IsLater, IsLeft, MayEnd};
ghost use Rattle.run_script.specs.Serving.{AreAwaited, Closing, Gives, HasGoneOver, HasPassed, HasSpoiled, Pulling, Serving, Serves, pulls_beside};
ghost use Rattle.run_script.specs.Outcomes.{CanGoOn};

use crate::carry_out::{carry_on, do_stint};
use crate::status::Status;
use archive_hand::Archive;
use archive_replies::ReplyPage;
use base_commands::Item;
use machine_model::Machine;
use pages_sublists::Damage;
use script_items::Reader;
use std::alloc::Global;

/// Takes the next item of the input, or says how the run ends where there is none.
fn next_item<M: Machine>(
    alloc: Global,
    machine: &mut M,
    reader: &mut Reader,
) -> Result<Item, Status>
    ensures sink { M.sink machine.new ≡ M.sink machine.old }
    ensures disk { M.disk machine.new ≡ M.disk machine.old }
    ensures later { (M.source machine.old).faults ≤ (M.source machine.new).faults }
    ensures cause { IfErr result (λ status. MayEnd status (state_by M.source M.sink M.disk machine.old)
        (state_by M.source M.sink M.disk machine.new)) }
    ensures undamaged { (d : Damage) → IsErrOf result (Status.Damaged d) → ⊥ }
    ensures nearer { OnOk result (reader.old.parts.passed < reader.new.parts.passed) }
    ensures bound { reader.new.parts.passed ≤ 2 ^ 40 }
    ensures asked { M.source_tells → (began : SourceState) → (p : Pulling began (M.source machine.old) reader.old)
        → (lefts : List (List ℕ)) ×
        M.asked machine.old (pulls_beside (M.sink machine.new).shown lefts) machine.new
        × AreAwaited reader.old p.since (M.source machine.old).left lefts }
    ensures gives { M.source_tells → (began : SourceState) → (p : Pulling began (M.source machine.old) reader.old) →
        Gives reader.old reader.new p.since result (M.source machine.old) (M.source machine.new) }
{
    let item = match reader.next_item(alloc, machine) {
        Ok(item) => item,
        Err(error) => return Err(Status::from(error)),
    };
    let Some(item) = item else {
        return Err(Status::Done);
    };
    Ok(item)
}

/// Carries out the next item of the input and shows its reply, with the stint of work behind it, or says how
/// the run ends: at the end of the input there may be work left.
pub(crate) fn step<M: Machine>(
    alloc: Global,
    machine: &mut M,
    reader: &mut Reader,
    archive: &mut Archive,
    page: &mut ReplyPage,
) -> Result<(), Status>
    requires ready { CanGoOn archive.old (M.disk machine.old).reach }
    ensures later { IsLater (state_by M.source M.sink M.disk machine.old)
        (state_by M.source M.sink M.disk machine.new) }
    ensures cause { IfErr result (λ status. MayEnd status (state_by M.source M.sink M.disk machine.old)
        (state_by M.source M.sink M.disk machine.new)) }
    ensures left { OnOk result (IsLeft M.disk_tells (M.disk machine.old) (M.disk machine.new) archive.old archive.new) }
    ensures nearer { OnOk result (reader.old.parts.passed < reader.new.parts.passed) }
    ensures bound { reader.new.parts.passed ≤ 2 ^ 40 }
    ensures pulls { M.source_tells → (began : SourceState) → Pulling began (M.source machine.old) reader.old →
        MatchResult result (λ _. Pulling began (M.source machine.new) reader.new) (λ status. Ends status began (M.source machine.new)) }
    ensures goes_on { M.source_tells → M.sink_tells → M.disk_tells → (s : Store) (began : MachineState) (before : List Pull) →
        Serving s began (state_by M.source M.sink M.disk machine.old) archive.old reader.old before →
        (pulls : List Pull) × M.asked machine.old pulls machine.new × MatchResult result
        (λ _. Serving s began (state_by M.source M.sink M.disk machine.new) archive.new reader.new (before ++ pulls))
        (λ status. HasGoneOver s status began (state_by M.source M.sink M.disk machine.new) archive.new (before ++ pulls)) }
    ensures ready { IfErr result (λ status. status ≡ Status.Done → CanGoOn archive.new (M.disk machine.new).reach) }
    // By the disk alone: an item was carried out, or it came to a damage.
    ensures passes { M.disk_tells → (s : Store) → AreInStepBy (M.disk machine.old) archive.old s → MatchResult result
        (λ _. HasPassed M.source_tells s (M.disk machine.new) archive.new (M.source machine.old)
        (M.source machine.new) reader.old reader.new)
        (λ status. (d : Damage) → status ≡ Status.Damaged d
        → HasSpoiled M.source_tells s (M.disk machine.new) (M.source machine.old) (M.source machine.new) reader.old d) }
{
    let item = match next_item(alloc, machine, reader) {
        Ok(item) => item,
        Err(status) => return Err(status),
    };
    match carry_on(alloc, machine, archive, page, item) {
        Ok(()) => Ok(()),
        Err(stop) => Err(Status::from(stop)),
    }
}

/// Behind the last item, does stints until no plan is being written, or up to the event that ends the run.
fn close<M: Machine>(machine: &mut M, archive: &mut Archive, page: &mut ReplyPage) -> Status
    requires ready { CanGoOn archive.old (M.disk machine.old).reach }
    ensures source { M.source machine.new ≡ M.source machine.old }
    ensures asked { M.asked machine.old [] machine.new }
    ensures later { IsLater (state_by M.source M.sink M.disk machine.old) (state_by M.source M.sink M.disk machine.new) }
    ensures cause { MayEnd result (state_by M.source M.sink M.disk machine.old) (state_by M.source M.sink M.disk machine.new) }
    ensures ends { EndsEarly result ⊎ (result ≡ Status.Done) }
    ensures undamaged { (d : Damage) → result ≡ Status.Damaged d → ⊥ }
    ensures closed { M.sink_tells → M.disk_tells → (s : Store) (began : MachineState) (pulls : List Pull) →
        Closing s began (state_by M.source M.sink M.disk machine.old) archive.old pulls
        → Serves s result began (state_by M.source M.sink M.disk machine.new) pulls }
{
    'stints: while archive.is_at_work() {
        match do_stint(machine, archive, page) {
            Ok(()) => {}
            Err(stop) => return Status::from(stop),
        }
    }
    Status::Done
}

/// Goes over the items of the input, and then brings the work to its end, up to the event that ends the run.
pub(crate) fn serve<M: Machine>(
    alloc: Global,
    machine: &mut M,
    archive: &mut Archive,
    reader: &mut Reader,
    page: &mut ReplyPage,
) -> Status
    requires ready { CanGoOn archive.old (M.disk machine.old).reach }
    ensures later { IsLater (state_by M.source M.sink M.disk machine.old)
        (state_by M.source M.sink M.disk machine.new) }
    ensures cause { MayEnd result (state_by M.source M.sink M.disk machine.old)
        (state_by M.source M.sink M.disk machine.new) }
    ensures ends { M.source_tells → (began : SourceState) → Pulling began (M.source machine.old) reader.old
        → Ends result began (M.source machine.new) }
    ensures served { M.source_tells → M.sink_tells → M.disk_tells → (s : Store) →
        Serving s (state_by M.source M.sink M.disk machine.old)
        (state_by M.source M.sink M.disk machine.old) archive.old reader.old [] →
        (pulls : List Pull) × M.asked machine.old pulls machine.new
        × Serves s result (state_by M.source M.sink M.disk machine.old)
        (state_by M.source M.sink M.disk machine.new) pulls }
    ensures spoiled { M.disk_tells → (s : Store) → AreInStepBy (M.disk machine.old) archive.old s → (d : Damage)
        → result ≡ Status.Damaged d →
        HasSpoiled M.source_tells s (M.disk machine.new) (M.source machine.old) (M.source machine.new) reader.old d }
{
    'items: loop {
        match step(alloc, machine, reader, archive, page) {
            Ok(()) => {}
            Err(status) => match status {
                Status::Done => return close(machine, archive, page),
                _ => return status,
            },
        }
    }
}
