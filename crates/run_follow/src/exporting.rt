//! The entries of an archive, shown as packets.
ghost use Rattle.std.specs.Prelude.{◌≡◌, ◌≤◌, ℕ, List, length, All, OnOk, IsErrOf, IsOk};
ghost use Rattle.machine_model.specs.Causes.{Rose};
ghost use Rattle.journal_bodies.specs.Numbered.{AreIn};
ghost use Rattle.journal_packets.specs.Packets.{most_body};
ghost use Rattle.model_archive.specs.Histories.{History};
ghost use Rattle.model_archive.specs.Stands.{bodies_of};
ghost use Rattle.run_follow.specs.Exporting.{IsJournalOf, Shows, ShowsPacket};

use crate::error::ExportError;
use archive_replies::show;
use journal_bodies::NumberedBodies;
use journal_gates::Journal;
use journal_packets::{MOST_BODY_BYTES, spell};
use machine_model::Machine;
use model_follow::what_runs_make_can_be_followed;
use std::alloc::Global;

/// Shows the entries of a loaded journal as packets, from the one of a number on; none where that is above the
/// number of entries. It pulls nothing and writes nothing.
///
/// `NotArchive`: reads give another journal than the loaded one, or an entry that no packet has room for; never
/// on a disk that keeps what it has. `Disk`: a read failed. `Sink`: the output couldn't be written.
/// `Memory`: an allocation failed.
/// Costs a second reading of the journal's gates, and one of the bodies that are shown; the memory of a head
/// for each entry, and of the longest packet.
pub fn export<M: Machine>(
    alloc: Global,
    machine: &mut M,
    journal: &Journal,
    from: u64,
) -> Result<(), ExportError>
    requires some { 1 ≤ from }
    requires reached { journal.now.end ≤ (M.disk machine.old).reach.journal }
    ensures source { M.source machine.new ≡ M.source machine.old }
    ensures holds { (M.disk machine.new).holds ≡ (M.disk machine.old).holds }
    ensures later { (M.disk machine.old).faults ≤ (M.disk machine.new).faults }
    ensures disk_fault { IsErrOf result ExportError.Disk → Rose (M.disk machine.old).faults (M.disk machine.new).faults }
    ensures sink_fault { IsErrOf result ExportError.Sink → Rose (M.sink machine.old).faults (M.sink machine.new).faults }
    // Where the journal is that of a history which a load accepts, it isn't refused, and what is shown is a front of the history's export.
    ensures fair { M.disk_tells → (h : History) → IsJournalOf h (M.disk machine.old).holds.journal journal.now.end
        → (at : ℕ) → IsErrOf result (ExportError.NotArchive at) → ⊥ }
    ensures shows { M.sink_tells → M.disk_tells → (h : History) → IsJournalOf h (M.disk machine.old).holds.journal journal.now.end →
        Shows (bodies_of h) from (IsOk result) (M.sink machine.old) (M.sink machine.new) (M.disk machine.old) (M.disk machine.new) }
{
    what_runs_make_can_be_followed();
    let mut bodies = NumberedBodies::of(alloc, machine, journal)?;
    show_from(alloc, machine, &mut bodies, from)
}

/// Shows bodies as packets, from the one of a number on.
fn show_from<M: Machine>(
    alloc: Global,
    machine: &mut M,
    bodies: &mut NumberedBodies,
    from: u64,
) -> Result<(), ExportError>
    requires some { 1 ≤ from }
    requires reached { bodies.old.window.end ≤ (M.disk machine.old).reach.journal }
    ensures source { M.source machine.new ≡ M.source machine.old }
    ensures holds { (M.disk machine.new).holds ≡ (M.disk machine.old).holds }
    ensures later { (M.disk machine.old).faults ≤ (M.disk machine.new).faults }
    ensures disk_fault { IsErrOf result ExportError.Disk → Rose (M.disk machine.old).faults (M.disk machine.new).faults }
    ensures sink_fault { IsErrOf result ExportError.Sink → Rose (M.sink machine.old).faults (M.sink machine.new).faults }
    ensures fair { M.disk_tells → (all : List (List ℕ)) → AreIn (M.disk machine.old).holds.journal all bodies.old
        → All (λ (body : List ℕ). length body ≤ most_body) all → (at : ℕ) → IsErrOf result (ExportError.NotArchive at) → ⊥ }
    ensures shows { M.sink_tells → M.disk_tells → (all : List (List ℕ)) → AreIn (M.disk machine.old).holds.journal all bodies.old
        → All (λ (body : List ℕ). length body ≤ most_body) all →
        Shows all from (IsOk result) (M.sink machine.old) (M.sink machine.new) (M.disk machine.old) (M.disk machine.new) }
{
    for place in from - 1..bodies.count() {
        show_packet(alloc, machine, bodies, place + 1)?;
    }
    Ok(())
}

/// Shows the body of a number as a packet.
fn show_packet<M: Machine>(
    alloc: Global,
    machine: &mut M,
    bodies: &mut NumberedBodies,
    number: u64,
) -> Result<(), ExportError>
    requires some { 1 ≤ number }
    requires within { number ≤ length bodies.old.heads }
    requires reached { bodies.old.window.end ≤ (M.disk machine.old).reach.journal }
    ensures source { M.source machine.new ≡ M.source machine.old }
    ensures later { (M.disk machine.old).faults ≤ (M.disk machine.new).faults }
    ensures sink_later { (M.sink machine.old).faults ≤ (M.sink machine.new).faults }
    ensures disk_fault { IsErrOf result ExportError.Disk → Rose (M.disk machine.old).faults (M.disk machine.new).faults }
    ensures sink_fault { IsErrOf result ExportError.Sink → Rose (M.sink machine.old).faults (M.sink machine.new).faults }
    ensures reaches { bodies.new.window.end ≤ (M.disk machine.new).reach.journal }
    ensures heads { bodies.new.heads ≡ bodies.old.heads }
    ensures holds { (M.disk machine.new).holds ≡ (M.disk machine.old).holds }
    ensures are { M.disk_tells → (all : List (List ℕ)) → AreIn (M.disk machine.old).holds.journal all bodies.old
        → OnOk result (AreIn (M.disk machine.new).holds.journal all bodies.new) }
    ensures fair { M.disk_tells → (all : List (List ℕ)) → AreIn (M.disk machine.old).holds.journal all bodies.old
        → All (λ (body : List ℕ). length body ≤ most_body) all → (at : ℕ) → IsErrOf result (ExportError.NotArchive at) → ⊥ }
    ensures shows { M.sink_tells → M.disk_tells → (all : List (List ℕ)) → AreIn (M.disk machine.old).holds.journal all bodies.old
        → All (λ (body : List ℕ). length body ≤ most_body) all →
        ShowsPacket all number (IsOk result) (M.sink machine.old) (M.sink machine.new) (M.disk machine.old) (M.disk machine.new) }
{
    let head = bodies.find(machine, number)?;
    let body = bodies.body(&head);
    if body.len() > MOST_BODY_BYTES {
        return Err(ExportError::NotArchive { at: head.gate });
    }
    let bytes = spell(alloc, number, body)?;
    match show(machine, &bytes) {
        Ok(()) => Ok(()),
        Err(_) => Err(ExportError::Sink),
    }
}
