//! Going over the packets of the input.
ghost use Rattle.std.specs.Prelude.{◌≡◌, ◌<◌, ◌≤◌, ◌^◌, ◌++◌, [], List, OnOk, IfErr, MatchResult};
ghost use Rattle.machine_model.specs.Pulls.{Pull};
ghost use Rattle.machine_model.specs.States.{MachineState, state_by};
ghost use Rattle.journal_packets.specs.Packets.{IsFramed, framed};
ghost use Rattle.archive_hand.specs.Stored.{Store};
ghost use Rattle.run_taking.specs.Following.{IsLater, MayEnd};
ghost use Rattle.run_taking.specs.Serving.{CanGoOn, EndsARun, HasGoneOver, IsCarriedOut, IsFollowing, Serves, Serving};

use crate::ended::Ended;
use crate::packet::answer;
use crate::reading::next_packet;
use archive_hand::Archive;
use archive_replies::{ReplyPage, show};
use journal_bodies::NumberedBodies;
use journal_packets::{Packet, Packets};
use machine_model::Machine;
use std::alloc::Global;

/// Carries out a packet, and then shows its line whole.
fn carry_out<M: Machine>(
    alloc: Global,
    machine: &mut M,
    archive: &mut Archive,
    bodies: &mut NumberedBodies,
    page: &mut ReplyPage,
    packet: &Packet,
) -> Result<(), Ended>
    requires ready { CanGoOn (M.disk machine.old).reach archive.old bodies.old }
    requires proper { IsFramed (framed packet.now) }
    ensures source { M.source machine.new ≡ M.source machine.old }
    ensures asked { M.asked machine.old [] machine.new }
    ensures later { IsLater (state_by M.source M.sink M.disk machine.old) (state_by M.source M.sink M.disk machine.new) }
    ensures cause { IfErr result (λ end. MayEnd end (state_by M.source M.sink M.disk machine.old)
        (state_by M.source M.sink M.disk machine.new)) }
    ensures ends { IfErr result (λ end. EndsARun end) }
    ensures undone { IfErr result (λ end. end ≡ Ended.Done → ⊥) }
    ensures ready { OnOk result (CanGoOn (M.disk machine.new).reach archive.new bodies.new) }
    ensures came { M.disk_tells → M.sink_tells → (s : Store) → IsFollowing (M.disk machine.old) archive.old bodies.old s
        → IsCarriedOut s packet.now.at (framed packet.now) result (M.sink machine.old).shown (M.sink machine.new).shown
        (M.disk machine.old) (M.disk machine.new) archive.new bodies.new }
{
    match answer(alloc, machine, archive, bodies, page, packet) {
        Ok(()) => {}
        Err(end) => return Err(end),
    }
    match show(machine, page.as_bytes()) {
        Ok(()) => Ok(()),
        Err(_) => Err(Ended::Sink),
    }
}

/// Takes the next packet of the input and carries it out, or says how the run ends: at the end of the input the
/// last line is left.
fn step<M: Machine>(
    alloc: Global,
    machine: &mut M,
    reader: &mut Packets,
    archive: &mut Archive,
    bodies: &mut NumberedBodies,
    page: &mut ReplyPage,
) -> Result<(), Ended>
    requires ready { CanGoOn (M.disk machine.old).reach archive.old bodies.old }
    ensures later { IsLater (state_by M.source M.sink M.disk machine.old) (state_by M.source M.sink M.disk machine.new) }
    ensures cause { IfErr result (λ end. MayEnd end (state_by M.source M.sink M.disk machine.old)
        (state_by M.source M.sink M.disk machine.new)) }
    ensures ends { IfErr result (λ end. EndsARun end) }
    ensures ready { OnOk result (CanGoOn (M.disk machine.new).reach archive.new bodies.new) }
    ensures nearer { OnOk result (reader.old.passed < reader.new.passed) }
    ensures bound { reader.new.passed ≤ 2 ^ 40 }
    ensures goes_on { M.source_tells → M.sink_tells → M.disk_tells → (s : Store) (began : MachineState) (before : List Pull) →
        Serving s began (state_by M.source M.sink M.disk machine.old) archive.old reader.old bodies.old before →
        (pulls : List Pull) × M.asked machine.old pulls machine.new × MatchResult result
        (λ _. Serving s began (state_by M.source M.sink M.disk machine.new) archive.new reader.new bodies.new (before ++ pulls))
        (λ end. HasGoneOver s end began (state_by M.source M.sink M.disk machine.new) archive.new reader.new bodies.new (before ++ pulls)) }
{
    let packet = match next_packet(alloc, machine, reader) {
        Ok(packet) => packet,
        Err(end) => return Err(end),
    };
    carry_out(alloc, machine, archive, bodies, page, &packet)
}

/// Behind the last packet, shows the last line.
fn close<M: Machine>(machine: &mut M, bodies: &NumberedBodies, page: &mut ReplyPage) -> Ended
    ensures source { M.source machine.new ≡ M.source machine.old }
    ensures asked { M.asked machine.old [] machine.new }
    ensures later { IsLater (state_by M.source M.sink M.disk machine.old) (state_by M.source M.sink M.disk machine.new) }
    ensures cause { MayEnd result (state_by M.source M.sink M.disk machine.old) (state_by M.source M.sink M.disk machine.new) }
    ensures ends { EndsARun result }
    ensures closed { M.sink_tells → M.disk_tells → (s : Store) (began : MachineState) (archive : _) (held : _) (pulls : List Pull) →
        HasGoneOver s Ended.Done began (state_by M.source M.sink M.disk machine.old) archive held bodies.now pulls
        → Serves s result began (state_by M.source M.sink M.disk machine.new) pulls }
{
    page.numbered(b"end ", bodies.count());
    match show(machine, page.as_bytes()) {
        Ok(()) => Ended::Done,
        Err(_) => Ended::Sink,
    }
}

/// Goes over the packets of the input, up to the one or the event that ends the run.
pub(crate) fn serve<M: Machine>(
    alloc: Global,
    machine: &mut M,
    archive: &mut Archive,
    reader: &mut Packets,
    bodies: &mut NumberedBodies,
    page: &mut ReplyPage,
) -> Ended
    requires ready { CanGoOn (M.disk machine.old).reach archive.old bodies.old }
    ensures later { IsLater (state_by M.source M.sink M.disk machine.old) (state_by M.source M.sink M.disk machine.new) }
    ensures cause { MayEnd result (state_by M.source M.sink M.disk machine.old) (state_by M.source M.sink M.disk machine.new) }
    ensures ends { EndsARun result }
    ensures served { M.source_tells → M.sink_tells → M.disk_tells → (s : Store) (began : MachineState) →
        Serving s began (state_by M.source M.sink M.disk machine.old) archive.old reader.old bodies.old [] →
        (pulls : List Pull) × M.asked machine.old pulls machine.new
        × Serves s result began (state_by M.source M.sink M.disk machine.new) pulls }
{
    'packets: loop {
        match step(alloc, machine, reader, archive, bodies, page) {
            Ok(()) => {}
            Err(end) => match end {
                Ended::Done => return close(machine, bodies, page),
                _ => return end,
            },
        }
    }
}
