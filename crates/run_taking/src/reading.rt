//! Taking the next packet of the input.
ghost use Rattle.std.specs.Prelude.{◌≡◌, ◌<◌, ◌≤◌, ◌^◌, List, ℕ, All, OnOk, IfOk, IfErr};
ghost use Rattle.machine_model.specs.States.{state_by};
ghost use Rattle.journal_packets.specs.Packets.{IsFramed, framed};
ghost use Rattle.journal_packets.specs.Reading.{IsAwaited};
ghost use Rattle.run_taking.specs.Following.{MayEnd};
ghost use Rattle.run_taking.specs.Serving.{EndsARun, Gives, end_by, pulls_beside};

use crate::ended::Ended;
use journal_packets::{Packet, PacketError, Packets};
use machine_model::Machine;
use std::alloc::Global;

/// Takes the next packet of the input, or says how the run ends where there is none.
pub(crate) fn next_packet<M: Machine>(
    alloc: Global,
    machine: &mut M,
    reader: &mut Packets,
) -> Result<Packet, Ended>
    ensures sink { M.sink machine.new ≡ M.sink machine.old }
    ensures disk { M.disk machine.new ≡ M.disk machine.old }
    ensures later { (M.source machine.old).faults ≤ (M.source machine.new).faults }
    ensures cause { IfErr result (λ end. MayEnd end (state_by M.source M.sink M.disk machine.old)
        (state_by M.source M.sink M.disk machine.new)) }
    ensures ends { IfErr result (λ end. EndsARun end) }
    ensures proper { IfOk result (λ packet. IsFramed (framed packet)) }
    ensures nearer { OnOk result (reader.old.passed < reader.new.passed) }
    ensures bound { reader.new.passed ≤ 2 ^ 40 }
    ensures asked { (lefts : List (List ℕ))
        × M.asked machine.old (pulls_beside (M.sink machine.old).shown lefts) machine.new
        × (M.source_tells → All (IsAwaited reader.old.bytes (M.source machine.old).left) lefts) }
    ensures gives { M.source_tells → Gives reader.old reader.new result (M.source machine.old) (M.source machine.new) }
{
    match reader.next_packet(alloc, machine) {
        Ok(Some(packet)) => Ok(packet),
        Ok(None) => Err(Ended::Done),
        Err(error) => Err(ended_by(error)),
    }
}

/// How a run ends where the reader has no next packet.
fn ended_by(error: PacketError) -> Ended
    ensures value { result ≡ end_by error }
    ensures ends { EndsARun result }
{
    match error {
        PacketError::Bad { at } => Ended::Packet { at },
        PacketError::Budget => Ended::Budget,
        PacketError::Failed => Ended::Source,
        PacketError::Memory => Ended::Memory,
    }
}
