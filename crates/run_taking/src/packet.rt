//! What comes of a packet.
ghost use Rattle.std.specs.Prelude.{◌≡◌, ◌+◌, ◌≤◌, length, IfErr, IfOk, OnOk, IsErrOf};
ghost use Rattle.machine_model.specs.Calls.{OnlyReads};
ghost use Rattle.machine_model.specs.Causes.{Rose};
ghost use Rattle.journal_bodies.specs.Numbered.{AreIn};
ghost use Rattle.journal_packets.specs.Packets.{IsFramed, framed};
ghost use Rattle.model_archive.specs.Histories.{History};
ghost use Rattle.model_archive.specs.Stands.{bodies_of};
ghost use Rattle.archive_hand.specs.Stored.{Store};
ghost use Rattle.model_follow.specs.Following.{Took, note_text};
ghost use Rattle.run_taking.specs.Serving.{CanGoOn, ComesOfPacket, ComesOfReading, IsAnswered, IsCaseOf, IsFollowing};

use crate::ended::Ended;
use archive_follow::{TakeEntryError, take_entry};
use archive_hand::Archive;
use archive_replies::ReplyPage;
use journal_bodies::NumberedBodies;
use journal_gates::JournalError;
use journal_packets::{Case, Packet, sort_out};
use machine_model::Disk;
use std::alloc::Global;

/// What a packet is to the history whose bodies these are: the one of its number is read where there is one. Or
/// how the run ends where that can't be read.
fn case_of<D: Disk>(
    disk: &mut D,
    bodies: &mut NumberedBodies,
    packet: &Packet,
) -> Result<Case, Ended>
    requires proper { IsFramed (framed packet.now) }
    requires reached { bodies.old.window.end ≤ (D.disk disk.old).reach.journal }
    ensures only { D.Disk.only disk.old disk.new }
    ensures same { OnlyReads (D.disk disk.old) (D.disk disk.new) }
    ensures unread { D.disk_tells → (D.disk disk.new).bytes_read.pages ≡ (D.disk disk.old).bytes_read.pages }
    ensures failed { IsErrOf result Ended.Disk → Rose (D.disk disk.old).faults (D.disk disk.new).faults }
    ensures ended { IfErr result (λ end. ComesOfReading end) }
    ensures ends { bodies.new.window.end ≡ bodies.old.window.end }
    ensures heads { bodies.new.heads ≡ bodies.old.heads }
    ensures case { D.disk_tells → (h : History) → AreIn (D.disk disk.old).holds.journal (bodies_of h) bodies.old
        → IfOk result (λ case. IsCaseOf h (framed packet.now) case
        × AreIn (D.disk disk.old).holds.journal (bodies_of h) bodies.new) }
{
    let have = bodies.count();
    if have < packet.number {
        return Ok(sort_out(have, None, packet));
    }
    match bodies.find(disk, packet.number) {
        Ok(head) => Ok(sort_out(have, Some(bodies.body(&head)), packet)),
        Err(JournalError::Memory) => Err(Ended::Memory),
        Err(_) => Err(Ended::Disk),
    }
}

/// Takes the entry of a packet behind those that are there.
fn take_next<D: Disk>(
    alloc: Global,
    disk: &mut D,
    archive: &mut Archive,
    bodies: &mut NumberedBodies,
    packet: &Packet,
) -> Result<(), Ended>
    requires ready { CanGoOn (D.disk disk.old).reach archive.old bodies.old }
    requires proper { IsFramed (framed packet.now) }
    ensures only { D.Disk.only disk.old disk.new }
    ensures failed { IsErrOf result Ended.Disk → Rose (D.disk disk.old).faults (D.disk disk.new).faults }
    ensures cause { IfErr result (λ end. ComesOfPacket end) }
    ensures ready { OnOk result (CanGoOn (D.disk disk.new).reach archive.new bodies.new) }
    // Where its number comes next, it is taken, or how the run ends says why not.
    ensures came { D.disk_tells → (s : Store) → IsFollowing (D.disk disk.old) archive.old bodies.old s
        → packet.now.number ≡ length s.history + 1
        → IsAnswered s packet.now.at (framed packet.now) result (D.disk disk.old) (D.disk disk.new) archive.new bodies.new
        (note_text (Took packet.now.number)) }
{
    if bodies.make_room().is_err() {
        return Err(Ended::Memory);
    }
    match take_entry(alloc, disk, archive, packet.body.as_slice()) {
        Ok(_) => {
            bodies.add(alloc, archive.journal(), packet.body.len() as u32);
            Ok(())
        }
        Err(TakeEntryError::NotNext) => Err(Ended::Packet { at: packet.at }),
        Err(TakeEntryError::Failed) => Err(Ended::Disk),
        Err(TakeEntryError::Memory) => Err(Ended::Memory),
    }
}

/// Carries out a packet on the archive and its disk, and writes its line on the page.
pub(crate) fn answer<D: Disk>(
    alloc: Global,
    disk: &mut D,
    archive: &mut Archive,
    bodies: &mut NumberedBodies,
    page: &mut ReplyPage,
    packet: &Packet,
) -> Result<(), Ended>
    requires ready { CanGoOn (D.disk disk.old).reach archive.old bodies.old }
    requires proper { IsFramed (framed packet.now) }
    ensures only { D.Disk.only disk.old disk.new }
    ensures failed { IsErrOf result Ended.Disk → Rose (D.disk disk.old).faults (D.disk disk.new).faults }
    ensures cause { IfErr result (λ end. ComesOfPacket end) }
    ensures ready { OnOk result (CanGoOn (D.disk disk.new).reach archive.new bodies.new) }
    // What comes of it by what reads give, whatever lies in Pages.
    ensures came { D.disk_tells → (s : Store) → IsFollowing (D.disk disk.old) archive.old bodies.old s
        → IsAnswered s packet.now.at (framed packet.now) result (D.disk disk.old) (D.disk disk.new) archive.new bodies.new page.new.bytes }
{
    let case = match case_of(disk, bodies, packet) {
        Ok(case) => case,
        Err(end) => return Err(end),
    };
    match case {
        Case::Had => {
            page.numbered(b"had ", packet.number);
            Ok(())
        }
        Case::Next => {
            page.numbered(b"took ", packet.number);
            take_next(alloc, disk, archive, bodies, packet)
        }
        Case::Gap => Err(Ended::Gap {
            have: bodies.count(),
            got: packet.number,
        }),
        Case::Conflict { place, kept, got } => Err(Ended::Conflict {
            number: packet.number,
            place,
            kept,
            got,
        }),
    }
}
