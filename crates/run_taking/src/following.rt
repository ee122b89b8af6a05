//! A run over the packets of the input.
ghost use Rattle.std.specs.Prelude.{◌≡◌, ℕ, List, IsTrue, None};
ghost use Rattle.machine_model.specs.Pulls.{Pull};
ghost use Rattle.machine_model.specs.States.{state_by};
ghost use Rattle.archive_hand.specs.States.{AreInStepBy, Reaches};
ghost use Rattle.archive_hand.specs.Stored.{Store};
ghost use Rattle.run_taking.specs.Following.{EndsByBytes, Followed, IsLater, MayEnd};

use crate::ended::Ended;
use crate::serve::serve;
use archive_hand::Archive;
use archive_replies::ReplyPage;
use journal_bodies::NumberedBodies;
use journal_gates::JournalError;
use journal_packets::Packets;
use machine_model::Machine;
use std::alloc::Global;

/// Takes the packets of the input into a loaded archive one after another, each as safe as a change of its own,
/// and tells each in a line; and says how the run ended. Where the disk failed or memory was short, the archive may
/// be spent.
///
/// `NotArchive` comes only where reads give another journal than the loaded one, and so never on a disk that keeps
/// what it has.
///
/// Costs a second reading of the journal's gates, a read for each packet whose entry is there, and what taking
/// each other entry does; the memory of a head for each entry, and of the longest packet.
pub fn follow<M: Machine>(alloc: Global, machine: &mut M, archive: &mut Archive) -> Ended
    requires live { IsTrue archive.old.live }
    requires within { Reaches (M.disk machine.old).reach archive.old }
    ensures later { IsLater (state_by M.source M.sink M.disk machine.old) (state_by M.source M.sink M.disk machine.new) }
    ensures cause { MayEnd result (state_by M.source M.sink M.disk machine.old) (state_by M.source M.sink M.disk machine.new) }
    // Behind a load the journal isn't refused.
    ensures fair { M.disk_tells → (s : Store) → AreInStepBy (M.disk machine.old) archive.old s
        → (at : ℕ) → result ≡ Ended.NotArchive at → ⊥ }
    ensures followed { M.source_tells → M.sink_tells → M.disk_tells → (s : Store)
        → AreInStepBy (M.disk machine.old) archive.old s → s.job ≡ None →
        (pulls : List Pull) × M.asked machine.old pulls machine.new
        × Followed s.history result (state_by M.source M.sink M.disk machine.old) (state_by M.source M.sink M.disk machine.new) pulls }
    ensures ends { M.source_tells → M.sink_tells → M.disk_tells → (s : Store)
        → AreInStepBy (M.disk machine.old) archive.old s → s.job ≡ None →
        EndsByBytes result (state_by M.source M.sink M.disk machine.old) (state_by M.source M.sink M.disk machine.new) }
{
    let mut reader = match Packets::new(alloc) {
        Ok(reader) => reader,
        Err(_) => return Ended::Memory,
    };
    let mut page = match ReplyPage::new(alloc) {
        Ok(page) => page,
        Err(_) => return Ended::Memory,
    };
    let mut bodies = match NumberedBodies::of(alloc, machine, archive.journal()) {
        Ok(bodies) => bodies,
        Err(JournalError::Failed) => return Ended::Disk,
        Err(JournalError::NotJournal { at }) => return Ended::NotArchive { at },
        Err(JournalError::Memory) => return Ended::Memory,
    };
    serve(alloc, machine, archive, &mut reader, &mut bodies, &mut page)
}
