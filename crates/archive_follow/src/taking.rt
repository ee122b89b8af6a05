//! An entry of another archive is taken.
ghost use Rattle.std.specs.Prelude.{◌≡◌, ◌+◌, length, None, IsTrue, OnOk};
ghost use Rattle.journal_gates.specs.Records.{gate_bytes};
ghost use Rattle.journal_entries.specs.Spelling.{spelling, IsEntry};
ghost use Rattle.model_archive.specs.Histories.{History};
ghost use Rattle.archive_hand.specs.States.{AreInStepBy, Reaches, StandsFor};
ghost use Rattle.archive_hand.specs.Stored.{Store};
ghost use Rattle.archive_follow.specs.Taken.{AfterTaking, ComesBehind, TakesBody, TakesBy};

use crate::batching::take_batch;
use crate::changing::{take_arrival, take_deletion, take_mark};
use crate::error::TakeEntryError;
use crate::planning::take_plan;
use archive_entries::Declined;
use archive_hand::Archive;
use journal_entries::{CodecError, Entry, decode};
use machine_model::Disk;
use std::alloc::Global;

/// Takes the entry that these bytes spell behind those that are there, and answers how many there are. At `Ok`
/// it is durable: each image that a stop may leave has it, a plan's sublists in the plan's own places too. All
/// memory is taken before the first write.
///
/// `NotNext`: it may not come next. The bytes spell no entry, or one that isn't legal behind those that are
/// there (a plan that isn't what its kind promises among them); a plan's place is for other bytes than its
/// sublist, shares a page with a live place or another of the plan's, or has no bytes and isn't at page 0; its
/// horizon lies before that of the word's live plan; or the journal has no room. Nothing was changed.
/// `Failed`, `Memory`: the archive is spent, and keeps its entries, its texts and its plans; what it tells of
/// words isn't claimed.
/// Costs what the change costs where it is one of the archive's own; and for a plan what `is_good`,
/// `Sublists::prepare_at` and storing its sublists cost.
pub fn take_entry<D: Disk>(
    alloc: Global,
    disk: &mut D,
    archive: &mut Archive,
    body: &[u8],
) -> Result<u64, TakeEntryError>
    requires live { IsTrue archive.old.live }
    requires within { Reaches (D.disk disk.old).reach archive.old }
    ensures only { D.Disk.only disk.old disk.new }
    ensures after { AfterTaking D.disk_tells (disk.new ≡ disk.old) result (D.disk disk.old) (D.disk disk.new) archive.old archive.new }
    // At Ok the journal is longer by the entry's bytes and 5 more.
    ensures longer { OnOk result (archive.new.end ≡ archive.old.end + gate_bytes + length body.now) }
    ensures stands { (h : History) → StandsFor archive.old h → ComesBehind h body.now result archive.new }
    // Where no plan is being written, it is taken exactly where it may come next (unless memory runs out).
    ensures takes { (h : History) → StandsFor archive.old h → archive.old.job ≡ None → TakesBody h body.now result archive.new }
    // In step by what reads give, whatever lies in Pages; each image left since stands for what was before it or after it.
    ensures by_reads { D.disk_tells → (s : Store) → AreInStepBy (D.disk disk.old) archive.old s → s.job ≡ None
        → TakesBy s body.now result (D.disk disk.old) (D.disk disk.new) archive.new }
{
    archive.stands();
    match decode(alloc, body) {
        Ok(entry) => take_read(alloc, disk, archive, entry, body),
        Err(CodecError::Form { .. }) => Err(TakeEntryError::NotNext),
        Err(CodecError::Memory) => {
            archive.give_up(Declined::Memory);
            Err(TakeEntryError::Memory)
        }
    }
}

/// Takes an entry that was read from these bytes.
fn take_read<D: Disk>(
    alloc: Global,
    disk: &mut D,
    archive: &mut Archive,
    entry: Entry,
    body: &[u8],
) -> Result<u64, TakeEntryError>
    requires live { IsTrue archive.old.live }
    requires within { Reaches (D.disk disk.old).reach archive.old }
    requires ranges { IsEntry entry }
    requires spelled { body.now ≡ spelling entry }
    ensures only { D.Disk.only disk.old disk.new }
    ensures after { AfterTaking D.disk_tells (disk.new ≡ disk.old) result (D.disk disk.old) (D.disk disk.new) archive.old archive.new }
    ensures stands { (h : History) → StandsFor archive.old h → ComesBehind h body.now result archive.new }
    ensures takes { (h : History) → StandsFor archive.old h → archive.old.job ≡ None → TakesBody h body.now result archive.new }
    ensures by_reads { D.disk_tells → (s : Store) → AreInStepBy (D.disk disk.old) archive.old s → s.job ≡ None
        → TakesBy s body.now result (D.disk disk.old) (D.disk disk.new) archive.new }
{
    match entry {
        Entry::Arrive { doc, at, text } => take_arrival(alloc, disk, archive, doc, at, &text),
        Entry::Delete { doc, at } => take_deletion(alloc, disk, archive, doc, at),
        Entry::Format => take_mark(alloc, disk, archive),
        Entry::Batch(acts) => take_batch(alloc, disk, archive, &acts),
        Entry::Planned(plan) => take_plan(alloc, disk, archive, plan, body),
    }
}
