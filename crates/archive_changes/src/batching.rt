//! Batches of changes, which are made all or none.
ghost use Rattle.std.specs.Prelude.{◌≡◌, ◌≤◌, length, unwrap_or, IsTrue};
ghost use Rattle.base_commands.specs.Batches.{texts_bytes};
ghost use Rattle.base_commands.specs.declared.batch.BatchItems.TheVariants.{Items};
ghost use Rattle.base_commands.specs.declared.command.Command.TheVariants as commands;
ghost use Rattle.base_commands.specs.declared.command.Item.TheVariants as given;
ghost use Rattle.journal_gates.specs.Crash.{KeepsPages};
ghost use Rattle.model_archive.specs.Histories.{History, most_batch, old_format};
ghost use Rattle.archive_hand.specs.Adding.{IsSpentBut};
ghost use Rattle.archive_hand.specs.States.{StandsFor, AreInStepBy, Reaches};
ghost use Rattle.archive_hand.specs.Stored.{Store};
ghost use Rattle.archive_hand.specs.Takes.{TakesBy};
ghost use Rattle.archive_changes.specs.Adding.{AddsBatch, GivesUpAll};
ghost use Rattle.archive_changes.specs.After.{AfterChange};
ghost use Rattle.archive_changes.specs.Endings.{as_whole, changed_all, plainly};

use crate::error::BatchError;
use archive_entries::{BatchDeclined, Declined};
use archive_hand::{Archive, ChangeError};
use base_commands::{BatchItem, BatchItems, MOST_BATCH_BYTES};
use machine_model::Disk;
use model_archive::Refusal;
use std::alloc::Global;

/// Makes the changes of a batch, each behind those before it, all of them or none, as one entry, and answers
/// how many entries there are. At `Ok` the entry is durable: each image that a stop may leave has it. All
/// memory is taken before the first write.
///
/// `Refused`: it isn't allowed, for the first cause in order: the journal has no mark of one that may have
/// batches, the texts are together too long, the line of an item is no arrival and no deletion, an item is
/// refused behind those before it as `arrive` and `delete` say, or the journal is full. Nothing was changed.
/// `Failed`, `Memory`: the archive is spent, and keeps its entries, its texts and its plans; what it tells of
/// words isn't claimed.
/// Costs what `prepare_batch` does, for each item what `Index::take_in` does, and two synced writes: each text is
/// read once to find its words. What is known of them is kept until the batch is made, 8 bytes for each distinct
/// word of each text.
pub fn batch<D: Disk>(
    alloc: Global,
    disk: &mut D,
    archive: &mut Archive,
    items: &BatchItems,
) -> Result<u64, BatchError>
    requires live { IsTrue archive.old.live }
    requires within { Reaches (D.disk disk.old).reach archive.old }
    ensures only { D.Disk.only disk.old disk.new }
    ensures after { AfterChange IsSpentBut D.disk_tells ((archive.new ≡ archive.old) × (disk.new ≡ disk.old)) (disk.new ≡ disk.old)
        (plainly result) (D.disk disk.old) (D.disk disk.new) archive.old archive.new }
    // On any disk: a refusal is the first cause in order, comes wherever there is one (unless memory runs out), and changes nothing; at Ok
    // the archive stands for the history with the new entry, and answers how many entries there are.
    ensures adds { (h : History) → StandsFor archive.old h → AddsBatch h items.now result archive.new }
    // In step by what reads give, whatever lies in Pages, it is a step; each image left since stands for what was before it or after it.
    ensures by_reads { D.disk_tells → (s : Store) → AreInStepBy (D.disk disk.old) archive.old s
        → TakesBy s (given.Command (commands.Batch items.now)) (changed_all result) (D.disk disk.old) (D.disk disk.new) archive.new }
    ensures pages { D.disk_tells → KeepsPages (D.disk disk.old) (D.disk disk.new) }
{
    match items {
        BatchItems::Items(list) => add_batch(alloc, disk, archive, list.as_slice()),
        BatchItems::TooLong { .. } => Err(BatchError::Refused {
            refusal: too_long(archive),
            index: None,
        }),
    }
}

// The same of items that are held.
fn add_batch<D: Disk>(
    alloc: Global,
    disk: &mut D,
    archive: &mut Archive,
    items: &[BatchItem],
) -> Result<u64, BatchError>
    requires live { IsTrue archive.old.live }
    requires within { Reaches (D.disk disk.old).reach archive.old }
    requires sized { (1 ≤ length items.now) × (length items.now ≤ 1000) }
    requires short { texts_bytes items.now ≤ 16777216 }
    ensures only { D.Disk.only disk.old disk.new }
    ensures after { AfterChange IsSpentBut D.disk_tells ((archive.new ≡ archive.old) × (disk.new ≡ disk.old)) (disk.new ≡ disk.old)
        (plainly result) (D.disk disk.old) (D.disk disk.new) archive.old archive.new }
    ensures adds { (h : History) → StandsFor archive.old h → AddsBatch h (Items items.now) result archive.new }
    ensures by_reads { D.disk_tells → (s : Store) → AreInStepBy (D.disk disk.old) archive.old s
        → TakesBy s (given.Command (commands.Batch (Items items.now))) (changed_all result) (D.disk disk.old)
        (D.disk disk.new) archive.new }
    ensures pages { D.disk_tells → KeepsPages (D.disk disk.old) (D.disk disk.new) }
{
    match archive.batch(alloc, items) {
        Ok(prepared) => for_whole(archive.commit_batch(alloc, disk, prepared)),
        Err(why) => Err(give_up(archive, why)),
    }
}

// What comes of a batch that was declined: it is refused, which changes nothing, or there was no memory for
// it, and the archive is spent.
fn give_up(archive: &mut Archive, why: BatchDeclined) -> BatchError
    ensures { GivesUpAll why result archive.old archive.new }
{
    match why {
        BatchDeclined::Refused { why, index } => BatchError::Refused {
            refusal: why,
            index,
        },
        BatchDeclined::Memory => {
            archive.give_up(Declined::Memory);
            BatchError::Memory
        }
    }
}

// What a call answers for a whole batch.
fn for_whole(made: Result<u64, ChangeError>) -> Result<u64, BatchError>
    ensures { result ≡ as_whole made }
{
    match made {
        Ok(length) => Ok(length),
        Err(why) => Err(why.into()),
    }
}

// Why a batch is refused whose texts are together too long to be held.
fn too_long(archive: &Archive) -> Refusal
    ensures { (h : History) → StandsFor archive.now h → result ≡ unwrap_or (old_format h) (Refusal.BatchTooLong most_batch) }
{
    if !archive.has_format() {
        return Refusal::OldFormat;
    }
    Refusal::BatchTooLong {
        limit: MOST_BATCH_BYTES,
    }
}
