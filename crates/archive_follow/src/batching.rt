//! A batch of another archive is taken.
ghost use Rattle.std.specs.Prelude.{◌≡◌, map, sum_by, IfOk, IsTrue};
ghost use Rattle.journal_entries.specs.Acts.{IsAct, IsBatch, act_length};
ghost use Rattle.journal_entries.specs.Spelling.{spelling};
ghost use Rattle.journal_entries.specs.declared.entry.Entry.TheVariants as entries;
ghost use Rattle.model_archive.specs.Histories.{History};
ghost use Rattle.archive_hand.specs.States.{AreInStepBy, Reaches, StandsFor};
ghost use Rattle.archive_hand.specs.Stored.{Store};
ghost use Rattle.archive_changes.specs.Endings.{plainly};
ghost use Rattle.archive_follow.specs.Taken.{AfterTaking, TakesBody, TakesBy, as_taken, item_by};

use crate::error::TakeEntryError;
use archive_changes::{BatchError, batch};
use archive_entries::Declined;
use archive_hand::Archive;
use base_commands::{BatchItem, BatchItems, BatchList, Content, MOST_BATCH_BYTES, Text};
use journal_entries::{Act, Listed};
use machine_model::Disk;
use std::alloc::{AllocError, Global};

/// Takes a batch that was read, as a batch of the archive's own. One whose texts are together too long may not
/// come.
pub(crate) fn take_batch<D: Disk>(
    alloc: Global,
    disk: &mut D,
    archive: &mut Archive,
    acts: &Listed<Act>,
) -> Result<u64, TakeEntryError>
    requires live { IsTrue archive.old.live }
    requires within { Reaches (D.disk disk.old).reach archive.old }
    requires ranges { IsBatch acts.now }
    ensures only { D.Disk.only disk.old disk.new }
    ensures after { AfterTaking D.disk_tells (disk.new ≡ disk.old) result (D.disk disk.old) (D.disk disk.new) archive.old archive.new }
    ensures takes { (h : History) → StandsFor archive.old h → TakesBody h (spelling (entries.Batch acts.now)) result archive.new }
    ensures by_reads { D.disk_tells → (s : Store) → AreInStepBy (D.disk disk.old) archive.old s
        → TakesBy s (spelling (entries.Batch acts.now)) result (D.disk disk.old) (D.disk disk.new) archive.new }
{
    let bytes = texts_bytes(acts.as_slice());
    if bytes > MOST_BATCH_BYTES {
        return Err(TakeEntryError::NotNext);
    }
    match items_of(alloc, acts.as_slice()) {
        Ok(items) => {
            let list = BatchItems::Items(BatchList::new(items));
            taken_all(batch(alloc, disk, archive, &list))
        }
        Err(_) => {
            archive.give_up(Declined::Memory);
            Err(TakeEntryError::Memory)
        }
    }
}

/// How many bytes the texts of acts have together.
fn texts_bytes(acts: &[Act]) -> u64
    requires { IsBatch acts.now }
    ensures { result ≡ sum_by act_length acts.now }
{
    let mut bytes = 0;
    for act in acts {
        bytes += act.text_bytes();
    }
    bytes
}

/// The acts of a batch as items of one. Costs a copy of the texts.
fn items_of(alloc: Global, acts: &[Act]) -> Result<Vec<BatchItem>, AllocError>
    requires { IsBatch acts.now }
    ensures { IfOk result (λ items. items.items ≡ map item_by acts.now) }
{
    let mut items = Vec::new(alloc);
    for act in acts {
        items.push(item_of(alloc, act)?)?;
    }
    Ok(items)
}

/// An act as an item of a batch. Costs a copy of the text.
fn item_of(alloc: Global, act: &Act) -> Result<BatchItem, AllocError>
    requires { IsAct act.now }
    ensures { IfOk result (λ item. item ≡ item_by act.now) }
{
    match act {
        Act::Arrive { doc, at, text } => {
            let bytes = Vec::from_slice(alloc, text.as_str().as_bytes())?;
            Ok(BatchItem::Arrive {
                doc: *doc,
                at: *at,
                text: Text::Bytes(Content::new(bytes)),
            })
        }
        Act::Delete { doc, at } => Ok(BatchItem::Delete { doc: *doc, at: *at }),
    }
}

/// What comes of a batch by what came of the one that it makes.
fn taken_all(made: Result<u64, BatchError>) -> Result<u64, TakeEntryError>
    ensures { result ≡ as_taken (plainly made) }
{
    match made {
        Ok(length) => Ok(length),
        Err(BatchError::Refused { .. }) => Err(TakeEntryError::NotNext),
        Err(BatchError::Failed) => Err(TakeEntryError::Failed),
        Err(BatchError::Memory) => Err(TakeEntryError::Memory),
    }
}
