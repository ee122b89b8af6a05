//! A change of another archive, or its mark, is taken.
ghost use Rattle.std.specs.Prelude.{◌≡◌, IsTrue};
ghost use Rattle.journal_entries.specs.Spelling.{spelling, IsEntry};
ghost use Rattle.journal_entries.specs.declared.entry.Entry.TheVariants as entries;
ghost use Rattle.model_archive.specs.Histories.{History};
ghost use Rattle.archive_hand.specs.States.{AreInStepBy, Reaches, StandsFor};
ghost use Rattle.archive_hand.specs.Stored.{Store};
ghost use Rattle.archive_follow.specs.Taken.{AfterTaking, TakesBody, TakesBy, as_taken};

use crate::error::TakeEntryError;
use archive_changes::{arrive, delete, mark_format};
use archive_hand::{Archive, ChangeError};
use base_types::{DocId, Time};
use journal_entries::VersionText;
use machine_model::Disk;
use std::alloc::Global;

/// Takes an arrival that was read.
pub(crate) fn take_arrival<D: Disk>(
    alloc: Global,
    disk: &mut D,
    archive: &mut Archive,
    doc: DocId,
    at: Time,
    text: &VersionText,
) -> Result<u64, TakeEntryError>
    requires live { IsTrue archive.old.live }
    requires within { Reaches (D.disk disk.old).reach archive.old }
    requires ranges { IsEntry (entries.Arrive doc at text.now) }
    ensures only { D.Disk.only disk.old disk.new }
    ensures after { AfterTaking D.disk_tells (disk.new ≡ disk.old) result (D.disk disk.old) (D.disk disk.new) archive.old archive.new }
    ensures takes { (h : History) → StandsFor archive.old h → TakesBody h (spelling (entries.Arrive doc at text.now)) result archive.new }
    ensures by_reads { D.disk_tells → (s : Store) → AreInStepBy (D.disk disk.old) archive.old s
        → TakesBy s (spelling (entries.Arrive doc at text.now)) result (D.disk disk.old) (D.disk disk.new) archive.new }
{
    taken(arrive(alloc, disk, archive, doc, at, text.as_str().as_bytes()))
}

/// Takes a deletion that was read.
pub(crate) fn take_deletion<D: Disk>(
    alloc: Global,
    disk: &mut D,
    archive: &mut Archive,
    doc: DocId,
    at: Time,
) -> Result<u64, TakeEntryError>
    requires live { IsTrue archive.old.live }
    requires within { Reaches (D.disk disk.old).reach archive.old }
    requires ranges { IsEntry (entries.Delete doc at) }
    ensures only { D.Disk.only disk.old disk.new }
    ensures after { AfterTaking D.disk_tells (disk.new ≡ disk.old) result (D.disk disk.old) (D.disk disk.new) archive.old archive.new }
    ensures takes { (h : History) → StandsFor archive.old h → TakesBody h (spelling (entries.Delete doc at)) result archive.new }
    ensures by_reads { D.disk_tells → (s : Store) → AreInStepBy (D.disk disk.old) archive.old s
        → TakesBy s (spelling (entries.Delete doc at)) result (D.disk disk.old) (D.disk disk.new) archive.new }
{
    taken(delete(alloc, disk, archive, doc, at))
}

/// Takes the mark of a journal that may have batches.
pub(crate) fn take_mark<D: Disk>(
    alloc: Global,
    disk: &mut D,
    archive: &mut Archive,
) -> Result<u64, TakeEntryError>
    requires live { IsTrue archive.old.live }
    requires within { Reaches (D.disk disk.old).reach archive.old }
    ensures only { D.Disk.only disk.old disk.new }
    ensures after { AfterTaking D.disk_tells (disk.new ≡ disk.old) result (D.disk disk.old) (D.disk disk.new) archive.old archive.new }
    ensures takes { (h : History) → StandsFor archive.old h → TakesBody h (spelling entries.Format) result archive.new }
    ensures by_reads { D.disk_tells → (s : Store) → AreInStepBy (D.disk disk.old) archive.old s
        → TakesBy s (spelling entries.Format) result (D.disk disk.old) (D.disk disk.new) archive.new }
{
    taken(mark_format(alloc, disk, archive))
}

/// What comes of an entry by what came of the change that it makes.
pub(crate) fn taken(made: Result<u64, ChangeError>) -> Result<u64, TakeEntryError>
    ensures { result ≡ as_taken made }
{
    match made {
        Ok(length) => Ok(length),
        Err(ChangeError::Refused(_)) => Err(TakeEntryError::NotNext),
        Err(ChangeError::Failed) => Err(TakeEntryError::Failed),
        Err(ChangeError::Memory) => Err(TakeEntryError::Memory),
    }
}
