//! Changes of documents, an arrival and a deletion; and the mark of a journal that may have batches.
ghost use Rattle.std.specs.Prelude.{◌≡◌, ◌<◌, ◌^◌, length, Option, None, IsTrue, IfOk, OnOk};
ghost use Rattle.journal_gates.specs.Crash.{KeepsPages};
ghost use Rattle.model_archive.specs.Histories.{History};
ghost use Rattle.model_archive.specs.Steps.{arrival_refusal, deletion_refusal, mark_refusal};
ghost use Rattle.archive_hand.specs.States.{StandsFor, AreInStepBy, Reaches, with_entry};
ghost use Rattle.archive_hand.specs.Changing.{LeadsBy};
ghost use Rattle.archive_hand.specs.Stored.{Store};
ghost use Rattle.archive_hand.specs.Takes.{TakesBy};
ghost use Rattle.archive_changes.specs.Endings.{changed};
ghost use Rattle.journal_entries.specs.declared.entry.Entry.{Entry};
ghost use Rattle.archive_changes.specs.Adding.{Adds};
ghost use Rattle.archive_changes.specs.After.{AfterChange};
ghost use Rattle.archive_hand.specs.Adding.{IsSpent};
ghost use Rattle.archive_entries.specs.Entries.{IsPrepared};
ghost use Rattle.lists_versions.specs.Refusals.{change_refusal};
ghost use Rattle.journal_entries.specs.declared.entry.Entry.TheVariants as entries;
ghost use Rattle.base_commands.specs.declared.command.Command.TheVariants as commands;
ghost use Rattle.base_commands.specs.declared.command.Item.TheVariants as items;
ghost use Rattle.base_commands.specs.declared.text.Text.TheVariants as texts;

use archive_entries::{Declined, Prepared};
use archive_hand::{Archive, ChangeError};
use base_types::{DocId, Time};
use machine_model::Disk;
use model_archive::Refusal;
use std::alloc::Global;

/// Adds a version of a document, and answers how many entries there are. At `Ok` the entry is
/// durable: each image that a stop may leave has it. All memory is taken before the first write.
///
/// `Refused`: it isn't allowed, for the first cause in order: the text is too long, the text
/// isn't UTF-8, the time lies before the last one, the document's latest change has this time,
/// or the documents, the versions, the words or the journal are full. Nothing was changed.
/// `Failed`, `Memory`: the archive is spent, and keeps what it had.
/// Costs the text's words, with a look-up in the index for each and a move of the later postings of
/// each whose frequency changes; two look-ups of the document; and two synced writes.
pub fn arrive<D: Disk>(
    alloc: Global,
    disk: &mut D,
    archive: &mut Archive,
    doc: DocId,
    at: Time,
    text: &[u8],
) -> Result<u64, ChangeError>
    requires live { IsTrue archive.old.live }
    requires within { Reaches (D.disk disk.old).reach archive.old }
    ensures only { D.Disk.only disk.old disk.new }
    ensures after { AfterChange IsSpent D.disk_tells ((archive.new ≡ archive.old) × (disk.new ≡ disk.old)) (disk.new ≡ disk.old) result
        (D.disk disk.old) (D.disk disk.new) archive.old archive.new }
    // On any disk: a refusal is the first cause in order, comes wherever there is one (unless memory runs out), and changes nothing; at Ok
    // the archive stands for the history with the new entry, and answers how many entries there are.
    ensures adds { (h : History) → StandsFor archive.old h
        → Adds h (entries.Arrive doc at text.now) (arrival_refusal h doc at text.now) result archive.new }
    // In step by what reads give, whatever lies in Pages, it is a step; each image left since stands for what was before it or after it.
    ensures by_reads { D.disk_tells → (s : Store) → AreInStepBy (D.disk disk.old) archive.old s
        → TakesBy s (items.Command (commands.Arrive doc at (texts.Bytes text.now))) (changed result) (D.disk disk.old)
        (D.disk disk.new) archive.new }
    ensures pages { D.disk_tells → KeepsPages (D.disk disk.old) (D.disk disk.new) }
{
    let prepared = archive.arrival(alloc, doc, at, text);
    add(alloc, disk, archive, prepared)
}

/// Ends the document's newest version, and answers how many entries there are. At `Ok` the entry
/// is durable: each image that a stop may leave has it. All memory is taken before the first
/// write.
///
/// `Refused`: it isn't allowed, for the first cause in order: the time lies before the last one,
/// the document has no version or its latest is a tombstone, its latest version has this time,
/// or the versions or the journal are full. Nothing was changed.
/// `Failed`, `Memory`: the archive is spent, and keeps what it had.
/// Costs, for each word of the document's newest version, a look-up in the index and a move of its
/// later postings; two look-ups of the document; and two synced writes.
pub fn delete<D: Disk>(
    alloc: Global,
    disk: &mut D,
    archive: &mut Archive,
    doc: DocId,
    at: Time,
) -> Result<u64, ChangeError>
    requires live { IsTrue archive.old.live }
    requires within { Reaches (D.disk disk.old).reach archive.old }
    ensures only { D.Disk.only disk.old disk.new }
    ensures after { AfterChange IsSpent D.disk_tells ((archive.new ≡ archive.old) × (disk.new ≡ disk.old)) (disk.new ≡ disk.old) result
        (D.disk disk.old) (D.disk disk.new) archive.old archive.new }
    // On any disk: a refusal is the first cause in order, comes wherever there is one (unless memory runs out), and changes nothing; at Ok
    // the archive stands for the history with the new entry, and answers how many entries there are.
    ensures adds { (h : History) → StandsFor archive.old h → Adds h (entries.Delete doc at) (deletion_refusal h doc at) result archive.new }
    // In step by what reads give, whatever lies in Pages, it is a step; each image left since stands for what was before it or after it.
    ensures by_reads { D.disk_tells → (s : Store) → AreInStepBy (D.disk disk.old) archive.old s
        → TakesBy s (items.Command (commands.Delete doc at)) (changed result) (D.disk disk.old) (D.disk disk.new) archive.new }
    ensures pages { D.disk_tells → KeepsPages (D.disk disk.old) (D.disk disk.new) }
{
    let prepared = archive.deletion(alloc, doc, at);
    add(alloc, disk, archive, prepared)
}

/// Marks the journal as one that may have batches, and answers how many entries there are. At `Ok` the
/// mark is durable: each image that a stop may leave has it. All memory is taken before the first write.
///
/// `Refused`: for the first cause in order, the journal has the mark, or it is full. Nothing was changed.
/// `Failed`, `Memory`: the archive is spent, and keeps what it had.
/// Costs two synced writes.
pub fn mark_format<D: Disk>(
    alloc: Global,
    disk: &mut D,
    archive: &mut Archive,
) -> Result<u64, ChangeError>
    requires live { IsTrue archive.old.live }
    requires within { Reaches (D.disk disk.old).reach archive.old }
    ensures only { D.Disk.only disk.old disk.new }
    ensures after { AfterChange IsSpent D.disk_tells ((archive.new ≡ archive.old) × (disk.new ≡ disk.old)) (disk.new ≡ disk.old) result
        (D.disk disk.old) (D.disk disk.new) archive.old archive.new }
    // On any disk: a refusal is the first cause in order, comes wherever there is one (unless memory runs out), and changes nothing; at Ok
    // the archive stands for the history with the new entry, and answers how many entries there are.
    ensures adds { (h : History) → StandsFor archive.old h → Adds h entries.Format (mark_refusal h) result archive.new }
    // In step by what reads give, whatever lies in Pages, it is a step; each image left since stands for what was before it or after it.
    ensures by_reads { D.disk_tells → (s : Store) → AreInStepBy (D.disk disk.old) archive.old s
        → TakesBy s (items.Command commands.Format) (changed result) (D.disk disk.old) (D.disk disk.new) archive.new }
    ensures pages { D.disk_tells → KeepsPages (D.disk disk.old) (D.disk disk.new) }
{
    archive.mark(alloc, disk)
}

// Adds what was prepared, or hands on why it was not.
fn add<D: Disk>(
    alloc: Global,
    disk: &mut D,
    archive: &mut Archive,
    prepared: Result<Prepared, Declined>,
) -> Result<u64, ChangeError>
    requires live { IsTrue archive.old.live }
    requires within { Reaches (D.disk disk.old).reach archive.old }
    requires fits { IfOk prepared (λ p. length p.body.items < 2 ^ 32) }
    requires allowed { IfOk prepared (λ p. change_refusal p.change archive.old.changes ≡ None) }
    requires next { (h : History) → StandsFor archive.old h → (entry : Entry) × (refusal : Option Refusal)
        × IsPrepared h archive.old.index entry refusal prepared }
    ensures only { D.Disk.only disk.old disk.new }
    ensures after { AfterChange IsSpent D.disk_tells ((archive.new ≡ archive.old) × (disk.new ≡ disk.old)) (disk.new ≡ disk.old) result
        (D.disk disk.old) (D.disk disk.new) archive.old archive.new }
    ensures adds { (h : History) (entry : Entry) (refusal : Option Refusal) → StandsFor archive.old h
        → IsPrepared h archive.old.index entry refusal prepared → Adds h entry refusal result archive.new }
    ensures by_reads { D.disk_tells → (s : Store) (entry : Entry) (refusal : Option Refusal) → AreInStepBy (D.disk disk.old) archive.old s
        → IsPrepared s.history archive.old.index entry refusal prepared →
        LeadsBy s (with_entry s entry s.pages archive.new (D.disk disk.new)) (D.disk disk.old) (D.disk disk.new)
        × OnOk result (AreInStepBy (D.disk disk.new) archive.new (with_entry s entry s.pages archive.new (D.disk disk.new))) }
    ensures pages { D.disk_tells → KeepsPages (D.disk disk.old) (D.disk disk.new) }
{
    match prepared {
        Ok(prepared) => archive.commit(alloc, disk, prepared),
        Err(why) => Err(archive.give_up(why)),
    }
}
