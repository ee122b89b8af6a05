//! Preparing a batch: the tests of its items, each behind those before it, and the spelling of its entry;
//! and what a directory and an index take of one that may come.
ghost use Rattle.std.specs.Prelude.{◌≡◌, ◌+◌, ◌<◌, ◌≤◌, ◌^◌, ◌++◌, ◌∷◌, [], ℕ, List, length, map, Some, None, IfOk, OnOk, IsErrOf, MatchResult};
ghost use Rattle.base_commands.specs.Batches.{texts_bytes};
ghost use Rattle.base_types.specs.declared.text_place.TextPlace.{TextPlace as PlainPlace};
ghost use Rattle.journal_gates.specs.Records.{first_gate};
ghost use Rattle.journal_entries.specs.Acts.{most_text};
ghost use Rattle.journal_entries.specs.declared.act.Act.{Act};
ghost use Rattle.journal_entries.specs.declared.act.Act.TheVariants as acts;
ghost use Rattle.journal_entries.specs.declared.entry.Entry.TheVariants as entries;
ghost use Rattle.lists_index.specs.Indexes.{state_of, Indexes};
ghost use Rattle.lists_versions.specs.Coming.{AreCounted};
ghost use Rattle.lists_versions.specs.declared.change.Change.{Change as PlainChange};
ghost use Rattle.model_archive.specs.Histories.{History, act_refusal, change_by, changes, end_of, entry_refusal, is_marked, singles};
ghost use Rattle.model_archive.specs.Legal.{IsLoadable};
ghost use Rattle.model_archive.specs.Steps.{act_of, first_other, item_refusal, text_held, text_refusal};
ghost use Rattle.archive_entries.specs.Batches.{AreAllowed, AreGathered, AreOf, AreReady, EachMayFollow, IsPreparedBatch};
ghost use Rattle.archive_entries.specs.Places.{ArePlaced};

use crate::change::{ACT_TEXT_AT, note, placed};
use crate::error::{BatchDeclined, Declined};
use crate::preparing::full_words;
use crate::text::text_of;
use base_commands::{BatchItem, Text};
use base_types::{DocId, TextPlace, Time};
use journal_entries::{MOST_TEXT_BYTES, begin_batch, put_arrival, put_deletion};
use lists_index::{Index, NewWords};
use lists_versions::{Change, Coming, Directory};
use model_archive::Refusal;
use std::alloc::{AllocError, Global};
use text_words::NumberError;

/// Where the body of the next entry begins behind the journal's end, whose last byte is the entry's gate.
const BODY_AT: u64 = 4;

/// What an index takes of an act of a batch that is to come next.
#[derive(Drop)]
pub struct NextWords {
    /// The time of its change.
    pub at: Time,
    /// What the index needs of its text.
    pub words: lists_index::Prepared,
}

/// A batch that may come next. It keeps 8 bytes for each distinct word of each text, and each word that the
/// index hasn't once.
#[derive(Drop)]
pub struct PreparedBatch {
    /// The changes of its acts in order, with the places that their texts will have in the journal.
    pub changes: Vec<Change<TextPlace>>,
    /// What the index takes of each, to be made in this order.
    pub words: Vec<NextWords>,
    /// The spelling of its entry.
    pub body: Vec<u8>,
}

/// The acts of a batch so far.
#[derive(Drop)]
pub(crate) struct Gathered {
    coming: Coming,
    words: NewWords,
    ready: Vec<NextWords>,
    body: Vec<u8>,
}

impl Gathered {
    /// No act yet of a batch of so many.
    fn new(alloc: Global, count: u32) -> Result<Gathered, AllocError>
        ensures gathered { IfOk result (λ b. (before : List (PlainChange PlainPlace)) (end : ℕ) → AreGathered before end count [] b) }
        ensures allowed { IfOk result (λ b. (h : History) → AreAllowed h [] b) }
    {
        Ok(Gathered {
            coming: Coming::new(alloc),
            words: NewWords::new(alloc)?,
            ready: Vec::new(alloc),
            body: begin_batch(alloc, count, 0)?,
        })
    }

    /// Adds the act that an item is, if it may come behind the others.
    fn add(
        &mut self,
        alloc: Global,
        directory: &Directory,
        index: &mut Index,
        end: u64,
        item: &BatchItem,
    ) -> Result<(), Declined>
        requires end { end ≤ 2 ^ 40 }
        requires counted { AreCounted directory.now.changes self.old.coming }
        ensures same { state_of index.new ≡ state_of index.old }
        ensures gathered { OnOk result ((count : ℕ) (batch : List Act) → AreGathered directory.now.changes end count batch self.old
            → AreGathered directory.now.changes end count (batch ++ act_of item.now) self.new) }
        ensures allowed { OnOk result ((h : History) (count : ℕ) (batch : List Act) → AreOf h directory.now.changes (state_of index.old) end
            → AreGathered directory.now.changes end count batch self.old → AreAllowed h batch self.old
            → AreAllowed h (batch ++ act_of item.now) self.new × (item_refusal (h ++ singles batch) item.now ≡ None)) }
        ensures refused { (why : Refusal) → IsErrOf result (Declined.Refused why) → (h : History) (count : ℕ) (batch : List Act)
            → AreOf h directory.now.changes (state_of index.old) end → AreGathered directory.now.changes end count batch self.old
            → AreAllowed h batch self.old → item_refusal (h ++ singles batch) item.now ≡ Some why }
    {
        match item {
            BatchItem::Arrive { doc, at, text } => {
                let text = content_of(text)?;
                self.arrive(alloc, directory, index, end, *doc, *at, text)
            }
            BatchItem::Delete { doc, at } => self.delete(alloc, directory, index, *doc, *at),
            BatchItem::Other => Ok(()),
        }
    }

    /// Adds an arrival, if it may come behind the others.
    fn arrive(
        &mut self,
        alloc: Global,
        directory: &Directory,
        index: &mut Index,
        end: u64,
        doc: DocId,
        at: Time,
        text: &str,
    ) -> Result<(), Declined>
        requires end { end ≤ 2 ^ 40 }
        requires short { length text.now ≤ MOST_TEXT_BYTES }
        requires counted { AreCounted directory.now.changes self.old.coming }
        ensures same { state_of index.new ≡ state_of index.old }
        ensures gathered { OnOk result ((count : ℕ) (batch : List Act) → AreGathered directory.now.changes end count batch self.old
            → AreGathered directory.now.changes end count (batch ++ acts.Arrive doc at text.now ∷ []) self.new) }
        ensures allowed { OnOk result ((h : History) (count : ℕ) (batch : List Act) → AreOf h directory.now.changes (state_of index.old) end
            → AreGathered directory.now.changes end count batch self.old → AreAllowed h batch self.old
            → AreAllowed h (batch ++ acts.Arrive doc at text.now ∷ []) self.new
            × (act_refusal (h ++ singles batch) (acts.Arrive doc at text.now) ≡ None)) }
        ensures refused { (why : Refusal) → IsErrOf result (Declined.Refused why) → (h : History) (count : ℕ) (batch : List Act)
            → AreOf h directory.now.changes (state_of index.old) end → AreGathered directory.now.changes end count batch self.old
            → AreAllowed h batch self.old → act_refusal (h ++ singles batch) (acts.Arrive doc at text.now) ≡ Some why }
    {
        let text_at = end + BODY_AT + self.body.len() as u64 + ACT_TEXT_AT;
        let change = Change {
            doc,
            at,
            held: Some(text.len() as u32),
        };
        let change = placed(change, text_at);
        match self.coming.may_come(directory, &change) {
            Ok(()) => {}
            Err(why) => return Err(Declined::Refused(why.into())),
        }
        let words = match self.words.add(alloc, index, doc, Some(text)) {
            Ok(words) => words,
            Err(NumberError::Full) => return Err(Declined::Refused(full_words())),
            Err(NumberError::Memory) => return Err(Declined::Memory),
        };
        put_arrival(&mut self.body, doc, at, text)?;
        self.keep(directory, change, NextWords { at, words })?;
        Ok(())
    }

    /// Adds a deletion, if it may come behind the others.
    fn delete(
        &mut self,
        alloc: Global,
        directory: &Directory,
        index: &mut Index,
        doc: DocId,
        at: Time,
    ) -> Result<(), Declined>
        requires counted { AreCounted directory.now.changes self.old.coming }
        ensures same { state_of index.new ≡ state_of index.old }
        ensures gathered { OnOk result ((end count : ℕ) (batch : List Act) → AreGathered directory.now.changes end count batch self.old
            → AreGathered directory.now.changes end count (batch ++ acts.Delete doc at ∷ []) self.new) }
        ensures allowed { OnOk result ((h : History) (end count : ℕ) (batch : List Act)
            → AreOf h directory.now.changes (state_of index.old) end → AreGathered directory.now.changes end count batch self.old
            → AreAllowed h batch self.old
            → AreAllowed h (batch ++ acts.Delete doc at ∷ []) self.new × (act_refusal (h ++ singles batch) (acts.Delete doc at) ≡ None)) }
        ensures refused { (why : Refusal) → IsErrOf result (Declined.Refused why) → (h : History) (end count : ℕ) (batch : List Act)
            → AreOf h directory.now.changes (state_of index.old) end → AreGathered directory.now.changes end count batch self.old
            → AreAllowed h batch self.old → act_refusal (h ++ singles batch) (acts.Delete doc at) ≡ Some why }
    {
        let change = Change {
            doc,
            at,
            held: None,
        };
        match self.coming.may_come(directory, &change) {
            Ok(()) => {}
            Err(why) => return Err(Declined::Refused(why.into())),
        }
        let Ok(words) = self.words.add(alloc, index, doc, None) else {
            return Err(Declined::Memory);
        };
        put_deletion(&mut self.body, doc, at)?;
        self.keep(directory, change, NextWords { at, words })?;
        Ok(())
    }

    /// Keeps an act: its change, and what an index takes of it.
    fn keep(
        &mut self,
        directory: &Directory,
        change: Change<TextPlace>,
        next: NextWords,
    ) -> Result<(), AllocError>
        requires counted { AreCounted directory.now.changes self.old.coming }
        ensures counted { OnOk result (AreCounted directory.now.changes self.new.coming) }
        ensures changes { OnOk result (self.new.coming.changes.items ≡ self.old.coming.changes.items ++ change ∷ []) }
        ensures ready { OnOk result (self.new.ready.items ≡ self.old.ready.items ++ next ∷ []) }
        ensures others { (self.new.words ≡ self.old.words) × (self.new.body ≡ self.old.body) }
    {
        self.coming.add(directory, change)?;
        self.ready.reserve(1)?;
        self.ready.push_reserved(next);
        Ok(())
    }
}

/// The text of an item, or why it is no version's. Costs its length.
fn content_of(text: &Text) -> Result<&str, Refusal>
    ensures { MatchResult result (λ t. (t.now ≡ text_held text.now) × (length t.now ≤ most_text) × (text_refusal text.now ≡ None))
        (λ why. text_refusal text.now ≡ Some why) }
{
    match text {
        Text::Bytes(text) => text_of(text.as_slice()),
        Text::TooLong { .. } => Err(Refusal::TooLong {
            limit: MOST_TEXT_BYTES as u64,
        }),
    }
}

/// Prepares a batch behind an archive that ends at this place of the journal; `marked` tells whether the
/// archive has the mark. Nothing is changed.
///
/// `Refused`: for the first cause in order, the archive has no mark; an item is neither an arrival nor a
/// deletion; or an item is refused behind those before it, as an arrival or a deletion of its own. The
/// journal's room isn't asked. `Memory`: an allocation failed.
/// Costs the words of the texts, each of which is read once, and six look-ups an item at most. What is kept until
/// the batch is made takes 8 bytes for each distinct word of each text.
pub fn prepare_batch(
    alloc: Global,
    directory: &Directory,
    index: &mut Index,
    marked: bool,
    end: u64,
    items: &[BatchItem],
) -> Result<PreparedBatch, BatchDeclined>
    requires sized { (1 ≤ length items.now) × (length items.now ≤ 1000) }
    requires short { texts_bytes items.now ≤ 16777216 }
    requires end { end ≤ 2 ^ 40 }
    ensures same { state_of index.new ≡ state_of index.old }
    ensures fits { IfOk result (λ p. length p.body.items < 2 ^ 32) }
    ensures allowed { IfOk result (λ p. EachMayFollow directory.now.changes p.changes.items) }
    ensures prepared { (h : History) → ArePlaced first_gate h directory.now.changes → Indexes (state_of index.old) (changes h)
        → marked ≡ is_marked h → end ≡ end_of h → IsPreparedBatch h items.now result }
{
    if !marked {
        return Err(whole(Refusal::OldFormat));
    }
    if let Some(index) = first_other(items) {
        return Err(whole(Refusal::BatchLine { index }));
    }
    let mut batch = Gathered::new(alloc, items.len() as u32)?;
    let mut number = 0;
    for item in items {
        number += 1;
        match batch.add(alloc, directory, index, end, item) {
            Ok(()) => {}
            Err(Declined::Refused(why)) => {
                return Err(BatchDeclined::Refused {
                    why,
                    index: Some(number),
                });
            }
            Err(Declined::Memory) => return Err(BatchDeclined::Memory),
        }
    }
    let Gathered {
        coming,
        ready,
        body,
        ..
    } = batch;
    let changes = Vec::from_slice(alloc, coming.as_slice())?;
    Ok(PreparedBatch {
        changes,
        words: ready,
        body,
    })
}

/// A refusal of the whole batch.
fn whole(why: Refusal) -> BatchDeclined
    ensures { result ≡ BatchDeclined.Refused why None }
{
    BatchDeclined::Refused { why, index: None }
}

/// The number of the first item that is neither an arrival nor a deletion, from 1.
fn first_other(items: &[BatchItem]) -> Option<u32>
    requires { length items.now ≤ 1000 }
    ensures { result ≡ first_other 1 items.now }
{
    let mut number = 0;
    for item in items {
        number += 1;
        if let BatchItem::Other = item {
            return Some(number);
        }
    }
    None
}

/// Adds the changes of a batch that may come, for which there is room. It costs two look-ups an act.
pub fn note_all(directory: &mut Directory, changes: &[Change<TextPlace>])
    requires allowed { EachMayFollow directory.old.changes changes.now }
    requires room { length changes.now ≤ directory.old.room }
    ensures { directory.new.changes ≡ directory.old.changes ++ changes.now }
{
    for change in changes {
        note(directory, *change);
    }
}

/// Makes the changes of a batch that may come next. After an `Err` the index may have the first of them.
/// No text is read. It costs what `Index::take_in` does for each.
pub fn take_in_all(index: &mut Index, words: Vec<NextWords>) -> Result<(), NumberError>
    ensures taken { OnOk result ((h : History) (batch : List Act) → IsLoadable h → entry_refusal h (entries.Batch batch) ≡ None
        → AreReady (changes h) (map change_by batch) words.items
        → Indexes (state_of index.old) (changes h) → Indexes (state_of index.new) (changes (h ++ entries.Batch batch ∷ []))) }
{
    for next in words {
        index.take_in(next.words, next.at)?;
    }
    Ok(())
}
