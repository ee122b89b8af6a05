//! Preparing a change: the tests of it that need no disk, and the spelling of its entry.
ghost use Rattle.std.specs.Prelude.{◌≡◌, ◌<◌, ◌^◌, length, IfOk};
ghost use Rattle.base_types.specs.Limits.{limit_of};
ghost use Rattle.journal_gates.specs.Records.{first_gate};
ghost use Rattle.model_archive.specs.Histories.{History, changes};
ghost use Rattle.lists_index.specs.Indexes.{state_of, Indexes};
ghost use Rattle.model_archive.specs.Steps.{arrival_refusal, deletion_refusal};
ghost use Rattle.journal_entries.specs.declared.entry.Entry.TheVariants as entries;
ghost use Rattle.archive_entries.specs.Places.{ArePlaced};
ghost use Rattle.lists_versions.specs.Refusals.{change_refusal};
ghost use Rattle.archive_entries.specs.Entries.{IsPrepared};

use crate::change::may_come;
use crate::error::Declined;
use crate::text::text_of;
use base_types::{DocId, Time, Which};
use journal_entries::{encode_arrival, encode_deletion};
use lists_index::Index;
use lists_versions::{Change, Directory};
use model_archive::Refusal;
use std::alloc::Global;
use text_words::NumberError;

/// A change that may come next, with the length of its text, its entry's spelling, and what the
/// index needs of its text.
#[derive(Drop)]
pub struct Prepared {
    /// The change, with the length of its text in bytes.
    pub change: Change<u32>,
    /// The spelling of its entry.
    pub body: Vec<u8>,
    /// What the index needs of its text.
    pub words: lists_index::Prepared,
}

/// The refusal of a text with which there would be too many words.
pub(crate) fn full_words() -> Refusal
    ensures { result ≡ Refusal.Full Which.Words (limit_of Which.Words) }
{
    Refusal::Full {
        which: Which::Words,
        limit: Which::Words.limit(),
    }
}

/// Prepares a version of a document. Nothing is changed.
///
/// `Refused`: for the first cause in order, the text is too long, isn't UTF-8, the time lies before the
/// last one, the document's latest change has this time, or the documents, the versions or the words are
/// full; the journal's room isn't asked. `Memory`: an allocation failed.
/// Costs the text's words and a look-up.
pub fn prepare_arrival(
    alloc: Global,
    directory: &Directory,
    index: &mut Index,
    doc: DocId,
    at: Time,
    text: &[u8],
) -> Result<Prepared, Declined>
    ensures same { state_of index.new ≡ state_of index.old }
    ensures fits { IfOk result (λ p. length p.body.items < 2 ^ 32) }
    ensures allowed { IfOk result (λ p. change_refusal p.change directory.now.changes ≡ None) }
    ensures prepared { (h : History) → ArePlaced first_gate h directory.now.changes → Indexes (state_of index.old) (changes h)
        → IsPrepared h (state_of index.old) (entries.Arrive doc at text.now) (arrival_refusal h doc at text.now) result }
{
    let text = match text_of(text) {
        Ok(text) => text,
        Err(why) => return Err(Declined::Refused(why)),
    };
    let change = Change {
        doc,
        at,
        held: Some(text.len() as u32),
    };
    match may_come(directory, change) {
        Ok(()) => {}
        Err(why) => return Err(Declined::Refused(why.into())),
    }
    let words = match index.prepare(alloc, doc, Some(text)) {
        Ok(words) => words,
        Err(NumberError::Full) => return Err(Declined::Refused(full_words())),
        Err(NumberError::Memory) => return Err(Declined::Memory),
    };
    let body = encode_arrival(alloc, doc, at, text)?;
    Ok(Prepared {
        change,
        body,
        words,
    })
}

/// Prepares the end of a document's newest version. Nothing is changed.
///
/// `Refused`: for the first cause in order, the time lies before the last one, the document has no version
/// or its latest is a tombstone, its latest version has this time, or the versions are full; the journal's
/// room isn't asked. `Memory`: an allocation failed.
/// Costs a look-up.
pub fn prepare_deletion(
    alloc: Global,
    directory: &Directory,
    index: &mut Index,
    doc: DocId,
    at: Time,
) -> Result<Prepared, Declined>
    ensures same { state_of index.new ≡ state_of index.old }
    ensures fits { IfOk result (λ p. length p.body.items < 2 ^ 32) }
    ensures allowed { IfOk result (λ p. change_refusal p.change directory.now.changes ≡ None) }
    ensures prepared { (h : History) → ArePlaced first_gate h directory.now.changes → Indexes (state_of index.old) (changes h)
        → IsPrepared h (state_of index.old) (entries.Delete doc at) (deletion_refusal h doc at) result }
{
    let change = Change {
        doc,
        at,
        held: None,
    };
    match may_come(directory, change) {
        Ok(()) => {}
        Err(why) => return Err(Declined::Refused(why.into())),
    }
    let Ok(words) = index.prepare(alloc, doc, None) else {
        return Err(Declined::Memory);
    };
    let body = encode_deletion(alloc, doc, at)?;
    Ok(Prepared {
        change,
        body,
        words,
    })
}

/// The refusal of an entry for which the journal has no room. Constant cost.
pub fn full_journal() -> Refusal
    ensures { result ≡ Refusal.Full Which.Journal (limit_of Which.Journal) }
{
    Refusal::Full {
        which: Which::Journal,
        limit: Which::Journal.limit(),
    }
}
