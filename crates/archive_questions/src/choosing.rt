//! Which postings are read for a query.
ghost use Rattle.std.specs.Prelude.{◌≡◌, ◌<◌, ◌+◌, ◌^◌, ◌++◌, ◌↔◌, length, IfOk, OnOk, IsErrOf, IsTrue};
ghost use Rattle.model_archive.specs.Histories.{History};
ghost use Rattle.model_archive.specs.Plans.{plan_of};
ghost use Rattle.model_archive.specs.Chosen.{AreChosen, IsChosenOf, IsDamagedFor, IsTailFor, pieces_chosen};
ghost use Rattle.archive_questions.specs.After.{AfterFetching, Fetches};
ghost use Rattle.archive_hand.specs.Asking.{HasAsked};
ghost use Rattle.archive_hand.specs.States.{StandsFor, CacheStands, Reaches};

use archive_hand::Archive;
use base_types::{Key, NOW, Posting, Span, Time};
use lists_index::ListPart;
use lists_postings::clip;
use machine_model::Disk;
use pages_sublists::{Damage, FetchError, Gathered};
use query_eval::Part;
use std::alloc::{AllocError, Global};

/// The most postings of a part. Pages have no more bytes, and a list no more postings, so more are
/// never read.
const MOST_READ: u64 = 1 << 40;

/// What is chosen of the lists of words for a window, in order: of a word with a plan the sublists
/// of the segments that overlap the window, from Pages, and its list from the horizon on; of
/// another word its whole list.
/// Costs the fetches of these sublists, and a pass over each list in memory that is read.
pub(crate) fn parts_of<D: Disk>(
    alloc: Global,
    disk: &mut D,
    archive: &mut Archive,
    words: &[Key],
    span: Span,
) -> Result<Vec<Part>, FetchError>
    requires within { Reaches (D.disk disk.old).reach archive.old }
    ensures only { D.Disk.only disk.old disk.new }
    ensures after { AfterFetching D.disk_tells result (D.disk disk.old) (D.disk disk.new) archive.old archive.new }
    ensures many { IfOk result (λ parts. length parts.items ≡ length words.now) }
    ensures fetched { Fetches D.disk_tells span.from span.to words.now
        (λ h parts. AreChosen h (D.disk disk.old).holds.pages span.from span.to words.now parts.items)
        result (D.disk disk.old) (D.disk disk.new) archive.old archive.new }
{
    let mut parts = Vec::new(alloc);
    for word in words {
        let part = part_of(alloc, disk, archive, word, span)?;
        match parts.push(part) {
            Ok(()) => {}
            Err(_) => return Err(FetchError::Memory),
        }
    }
    Ok(parts)
}

/// What is chosen of a word's list for a window.
pub(crate) fn part_of<D: Disk>(
    alloc: Global,
    disk: &mut D,
    archive: &mut Archive,
    word: &Key,
    span: Span,
) -> Result<Part, FetchError>
    requires within { Reaches (D.disk disk.old).reach archive.old }
    ensures only { D.Disk.only disk.old disk.new }
    ensures after { AfterFetching D.disk_tells result (D.disk disk.old) (D.disk disk.new) archive.old archive.new }
    ensures chosen { D.disk_tells → (h : History) → StandsFor archive.old h → CacheStands (D.disk disk.old) archive.old →
        IfOk result (λ part. IsChosenOf h (D.disk disk.old).holds.pages word.now (plan_of h word.now) span.from span.to part.list.items
        part.read) }
    ensures asked { D.disk_tells → (h : History) → StandsFor archive.old h → CacheStands (D.disk disk.old) archive.old →
        OnOk result (HasAsked (pieces_chosen (D.disk disk.old).holds.pages (plan_of h word.now) span.from span.to) archive.old.shelf.cache
        archive.new.shelf.cache (D.disk disk.old) (D.disk disk.new)) }
    ensures damaged { D.disk_tells → (h : History) → StandsFor archive.old h → CacheStands (D.disk disk.old) archive.old → (d : Damage)
        → IsErrOf result (FetchError.Damaged d) → IsDamagedFor h (D.disk disk.old).holds.pages word.now span.from span.to d }
{
    let Some(at) = archive.shelf().position(word) else {
        let part = archive.index().part_in(alloc, word, span)?;
        return Ok(whole_part(part));
    };
    let horizon = archive.shelf().plans()[at].plan.horizon;
    let stored = archive.gather(alloc, disk, at, span)?;
    let tail = tail_of(alloc, archive, word, horizon, span)?;
    let part = with_tail(stored, &tail)?;
    Ok(part)
}

/// A word's list from a horizon on, where a window reaches past that. A posting that began before
/// begins there: what was before is for the stored sublists to say.
pub(crate) fn tail_of(
    alloc: Global,
    archive: &Archive,
    word: &Key,
    horizon: Time,
    span: Span,
) -> Result<Vec<Posting>, AllocError>
    ensures { (h : History) → StandsFor archive.now h → IfOk result (λ tail. IsTailFor h word.now span.to horizon.seconds tail.items) }
{
    if span.to <= horizon.seconds {
        return Ok(Vec::new(alloc));
    }
    let later = from_on(horizon);
    let part = archive.index().part_in(alloc, word, later)?;
    let tail = clip(alloc, &part.rows, later)?;
    Ok(tail)
}

/// All of a list in a window; the whole list was read for it.
fn whole_part(part: ListPart) -> Part
    ensures list { result.list.items ≡ part.rows.items }
    ensures read { result.read ≡ part.whole }
{
    let ListPart { rows, whole } = part;
    Part {
        read: whole,
        list: rows,
    }
}

/// What was gathered, and a tail behind it. More than can be there is answered as out of memory.
fn with_tail(stored: Gathered, tail: &[Posting]) -> Result<Part, AllocError>
    ensures list { IfOk result (λ part. part.list.items ≡ stored.list.items ++ tail.now) }
    ensures read { IfOk result (λ part. part.read ≡ stored.read + length tail.now) }
{
    let Gathered { list, read } = stored;
    let mut list = list;
    list.extend_from_slice(tail)?;
    let more = tail.len() as u64;
    if are_too_many(read, more) {
        return Err(AllocError);
    }
    Ok(Part {
        list,
        read: read + more,
    })
}

/// Whether so many postings and so many more are too many to be told. Constant cost.
fn are_too_many(read: u64, more: u64) -> bool
    ensures { IsTrue result ↔ (2 ^ 40 < read + more) }
{
    read > MOST_READ || more > MOST_READ - read
}

/// All times from one on.
fn from_on(t: Time) -> Span
    ensures from { result.from ≡ t.seconds }
    ensures to { result.to ≡ 2 ^ 40 }
{
    Span {
        from: t.seconds,
        to: NOW,
    }
}

/// The window of one second.
pub(crate) fn moment(t: Time) -> Span
    ensures from { result.from ≡ t.seconds }
    ensures to { result.to ≡ t.seconds + 1 }
{
    Span {
        from: t.seconds,
        to: t.seconds + 1,
    }
}
