//! Answers to queries over a window of time.
ghost use Rattle.std.specs.Prelude.{◌≡◌, ◌⊎◌, ◌+◌, ◌<◌, ◌≤◌, ℕ, Bool, true, false, List, Ok, Some, None, Option, length, drop, slice_index_or, IfOk, OnOk, MatchOption};
ghost use Rattle.std.specs.List.Sorted.{IsNonDecreasingBy};
ghost use Rattle.lists_postings.specs.Events.{end_of};
ghost use Rattle.lists_postings.specs.Kinds.{is_alive};
ghost use Rattle.lists_postings.specs.Stretches.{AreStretches};
ghost use Rattle.lists_postings.specs.declared.event.Event.{Event as EventValue};
ghost use Rattle.query_lang.specs.Meaning.{matches, words_of};
ghost use Rattle.base_types.specs.declared.ids.DocId.{DocId as DocValue};
ghost use Rattle.query_eval.specs.Facts.{alive_now, hits_now, score_if, IsScored, TellWords};
ghost use Rattle.query_eval.specs.Found.{told, HasHit, read_of};
ghost use Rattle.query_eval.specs.Spans.{row_kind, IsSpanAnswer};

use crate::facts::{Fact, events_of, facts_by_doc, group_of};
use crate::found::{read_of, row_by};
use crate::hit::Hit;
use crate::part::Part;
use base_types::{DocId, Span, Time};
use lists_postings::{Event, Life, Stretch, end_of, note};
use query_lang::{Pile, Query};
use std::alloc::{AllocError, Global};

/// A document that matches a query with one score for some time.
#[derive(Clone, Copy, Debug, PartialEq, Eq)]
pub struct SpanRow {
    /// The document.
    pub doc: DocId,
    /// When.
    pub span: Span,
    /// How often the query's words occur in its text, all in all; 0 where it matches without them.
    pub score: u64,
}

impl Stretch for SpanRow {
    ghost value = { ℕ };

    ghost kind = { row_kind };

    fn goes_on(&self, next: &SpanRow) -> bool {
        self.doc == next.doc && self.span.to == next.span.from && self.score == next.score
    }

    fn joined(&self, next: &SpanRow) -> SpanRow {
        SpanRow {
            doc: self.doc,
            span: Span {
                from: self.span.from,
                to: next.span.to,
            },
            score: self.score,
        }
    }
}

/// What a query finds in a window of time.
#[derive(Debug, Drop)]
pub struct SpanAnswer {
    /// The documents that match, by document and then by start.
    pub rows: Vec<SpanRow>,
    /// How many postings were read for them.
    pub read: u64,
}

/// Room that is used again from piece to piece.
#[derive(Drop)]
struct Room {
    counts: Vec<u32>,
    truths: Pile<bool>,
    hits: Vec<Hit>,
}

/// Room for the words of a query. Costs their number.
fn room_for(alloc: Global, query: &Query) -> Result<Room, AllocError>
    ensures room { IfOk result (λ room. length room.counts.items ≡ length (words_of query.now)) }
    ensures few { IfOk result (λ room. length (words_of query.now) ≤ 4096) }
{
    let counts = vec![in alloc; 0; query.words().len()]?;
    Ok(Room {
        counts,
        truths: Pile::new(alloc),
        hits: Vec::new(alloc),
    })
}

/// What facts say at a time: whether one is a life, and the hits, which are put into `hits`.
fn gather_now(hits: &mut Vec<Hit>, group: &[Fact], t: Time) -> Result<bool, AllocError>
    ensures alive { IfOk result (λ alive. alive ≡ alive_now t.seconds group.now) }
    ensures hits { OnOk result (hits.new.items ≡ hits_now t.seconds group.now) }
{
    hits.clear();
    let mut alive = false;
    for fact in group {
        if fact.span.from <= t.seconds && t.seconds < fact.span.to {
            alive = alive || fact.alive;
            if let Some(hit) = fact.hit {
                hits.push(hit)?;
            }
        }
    }
    Ok(alive)
}

/// A document's score at a time by its facts, where it is alive and matches. Costs the facts, and
/// the query's length where it has a hit.
fn score_at(
    query: &Query,
    doc: DocId,
    t: Time,
    group: &[Fact],
    room: &mut Room,
) -> Result<Option<u64>, AllocError>
    requires { length room.old.counts.items ≡ length (words_of query.now) }
    ensures value { IfOk result (λ v. (often : List ℕ → ℕ) → TellWords query.now (hits_now t.seconds group.now) often
        → v ≡ score_if (alive_now t.seconds group.now) query.now often) }
    ensures kept { length room.new.counts.items ≡ length room.old.counts.items }
{
    let alive = gather_now(&mut room.hits, group, t)?;
    if !alive {
        return Ok(None);
    }
    match row_by(query, doc, &room.hits, &mut room.counts, &mut room.truths)? {
        Some(row) => Ok(Some(row.score)),
        None => Ok(None),
    }
}

/// The row of an event's document from there to the next event, where it is alive and matches.
fn row_from(
    query: &Query,
    facts: &[Fact],
    events: &[Event],
    i: usize,
    span: Span,
    room: &mut Room,
) -> Result<Option<SpanRow>, AllocError>
    requires sorted { IsNonDecreasingBy (λ f. f.doc.0) facts.now }
    requires room { length room.old.counts.items ≡ length (words_of query.now) }
    requires there { i < length events.now }
    ensures row { IfOk result (λ row. (f : ℕ → ℕ → Option ℕ) → IsScored query.now facts.now f
        → (e : EventValue) → e ≡ slice_index_or events.now i e → MatchOption row
        ((end_of e (drop (i + 1) events.now) span.to ≤ e.at.seconds) ⊎ (f e.doc.0 e.at.seconds ≡ None))
        (λ r. (r.doc.0 ≡ e.doc.0) × (r.span.from ≡ e.at.seconds) × (r.span.to ≡ end_of e (drop (i + 1) events.now) span.to)
        × (f e.doc.0 e.at.seconds ≡ Some r.score))) }
    ensures kept { length room.new.counts.items ≡ length room.old.counts.items }
{
    let event = events[i];
    let Some(span) = Span::new(event.at.seconds, end_of(events, i, span.to)) else {
        return Ok(None);
    };
    let group = group_of(facts, event.doc);
    match score_at(query, event.doc, event.at, group, room)? {
        Some(score) => Ok(Some(SpanRow {
            doc: event.doc,
            span,
            score,
        })),
        None => Ok(None),
    }
}

/// The rows by facts that stand by document.
fn rows_over(
    alloc: Global,
    query: &Query,
    span: Span,
    facts: &[Fact],
    room: &mut Room,
) -> Result<Vec<SpanRow>, AllocError>
    requires sorted { IsNonDecreasingBy (λ f. f.doc.0) facts.now }
    requires room { length room.old.counts.items ≡ length (words_of query.now) }
    ensures { IfOk result (λ rows. (f : ℕ → ℕ → Option ℕ) → IsScored query.now facts.now f
        → AreStretches row_kind f span.from span.to rows.items) }
{
    let events = events_of(alloc, facts, span)?;
    let mut rows = Vec::new(alloc);
    for i in 0..events.len() {
        if let Some(row) = row_from(query, facts, &events, i, span, room)? {
            note(&mut rows, row)?;
        }
    }
    Ok(rows)
}

/// What the query finds in a window of time, by the parts of the lists of its words, one for each
/// distinct word in order, and by the lives of documents, in any order. A document has a word as
/// often as the first posting of its part says that holds the time. Costs the postings and lives, a
/// sort of both, and for each time at which one of a document's begins or ends two searches, a look
/// at the document's own, and, where it has a hit, the query's length.
pub fn answer_over(
    alloc: Global,
    query: &Query,
    span: Span,
    parts: &[Part],
    lives: &[Life],
) -> Result<SpanAnswer, AllocError>
    requires { length parts.now ≡ length (words_of query.now) }
    ensures rows { IfOk result (λ a. IsSpanAnswer (λ doc t. is_alive lives.now doc.0 t)
        (λ doc t. told (words_of query.now) parts.now t doc.0) query.now span.from span.to a.rows.items) }
    ensures read { IfOk result (λ a. a.read ≡ read_of parts.now) }
{
    let facts = facts_by_doc(alloc, false, parts, lives)?;
    let mut room = room_for(alloc, query)?;
    let rows = rows_over(alloc, query, span, &facts, &mut room)?;
    Ok(SpanAnswer {
        rows,
        read: read_of(parts),
    })
}

/// What the query finds in a window of time by the parts of the lists of its words as in `answer_over`,
/// where a document counts as alive while it has one of the words. Where
/// `Query::matches_without_words` is false, and whatever has a word in the window is alive then, these
/// are the rows by the lives of all documents. Costs the postings and a sort of them, and for each time
/// at which one of a document's begins or ends two searches, a look at the document's own, and, where
/// it has a hit, the query's length.
pub fn answer_over_hits(
    alloc: Global,
    query: &Query,
    span: Span,
    parts: &[Part],
) -> Result<SpanAnswer, AllocError>
    requires { length parts.now ≡ length (words_of query.now) }
    ensures rows { IfOk result (λ a. (alive : DocValue → ℕ → Bool) → matches query.now (λ _. 0) ≡ false
        → ((doc : DocValue) (t : ℕ) → span.from ≤ t → t < span.to → HasHit (words_of query.now) parts.now t doc → alive doc t ≡ true)
        → IsSpanAnswer alive (λ doc t. told (words_of query.now) parts.now t doc.0) query.now span.from span.to a.rows.items) }
    ensures read { IfOk result (λ a. a.read ≡ read_of parts.now) }
{
    let facts = facts_by_doc(alloc, true, parts, &[])?;
    let mut room = room_for(alloc, query)?;
    let rows = rows_over(alloc, query, span, &facts, &mut room)?;
    Ok(SpanAnswer {
        rows,
        read: read_of(parts),
    })
}
