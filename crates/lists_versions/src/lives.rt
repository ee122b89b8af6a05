//! When documents are alive.
ghost use Rattle.std.specs.Prelude.{◌≡◌, ◌⊎◌, ◌↔◌, ◌+◌, ◌<◌, ◌≤◌, ℕ, true, false, None, Some, Option, length, take, drop, map, slice_index_or, nat_le, nat_lt, Contains, IfOk, OnOk, MatchOption, IsTrue, IsSome};
ghost use Rattle.std.specs.List.Sorted.{IsNonDecreasingBy, IsPartitionPoint};
ghost use Rattle.base_types.specs.declared.ids.DocId.{DocId as Document};
ghost use Rattle.lists_postings.specs.Events.{AreInOrder, ChangesAt, inside, end_of};
ghost use Rattle.lists_postings.specs.Kinds.{is_alive, life_kind};
ghost use Rattle.lists_postings.specs.Laid.{AreLaid};
ghost use Rattle.lists_postings.specs.Stretches.{AreStretches};
ghost use Rattle.lists_postings.specs.declared.event.Event.{Event as EventValue};
ghost use Rattle.lists_versions.specs.Changes.{held_at};
ghost use Rattle.lists_versions.specs.Index.{AreLinked};
ghost use Rattle.lists_versions.specs.Walks.{IsOf};
ghost use Rattle.lists_versions.specs.Lives.{AreLives, AreEvents, AreEventsOf, lived, lived_of, start_of, event_of};

use crate::change::Change;
use crate::directory::Directory;
use crate::link::Link;
use crate::walk::last_until;
use base_types::{DocId, Span, TextPlace, Time};
use lists_postings::{Event, Life, end_of, note, sort_events};
use std::alloc::{AllocError, Global};

impl Directory {
    /// When documents are alive in the span: the longest stretches, in the order of document and
    /// start. Versions of one document that touch are one life. It costs what `alive_at` does for each
    /// document that ever changed and for each change in the span, and a sort of both.
    pub fn lives(&self, alloc: Global, span: Span) -> Result<Vec<Life>, AllocError>
        ensures lives { IfOk result (λ lives. AreLives self.now.changes span.from span.to lives.items) }
        ensures times { IfOk result (λ lives. (doc : Document) (t : ℕ) → span.from ≤ t → t < span.to
            → IsTrue (is_alive lives.items doc.0 t) ↔ IsSome (held_at doc t self.now.changes)) }
    {
        let start = Time { seconds: span.from };
        let docs = self.alive(alloc, start)?;
        let events = events_in(alloc, self.changes(), &docs, start, span)?;
        let lives = self.lives_by(alloc, &events, span)?;
        Ok(lives)
    }

    /// When these documents are alive in the span, as `lives` tells it of all. It costs for each of them a
    /// look-up and steps in the logarithm of its changes, for each of its changes in the span what
    /// `alive_at` does, and a sort of these changes.
    pub fn lives_of(
        &self,
        alloc: Global,
        docs: &[DocId],
        span: Span,
    ) -> Result<Vec<Life>, AllocError>
        ensures lives { IfOk result (λ lives. AreStretches life_kind (lived_of docs.now self.now.changes) span.from span.to lives.items) }
        ensures times { IfOk result (λ lives. (doc : Document) (t : ℕ) → span.from ≤ t → t < span.to
            → IsTrue (is_alive lives.items doc.0 t) ↔ (Contains docs.now doc × IsSome (held_at doc t self.now.changes))) }
    {
        let events = self.events_of(alloc, docs, span)?;
        let lives = self.lives_by(alloc, &events, span)?;
        Ok(lives)
    }

    /// The lives that begin at events and go on until the next ones, those that touch in one.
    fn lives_by(&self, alloc: Global, events: &[Event], span: Span) -> Result<Vec<Life>, AllocError>
        requires { AreInOrder events.now }
        ensures { IfOk result (λ lives. (f : ℕ → ℕ → Option (Unit {0})) → ChangesAt events.now span.from span.to f
            → ((e : EventValue) → Contains events.now e → f e.doc.0 e.at.seconds ≡ lived self.now.changes e.doc.0 e.at.seconds)
            → AreLaid life_kind (inside f span.from span.to) lives.items) }
    {
        let mut lives = Vec::new(alloc);
        for i in 0..events.len() {
            if let Some(life) = self.life_from(events, i, span) {
                note(&mut lives, life)?;
            }
        }
        Ok(lives)
    }

    /// The events of these documents in a span, in order.
    fn events_of(&self, alloc: Global, docs: &[DocId], span: Span) -> Result<Vec<Event>, AllocError>
        ensures sorted { IfOk result (λ events. AreInOrder events.items) }
        ensures events { IfOk result (λ events. AreEventsOf self.now.changes docs.now span.from span.to events.items) }
    {
        let start = Time { seconds: span.from };
        let mut events = Vec::new(alloc);
        for i in 0..docs.len() {
            let doc = docs[i];
            self.note_events(&mut events, doc, start, span)?;
        }
        sort_events(&mut events);
        Ok(events)
    }

    /// The life of an event's document from there to the next event, if it is alive then. It costs
    /// what `alive_at` does.
    fn life_from(&self, events: &[Event], i: usize, span: Span) -> Option<Life>
        requires { i < length events.now }
        ensures { (e : EventValue) → e ≡ slice_index_or events.now i e → MatchOption result
            ((end_of e (drop (i + 1) events.now) span.to ≤ e.at.seconds) ⊎ (lived self.now.changes e.doc.0 e.at.seconds ≡ None))
            (λ life. (life.doc.0 ≡ e.doc.0) × (life.span.from ≡ e.at.seconds) × (life.span.to ≡ end_of e (drop (i + 1) events.now) span.to)
            × (lived self.now.changes e.doc.0 e.at.seconds ≡ Some tt)) }
    {
        let event = events[i];
        let span = Span::new(event.at.seconds, end_of(events, i, span.to))?;
        if self.alive_at(event.doc, event.at) {
            Some(Life {
                doc: event.doc,
                span,
            })
        } else {
            None
        }
    }
}

/// How many changes come at most at a time.
fn up_to(changes: &[Change<TextPlace>], t: u64) -> usize
    requires { IsNonDecreasingBy (λ c. c.at.seconds) changes.now }
    ensures inside { result ≤ length changes.now }
    ensures place { IsPartitionPoint (λ c. nat_le c.at.seconds t ≡ true) (λ c. nat_le c.at.seconds t ≡ false) changes.now result }
{
    changes.partition_point(|c| c.at.seconds <= t)
}

/// How many changes come before a time.
fn before(changes: &[Change<TextPlace>], t: u64) -> usize
    requires { IsNonDecreasingBy (λ c. c.at.seconds) changes.now }
    ensures inside { result ≤ length changes.now }
    ensures place { IsPartitionPoint (λ c. nat_lt c.at.seconds t ≡ true) (λ c. nat_lt c.at.seconds t ≡ false) changes.now result }
{
    changes.partition_point(|c| c.at.seconds < t)
}

/// The changes inside the span, behind its start. It costs two searches.
fn within(changes: &[Change<TextPlace>], span: Span) -> &[Change<TextPlace>]
    requires { IsNonDecreasingBy (λ c. c.at.seconds) changes.now }
    ensures { (c : _) → Contains result.now c ↔ (Contains changes.now c × (span.from < c.at.seconds) × (c.at.seconds < span.to)) }
{
    let first = up_to(changes, span.from);
    let late = &changes[first..];
    let count = before(late, span.to);
    &late[..count]
}

/// The events in a span, in order: one at its start for each of these documents, and one for each
/// change behind that.
fn events_in(
    alloc: Global,
    changes: &[Change<TextPlace>],
    docs: &[DocId],
    start: Time,
    span: Span,
) -> Result<Vec<Event>, AllocError>
    requires ascending { IsNonDecreasingBy (λ c. c.at.seconds) changes.now }
    requires starts { start.seconds ≡ span.from }
    ensures sorted { IfOk result (λ events. AreInOrder events.items) }
    ensures events { IfOk result (λ events. AreEvents changes.now docs.now span.from span.to events.items) }
{
    let mut events = starts(alloc, docs, start)?;
    let later = moves(alloc, within(changes, span))?;
    events.extend_from_slice(&later)?;
    sort_events(&mut events);
    Ok(events)
}

/// Notes an event of a document at each of its changes inside the span, behind its start, by the place of
/// its latest one. Its steps are in the logarithm of the document's changes, and one for each that is
/// noted.
pub(crate) fn note_changes(
    events: &mut Vec<Event>,
    log: &[Change<TextPlace>],
    links: &[Link],
    latest: usize,
    doc: DocId,
    span: Span,
) -> Result<(), AllocError>
    requires linked { AreLinked log.now links.now }
    requires there { latest < length log.now }
    requires of { IsOf doc log.now latest }
    ensures kept { OnOk result ((x : _) → Contains events.old.items x → Contains events.new.items x) }
    ensures only { OnOk result ((x : _) → Contains events.new.items x → Contains events.old.items x
        ⊎ ((x.doc ≡ doc) × (span.from ≤ x.at.seconds) × (x.at.seconds < span.to))) }
    ensures changed { OnOk result ((c : _) → Contains (take (latest + 1) log.now) c → c.doc ≡ doc → span.from < c.at.seconds
        → c.at.seconds < span.to
        → (x : EventValue) × Contains events.new.items x × (x.doc ≡ doc) × (x.at.seconds ≡ c.at.seconds)) }
{
    let mut place = latest;
    let mut end = span.to;
    while span.from < end {
        let t = Time { seconds: end - 1 };
        let Some(found) = last_until(log, links, place, t) else {
            return Ok(());
        };
        let at = log[found].at;
        if at.seconds <= span.from {
            return Ok(());
        }
        events.push(Event { doc, at })?;
        place = found;
        end = at.seconds;
    }
    Ok(())
}

/// An event for each document, at one time.
fn starts(alloc: Global, docs: &[DocId], at: Time) -> Result<Vec<Event>, AllocError>
    ensures { IfOk result (λ events. events.items ≡ map (start_of at) docs.now) }
{
    docs.iter()
        .map(|doc| Event { doc: *doc, at })
        .collect(alloc)
}

/// An event for each change.
fn moves(alloc: Global, changes: &[Change<TextPlace>]) -> Result<Vec<Event>, AllocError>
    ensures { IfOk result (λ events. events.items ≡ map event_of changes.now) }
{
    changes
        .iter()
        .map(|c| Event {
            doc: c.doc,
            at: c.at,
        })
        .collect(alloc)
}
