//! What is known of documents over time: when they are alive, and when they have the words.
ghost use Rattle.std.specs.Prelude.{◌≡◌, ◌⊎◌, ◌<◌, ◌≤◌, ◌++◌, true, false, ℕ, nat_le, nat_lt, length, map, filter, Contains, IfOk, OnOk};
ghost use Rattle.std.specs.List.Sorted.{IsNonDecreasingBy, IsPartitionPoint};
ghost use Rattle.lists_postings.specs.Events.{AreInOrder};
ghost use Rattle.lists_postings.specs.declared.event.Event.{Event as EventValue};
ghost use Rattle.query_eval.specs.Facts.{life_fact, word_fact, facts_of, of_doc, AreEvents};

use crate::hit::Hit;
use crate::part::Part;
use base_types::{DocId, Posting, Span, Time};
use lists_postings::{Event, Life, sort_events};
use std::alloc::{AllocError, Global};

/// That a document is alive in a span, or has a word so often, or both.
#[derive(Clone, Copy, Debug)]
pub(crate) struct Fact {
    /// The document.
    pub(crate) doc: DocId,
    /// When.
    pub(crate) span: Span,
    /// Whether it shows that the document is alive.
    pub(crate) alive: bool,
    /// The word; None where it is a life.
    pub(crate) hit: Option<Hit>,
}

fn note_lives(facts: &mut Vec<Fact>, lives: &[Life]) -> Result<(), AllocError>
    ensures { OnOk result (facts.new.items ≡ facts.old.items ++ map life_fact lives.now) }
{
    for life in lives {
        facts.push(Fact {
            doc: life.doc,
            span: life.span,
            alive: true,
            hit: None,
        })?;
    }
    Ok(())
}

/// The facts of the word at a place, which show that the documents are alive where `shows` says so.
fn note_word(
    facts: &mut Vec<Fact>,
    shows: bool,
    place: usize,
    list: &[Posting],
) -> Result<(), AllocError>
    ensures { OnOk result (facts.new.items ≡ facts.old.items ++ map (word_fact shows place) list.now) }
{
    for p in list {
        facts.push(Fact {
            doc: p.doc,
            span: p.span,
            alive: shows,
            hit: Some(Hit {
                doc: p.doc,
                place,
                tf: p.tf,
            }),
        })?;
    }
    Ok(())
}

/// The facts of lives, and then of all parts, word by word.
fn gather(
    alloc: Global,
    shows: bool,
    parts: &[Part],
    lives: &[Life],
) -> Result<Vec<Fact>, AllocError>
    ensures { IfOk result (λ facts. facts.items ≡ map life_fact lives.now ++ facts_of shows 0 parts.now) }
{
    let mut facts = Vec::new(alloc);
    note_lives(&mut facts, lives)?;
    for (place, part) in parts.iter().enumerate() {
        note_word(&mut facts, shows, place, &part.list)?;
    }
    Ok(facts)
}

/// Sorts facts by document, and keeps the order of each document's.
fn sort_by_doc(facts: &mut Vec<Fact>) -> Result<(), AllocError>
    ensures sorted { OnOk result (IsNonDecreasingBy (λ f. f.doc.0) facts.new.items) }
    ensures stable { OnOk result ((d : ℕ) → filter (of_doc d) facts.new.items ≡ filter (of_doc d) facts.old.items) }
{
    facts.sort_by_key(|f| f.doc.0)?;
    Ok(())
}

/// The facts of lives and parts by document, and each document's words by their places. Costs the
/// lives and the postings, and a sort of both.
pub(crate) fn facts_by_doc(
    alloc: Global,
    shows: bool,
    parts: &[Part],
    lives: &[Life],
) -> Result<Vec<Fact>, AllocError>
    ensures sorted { IfOk result (λ facts. IsNonDecreasingBy (λ f. f.doc.0) facts.items) }
    ensures each { IfOk result (λ facts. (d : ℕ) → filter (of_doc d) facts.items
        ≡ filter (of_doc d) (map life_fact lives.now ++ facts_of shows 0 parts.now)) }
{
    let mut facts = gather(alloc, shows, parts, lives)?;
    sort_by_doc(&mut facts)?;
    Ok(facts)
}

/// How many facts are of documents before this one.
fn first_of(facts: &[Fact], doc: DocId) -> usize
    requires { IsNonDecreasingBy (λ f. f.doc.0) facts.now }
    ensures inside { result ≤ length facts.now }
    ensures place { IsPartitionPoint (λ f. nat_lt f.doc.0 doc.0 ≡ true) (λ f. nat_lt f.doc.0 doc.0 ≡ false) facts.now result }
{
    facts.partition_point(|f| f.doc < doc)
}

/// How many facts are of documents up to this one.
fn behind(facts: &[Fact], doc: DocId) -> usize
    requires { IsNonDecreasingBy (λ f. f.doc.0) facts.now }
    ensures inside { result ≤ length facts.now }
    ensures place { IsPartitionPoint (λ f. nat_le f.doc.0 doc.0 ≡ true) (λ f. nat_le f.doc.0 doc.0 ≡ false) facts.now result }
{
    facts.partition_point(|f| f.doc <= doc)
}

/// The facts of a document, among facts that stand by document. Costs two searches.
pub(crate) fn group_of(facts: &[Fact], doc: DocId) -> &[Fact]
    requires { IsNonDecreasingBy (λ f. f.doc.0) facts.now }
    ensures { result.now ≡ filter (of_doc doc.0) facts.now }
{
    let start = first_of(facts, doc);
    let late = &facts[start..];
    let count = behind(late, doc);
    &late[..count]
}

/// An event of the document at a number of seconds, where that lies in the span.
fn note_event(
    events: &mut Vec<Event>,
    doc: DocId,
    seconds: u64,
    span: Span,
) -> Result<(), AllocError>
    ensures kept { OnOk result ((x : _) → Contains events.old.items x → Contains events.new.items x) }
    ensures only { OnOk result ((x : _) → Contains events.new.items x
        → Contains events.old.items x ⊎ ((span.from ≤ x.at.seconds) × (x.at.seconds < span.to))) }
    ensures there { OnOk result (span.from ≤ seconds → seconds < span.to
        → (x : EventValue) × Contains events.new.items x × (x.doc ≡ doc) × (x.at.seconds ≡ seconds)) }
{
    let Some(at) = Time::new(seconds) else {
        return Ok(());
    };
    if span.from <= seconds && seconds < span.to {
        events.push(Event { doc, at })?;
    }
    Ok(())
}

/// The events of facts inside the span, in order: where each begins there or holds already, and
/// where it ends. Costs the facts and a sort.
pub(crate) fn events_of(alloc: Global, facts: &[Fact], span: Span) -> Result<Vec<Event>, AllocError>
    ensures sorted { IfOk result (λ events. AreInOrder events.items) }
    ensures events { IfOk result (λ events. AreEvents facts.now span.from span.to events.items) }
{
    let mut events = Vec::new(alloc);
    for fact in facts {
        note_event(&mut events, fact.doc, fact.span.from.max(span.from), span)?;
        note_event(&mut events, fact.doc, fact.span.to, span)?;
    }
    sort_events(&mut events);
    Ok(events)
}
