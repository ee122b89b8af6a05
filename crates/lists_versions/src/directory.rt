//! The directory of an archive's changes, and the index by which it finds a document's versions.
ghost use Rattle.std.specs.Prelude.{◌≡◌, ◌⊎◌, ◌+◌, ◌≤◌, ◌<◌, [], ◌∷◌, ◌++◌, length, Some, None, IfOk, OnOk, MatchResult, IsTrue, IsSome, ◌↔◌, Contains};
ghost use Rattle.std.specs.List.Sorted.{IsNonDecreasingBy};
ghost use Rattle.base_types.specs.Limits.{limit_of};
ghost use Rattle.base_types.specs.declared.ids.DocId.{DocId as Document};
ghost use Rattle.lists_postings.specs.declared.event.Event.{Event as EventValue};
ghost use Rattle.lists_versions.specs.Index.{times};
ghost use Rattle.lists_versions.specs.Changes.{last_time, latest, documents, held_at, alive};
ghost use Rattle.lists_versions.specs.Refusals.{arrive_refusal, delete_refusal, time_back, full_versions};

use crate::change::Change;
use crate::last_life::LastLife;
use crate::link::Link;
use crate::lives::note_changes;
use crate::refusal::VersionRefusal;
use crate::walk::{alive_from, held_from};
use base_types::{DocId, Span, TextPlace, Time, Which};
use lists_postings::Event;
use std::alloc::{AllocError, Global};
use std::collections::HashMap;
use std::marker::Model;

/// The changes of all documents, with each text's place in the journal.
///
/// A document's changes are found without a look at other documents': its latest one by a hash
/// table, and earlier ones by links back from it. The table also has when the document was alive
/// last. A look-up below is one in that table, constant on average.
#[derive(Drop)]
pub struct Directory {
    /// The changes in their order.
    log: Vec<Change<TextPlace>>,
    /// For each change, the way back to earlier changes of its document.
    links: Vec<Link>,
    /// For each document, the place in the log of its latest change, and when it was alive last.
    latest: HashMap<DocId, LastLife>,
}

impl Model for Directory {
    ghost use Rattle.std.specs.Prelude.{◌-◌, min, vec_len, vec_capacity};
    ghost use Rattle.std.specs.HashMap.{spare};
    ghost use Rattle.lists_versions.specs.States.{DirectoryState};
    ghost use Rattle.lists_versions.specs.Index.{IsIndexed};

    ghost Value = { DirectoryState };

    ghost view = { λ a. record {
      changes = a.log.items;
      room =
          min (min (vec_capacity a.log - vec_len a.log) (vec_capacity a.links - vec_len a.links))
          (spare a.latest);
    } };

    ghost invariant = { λ a. IsIndexed a.log.items a.links.items a.latest };
}

impl Directory {
    /// A directory without changes. Constant cost.
    pub fn new(alloc: Global) -> Result<Directory, AllocError>
        ensures { IfOk result (λ d. d.changes ≡ []) }
    {
        Ok(Directory {
            log: Vec::new(alloc),
            links: Vec::new(alloc),
            latest: HashMap::new(alloc),
        })
    }

    /// The changes in their order; their times don't fall. Constant cost.
    pub fn changes(&self) -> &[Change<TextPlace>]
        ensures all { result.now ≡ self.now.changes }
        ensures ascending { IsNonDecreasingBy (λ c. c.at.seconds) result.now }
    {
        self.log.as_slice()
    }

    /// How many changes there are. Constant cost.
    pub fn len(&self) -> usize
        ensures { result ≡ length self.now.changes }
    {
        self.log.len()
    }

    /// The time of the last change; None before the first. Constant cost.
    pub fn last(&self) -> Option<Time>
        ensures { result ≡ last_time self.now.changes }
    {
        match self.log.last() {
            Some(change) => Some(change.at),
            None => None,
        }
    }

    /// The document's latest version or tombstone; None where it never changed. It costs one look-up.
    pub fn latest(&self, doc: DocId) -> Option<Change<TextPlace>>
        ensures { result ≡ latest doc self.now.changes }
    {
        match self.latest.get(&doc) {
            Some(life) => Some(self.log[life.place]),
            None => None,
        }
    }

    /// How many documents ever changed. Constant cost.
    pub fn documents(&self) -> usize
        ensures { result ≡ length (documents self.now.changes) }
    {
        self.latest.len()
    }

    /// Whether a version of the document may come at that time, or the first cause why not: the
    /// time lies before the last change; the document's latest change has that time; it would be
    /// one document, or one version or tombstone, too many. It costs one look-up.
    pub fn may_arrive(&self, doc: DocId, at: Time) -> Result<(), VersionRefusal>
        ensures { MatchResult result
            (λ _. arrive_refusal doc at self.now.changes ≡ None)
            (λ e. arrive_refusal doc at self.now.changes ≡ Some e) }
    {
        if let Some(why) = self.time_back(at) {
            return Err(why);
        }
        match self.latest(doc) {
            Some(change) => {
                if change.at.seconds == at.seconds {
                    return Err(VersionRefusal::SameTime);
                }
            }
            None => {
                if Which::Documents.limit() <= self.documents() as u64 {
                    return Err(full(Which::Documents));
                }
            }
        }
        match self.full_versions() {
            Some(why) => Err(why),
            None => Ok(()),
        }
    }

    /// Whether the document may be deleted at that time, or the first cause why not: the time lies
    /// before the last change; the document never came, or is deleted; its latest version has that
    /// time; it would be one version or tombstone too many. It costs one look-up.
    pub fn may_delete(&self, doc: DocId, at: Time) -> Result<(), VersionRefusal>
        ensures { MatchResult result
            (λ _. delete_refusal doc at self.now.changes ≡ None)
            (λ e. delete_refusal doc at self.now.changes ≡ Some e) }
    {
        if let Some(why) = self.time_back(at) {
            return Err(why);
        }
        let since = match self.latest(doc) {
            Some(change) if change.held.is_some() => change.at,
            _ => return Err(VersionRefusal::NoDocument),
        };
        if since.seconds == at.seconds {
            return Err(VersionRefusal::SameTime);
        }
        match self.full_versions() {
            Some(why) => Err(why),
            None => Ok(()),
        }
    }

    /// The refusal of a time that lies before the last change's.
    fn time_back(&self, at: Time) -> Option<VersionRefusal>
        ensures { result ≡ time_back at self.now.changes }
    {
        match self.last() {
            Some(last) if at.seconds < last.seconds => Some(VersionRefusal::TimeBack { last }),
            _ => None,
        }
    }

    /// The refusal of one change more than there may be.
    fn full_versions(&self) -> Option<VersionRefusal>
        ensures { result ≡ full_versions self.now.changes }
    {
        if Which::Versions.limit() <= self.len() as u64 {
            Some(full(Which::Versions))
        } else {
            None
        }
    }

    /// Where the text lies of the document's version that is valid at the time; None exactly where
    /// the document isn't alive then. It costs one look-up, and steps in the logarithm of the
    /// document's changes.
    pub fn place(&self, doc: DocId, t: Time) -> Option<TextPlace>
        ensures { result ≡ held_at doc t.seconds self.now.changes }
    {
        match self.latest.get(&doc) {
            Some(life) => held_from(&self.log, &self.links, life.place, t),
            None => None,
        }
    }

    /// Whether the document is alive at the time. It costs one look-up, and at a time before the
    /// start of the document's last life what `place` does.
    pub fn alive_at(&self, doc: DocId, t: Time) -> bool
        ensures { IsTrue result ↔ IsSome (held_at doc t.seconds self.now.changes) }
    {
        match self.latest.get(&doc) {
            Some(life) => alive_from(&self.log, &self.links, *life, t),
            None => false,
        }
    }

    /// The documents alive at the time, ascending. It costs what `alive_at` does for each document
    /// that ever changed, and a sort.
    pub fn alive(&self, alloc: Global, t: Time) -> Result<Vec<DocId>, AllocError>
        ensures { IfOk result (λ docs. docs.items ≡ alive t.seconds self.now.changes) }
    {
        let mut docs = self.unsorted(alloc, t)?;
        docs.sort_unstable();
        Ok(docs)
    }

    /// The documents alive at the time, in the index's order.
    fn unsorted(&self, alloc: Global, t: Time) -> Result<Vec<DocId>, AllocError>
        ensures { IfOk result (λ docs. (doc : Document) →
            times doc docs.items ≡ times doc (alive t.seconds self.now.changes)) }
    {
        let docs: Vec<DocId> = self
            .latest
            .keys()
            .copied()
            .filter(|doc| self.alive_at(*doc, t))
            .collect(alloc)?;
        Ok(docs)
    }

    /// Notes an event of the document at the start of a span, and at each of its changes inside behind
    /// that. It costs one look-up, steps in the logarithm of the document's changes, and one for each that
    /// is noted.
    pub(crate) fn note_events(
        &self,
        events: &mut Vec<Event>,
        doc: DocId,
        start: Time,
        span: Span,
    ) -> Result<(), AllocError>
        requires { start.seconds ≡ span.from }
        ensures kept { OnOk result ((x : _) → Contains events.old.items x → Contains events.new.items x) }
        ensures only { OnOk result ((x : _) → Contains events.new.items x → Contains events.old.items x
            ⊎ ((x.doc ≡ doc) × (span.from ≤ x.at.seconds) × (x.at.seconds < span.to))) }
        ensures started { OnOk result ((x : EventValue) × Contains events.new.items x × (x.doc ≡ doc) × (x.at.seconds ≡ span.from)) }
        ensures changed { OnOk result ((c : _) → Contains self.now.changes c → c.doc ≡ doc → span.from < c.at.seconds
            → c.at.seconds < span.to
            → (x : EventValue) × Contains events.new.items x × (x.doc ≡ doc) × (x.at.seconds ≡ c.at.seconds)) }
    {
        events.push(Event { doc, at: start })?;
        let Some(life) = self.latest.get(&doc) else {
            return Ok(());
        };
        note_changes(events, &self.log, &self.links, life.place, doc, span)?;
        Ok(())
    }

    /// Makes room for one change of any document, so that it takes no memory. Its cost is constant
    /// on average over the changes; an `Err` leaves the changes as they were.
    pub fn reserve(&mut self, _doc: DocId) -> Result<(), AllocError>
        ensures room { OnOk result (1 ≤ self.new.room) }
        ensures same { self.new.changes ≡ self.old.changes }
        ensures kept { self.old.room ≤ self.new.room }
    {
        self.log.reserve(1)?;
        self.links.reserve(1)?;
        self.latest.reserve(1)
    }

    /// Makes room for so many changes of any documents, so that each of them takes no memory. An
    /// `Err` leaves the changes as they were.
    pub fn reserve_all(&mut self, count: usize) -> Result<(), AllocError>
        ensures room { OnOk result (count ≤ self.new.room) }
        ensures same { self.new.changes ≡ self.old.changes }
        ensures kept { self.old.room ≤ self.new.room }
    {
        self.log.reserve(count)?;
        self.links.reserve(count)?;
        self.latest.reserve(count)
    }

    /// Adds a version of the document, whose text lies at that place of the journal. It takes no
    /// memory. It costs two look-ups.
    pub fn arrive(&mut self, doc: DocId, at: Time, text: TextPlace)
        requires allowed { arrive_refusal doc at self.old.changes ≡ None }
        requires room { 1 ≤ self.old.room }
        ensures arrived { self.new.changes
            ≡ self.old.changes ++ record { doc = doc; at = at; held = Some text } ∷ [] }
        ensures room { self.old.room ≤ self.new.room + 1 }
    {
        self.note(Change {
            doc,
            at,
            held: Some(text),
        });
    }

    /// Adds the document's deletion. It takes no memory. It costs two look-ups.
    pub fn delete(&mut self, doc: DocId, at: Time)
        requires allowed { delete_refusal doc at self.old.changes ≡ None }
        requires room { 1 ≤ self.old.room }
        ensures deleted { self.new.changes
            ≡ self.old.changes ++ record { doc = doc; at = at; held = None } ∷ [] }
        ensures room { self.old.room ≤ self.new.room + 1 }
    {
        self.note(Change {
            doc,
            at,
            held: None,
        });
    }

    /// Adds a change, and enters it into the index.
    fn note(&mut self, change: Change<TextPlace>)
        requires in_order { time_back change.at self.old.changes ≡ None }
        requires room { 1 ≤ self.old.room }
        ensures noted { self.new.changes ≡ self.old.changes ++ change ∷ [] }
        ensures room { self.old.room ≤ self.new.room + 1 }
    {
        let place = self.log.len();
        let before = self.latest.get(&change.doc).copied();
        let life = LastLife::behind(before, place, &change);
        let link = match before {
            Some(before) => Link::behind(&self.links, before.place),
            None => Link::first(place),
        };
        self.log.push_reserved(change);
        self.links.push_reserved(link);
        let entered: Result<_, _> = self.latest.insert(change.doc, life);
        entered.unwrap();
    }
}

/// The refusal for a limit that would be passed.
pub(crate) fn full(which: Which) -> VersionRefusal
    ensures { result ≡ VersionRefusal.Full which (limit_of which) }
{
    VersionRefusal::Full {
        which,
        limit: which.limit(),
    }
}
