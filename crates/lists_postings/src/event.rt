//! Times at which something may change.
ghost use Rattle.std.specs.Prelude.{◌≡◌, ◌+◌, ◌<◌, length, drop, slice_index_or, IsPermutation};
ghost use Rattle.lists_postings.specs.Events.{AreInOrder, end_of};
ghost use Rattle.lists_postings.specs.declared.event.Event.{Event as EventValue};

use base_types::{DocId, Time};

/// A time at which something may change of a document.
#[derive(Clone, Copy, Debug, PartialEq, Eq)]
pub struct Event {
    /// The document.
    pub doc: DocId,
    /// The time.
    pub at: Time,
}

/// Puts events in the order of document and time.
pub fn sort_events(events: &mut Vec<Event>)
    ensures sorted { AreInOrder events.new.items }
    ensures same { IsPermutation events.old.items events.new.items }
{
    events.sort_unstable_by_key(|event| (event.doc, event.at));
}

/// Where the piece ends that begins at the event at a place: at the document's next event, or at the
/// end of all. Constant cost.
pub fn end_of(events: &[Event], place: usize, end: u64) -> u64
    requires { place < length events.now }
    ensures { (d : EventValue) → result ≡ end_of (slice_index_or events.now place d) (drop (place + 1) events.now) end }
{
    if place + 1 < events.len() && events[place].doc == events[place + 1].doc {
        events[place + 1].at.seconds
    } else {
        end
    }
}
