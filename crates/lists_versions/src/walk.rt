//! The walk back from a document's latest change to the one that is valid at a time, and when there
//! is none to make.
ghost use Rattle.std.specs.Prelude.{◌≡◌, ◌↔◌, ◌<◌, ◌≤◌, length, get_or, slice_get, None, Some, IsTrue, IsSome, IfSome, MatchOption};
ghost use Rattle.base_types.specs.declared.ids.DocId.{DocId as Document};
ghost use Rattle.lists_versions.specs.Changes.{held_at};
ghost use Rattle.lists_versions.specs.Index.{AreLinked, Leads};
ghost use Rattle.lists_versions.specs.LastLives.{IsLastLife};
ghost use Rattle.lists_versions.specs.Walks.{IsOf, IsReached, AreBehind};

use crate::change::Change;
use crate::last_life::LastLife;
use crate::link::Link;
use base_types::{TextPlace, Time};

/// Whether the document of this last life is alive at the time. Before the life's start it costs what
/// `held_from` does, and else no look at the changes.
pub(crate) fn alive_from(log: &[Change<TextPlace>], links: &[Link], life: LastLife, t: Time) -> bool
    requires linked { AreLinked log.now links.now }
    requires there { life.place < length log.now }
    ensures { (doc : Document) → Leads doc t.seconds log.now life.place → IsLastLife doc log.now life →
        IsTrue result ↔ IsSome (held_at doc t.seconds log.now) }
{
    if life.since.seconds <= t.seconds {
        return life.lasts_at(t);
    }
    held_from(log, links, life.place, t).is_some()
}

/// What the document of the change at the place `latest` holds at the time, where none of its
/// changes behind that place counts then. Its steps are in the logarithm of the document's changes.
pub(crate) fn held_from(
    log: &[Change<TextPlace>],
    links: &[Link],
    latest: usize,
    t: Time,
) -> Option<TextPlace>
    requires linked { AreLinked log.now links.now }
    requires there { latest < length log.now }
    ensures { (doc : Document) → Leads doc t.seconds log.now latest →
        result ≡ held_at doc t.seconds log.now }
{
    match last_until(log, links, latest, t) {
        Some(place) => log[place].held,
        None => None,
    }
}

/// The place of the last change that isn't behind the time, of the document of the change at the place
/// `latest`, among those up to there; None where each is behind. Its steps are in the logarithm of the
/// document's changes.
pub(crate) fn last_until(
    log: &[Change<TextPlace>],
    links: &[Link],
    latest: usize,
    t: Time,
) -> Option<usize>
    requires linked { AreLinked log.now links.now }
    requires there { latest < length log.now }
    ensures until { IfSome result (λ i. (i < length log.now) × ((d : _) → (get_or log.now i d).at.seconds ≤ t.seconds)) }
    ensures reached { (doc : Document) → IsOf doc log.now latest
        → MatchOption result (AreBehind doc t.seconds log.now latest) (IsReached doc t.seconds log.now latest) }
    ensures leads { (doc : Document) → Leads doc t.seconds log.now latest
        → MatchOption result (None ≡ held_at doc t.seconds log.now) (Leads doc t.seconds log.now) }
{
    let mut place = latest;
    while t.seconds < log[place].at.seconds {
        match step_back(log, links, place, t) {
            Some(earlier) => place = earlier,
            None => return None,
        }
    }
    Some(place)
}

/// The place to go on with from a change behind the time: where its jump leads if that is behind
/// the time too, else the change before it; None where it is the document's first. Constant cost.
fn step_back(log: &[Change<TextPlace>], links: &[Link], place: usize, t: Time) -> Option<usize>
    requires linked { AreLinked log.now links.now }
    requires there { place < length log.now }
    requires behind { IfSome (slice_get log.now place) (λ c. t.seconds < c.at.seconds) }
    ensures earlier { IfSome result (λ i. i < place) }
    ensures leads { (doc : Document) → Leads doc t.seconds log.now place →
        MatchOption result
        (None ≡ held_at doc t.seconds log.now)
        (Leads doc t.seconds log.now) }
    ensures reaches { (doc : Document) → IsOf doc log.now place
        → MatchOption result (AreBehind doc t.seconds log.now place) (IsReached doc t.seconds log.now place) }
{
    let link = links[place];
    let Some(before) = link.before else {
        return None;
    };
    if t.seconds < log[link.jump].at.seconds {
        Some(link.jump)
    } else {
        Some(before)
    }
}
