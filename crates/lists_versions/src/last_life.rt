//! When a document was alive last.
ghost use Rattle.std.specs.Prelude.{◌≡◌, ◌⊎◌, ◌↔◌, ◌++◌, ◌∷◌, [], None, IsTrue, IfSome};
ghost use Rattle.std.specs.List.Sorted.{IsNonDecreasingBy};
ghost use Rattle.lists_versions.specs.LastLives.{IsLastLife, LastsAt};

use crate::change::Change;
use base_types::{TextPlace, Time};

/// The place of a document's latest change, and the document's last life: the longest stretch up to
/// the end in which its versions touch.
///
/// It lies in the hash table itself, so that whether a document is alive is told there at all times
/// from the last life's start on.
#[derive(Clone, Copy, Debug)]
pub(crate) struct LastLife {
    /// The place in the log of the document's latest change.
    pub(crate) place: usize,
    /// When the life began.
    pub(crate) since: Time,
    /// When the document was deleted; None where its latest change is a version.
    pub(crate) until: Option<Time>,
}

impl LastLife {
    /// The last life once a change comes at this place, behind those for which `before` is the last
    /// life; None where the change is the document's first. Constant cost.
    pub(crate) fn behind(
        before: Option<LastLife>,
        place: usize,
        change: &Change<TextPlace>,
    ) -> LastLife
        ensures place { result.place ≡ place }
        ensures lasts { (log : _) → IsNonDecreasingBy (λ c. c.at.seconds) (log ++ change.now ∷ [])
            → IfSome before (IsLastLife change.now.doc log)
            → IsLastLife change.now.doc (log ++ change.now ∷ []) result }
    {
        let since = match before {
            Some(life) => life.start_behind(change.at),
            None => change.at,
        };
        let until = match change.held {
            Some(_) => None,
            None => Some(change.at),
        };
        LastLife {
            place,
            since,
            until,
        }
    }

    /// The start of the last life once a change comes at a time: this one's where it has no end.
    fn start_behind(self, at: Time) -> Time
        ensures { ((self.until ≡ None) × (result ≡ self.since)) ⊎ (result ≡ at) }
    {
        if self.until.is_none() { self.since } else { at }
    }

    /// Whether the document is alive at a time from the life's start on. Constant cost.
    pub(crate) fn lasts_at(&self, t: Time) -> bool
        ensures { IsTrue result ↔ LastsAt self.now t.seconds }
    {
        match self.until {
            Some(end) => t.seconds < end.seconds,
            None => true,
        }
    }
}
