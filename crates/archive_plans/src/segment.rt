//! The segment of a plan that has a time.
ghost use Rattle.std.specs.Prelude.{◌≡◌, ◌<◌, ◌≤◌, ◌+◌, ◌^◌, length, drop, get_or, IfSome};
ghost use Rattle.pages_sublists.specs.Segments.{next_cut, seconds};
ghost use Rattle.archive_plans.specs.Framing.{AreInTurn};
ghost use Rattle.archive_plans.specs.Segments.{IsSegmentAt};

use base_types::{Span, Time};
use journal_entries::{Place, PlanEntry};

/// A segment, and the place of its sublist.
#[derive(Clone, Copy)]
pub(crate) struct Segment {
    pub(crate) span: Span,
    pub(crate) place: Place,
}

/// The segment of a plan that has a time, if there is one. Costs the segments in front of it.
pub(crate) fn segment_at(plan: &PlanEntry, t: Time) -> Option<Segment>
    requires as_many { length plan.now.places ≡ length plan.now.cuts }
    ensures found { AreInTurn plan.now → IsSegmentAt plan.now t.seconds result }
    ensures among { IfSome result (λ s. (k : _) × (k < length plan.now.places) × (s.place ≡ get_or plan.now.places k s.place)) }
{
    let cuts = plan.cuts.as_slice();
    let places = plan.places.as_slice();
    for k in 0..cuts.len() {
        let from = cuts[k].seconds;
        let to = end_at(cuts, plan.horizon, k + 1);
        if from <= t.seconds && t.seconds < to {
            let place = places[k];
            return Some(Segment {
                span: Span { from, to },
                place,
            });
        }
    }
    None
}

/// The cut of this number, or the horizon.
fn end_at(cuts: &[Time], horizon: Time, k: usize) -> u64
    ensures value { result ≡ next_cut (seconds (drop k cuts.now)) horizon.seconds }
    ensures in_time { result ≤ 2 ^ 40 }
{
    match cuts.get(k) {
        Some(cut) => cut.seconds,
        None => horizon.seconds,
    }
}
