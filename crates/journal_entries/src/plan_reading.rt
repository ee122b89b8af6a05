//! Reading a plan.
ghost use Rattle.journal_entries.specs.PlanReading.{segments_at, plan_at};
ghost use Rattle.journal_entries.specs.Fields.{Gives};

use crate::fields::{FieldError, end_at, time_at};
use crate::place::Place;
use crate::plan::{Listed, PlanEntry};
use crate::plan_fields::{fraction_at, key_at, kind_at, layout_at, number_in, segment_at};
use crate::tags::{MOST_SEGMENTS, SEGMENT_BYTES};
use base_types::Time;
use std::alloc::Global;

/// So many segments that ascend to the horizon, and the bytes behind them.
fn segments_at(
    alloc: Global,
    count: u32,
    horizon: Time,
    bytes: &[u8],
) -> Result<(Listed<Time>, Listed<Place>, &[u8]), FieldError>
    ensures { Gives (λ x. ((x.0, x.1), x.2.now)) result (segments_at count 0 horizon bytes.now) }
{
    let room = bytes.len() / SEGMENT_BYTES;
    let mut cuts = Vec::with_capacity(alloc, room)?;
    let mut places = Vec::with_capacity(alloc, room)?;
    let mut least = 0;
    let mut rest = bytes;
    for _ in 0..count {
        let (cut, place, behind) = segment_at(least, horizon, rest)?;
        cuts.push(cut)?;
        places.push(place)?;
        least = cut.seconds() + 1;
        rest = behind;
    }
    Ok((Listed::new(cuts), Listed::new(places), rest))
}

/// A plan, from behind its tag.
#[tactic(auto, unfolding(crate::specs::PlanReading::plan_at))]
pub fn plan_at(alloc: Global, bytes: &[u8]) -> Result<PlanEntry, FieldError>
    ensures { Gives (λ p. p) result (plan_at bytes.now) }
{
    let (layout, rest) = layout_at(bytes)?;
    let (kind, rest) = kind_at(rest)?;
    let (fraction, rest) = fraction_at(rest)?;
    let (horizon, rest) = time_at(rest)?;
    let (word, rest) = key_at(alloc, rest)?;
    let (count, rest) = number_in(1, MOST_SEGMENTS, rest)?;
    let (cuts, places, rest) = segments_at(alloc, count, horizon, rest)?;
    end_at(rest)?;
    Ok(PlanEntry {
        word,
        layout,
        kind,
        fraction,
        horizon,
        cuts,
        places,
    })
}
