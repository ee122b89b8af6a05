//! Best plans, and the front of their costs.
ghost use Rattle.std.specs.Prelude.{◌≡◌, ℕ, ◌+◌, ◌-◌, ◌<◌, ◌≤◌, List, length, slice_index, drop, IfOk};
ghost use Rattle.base_types.specs.declared.posting.Posting.{Posting};
ghost use Rattle.base_types.specs.declared.fraction.Fraction.{Fraction};
ghost use Rattle.plans_partitions.specs.Counts.{Tabulates};
ghost use Rattle.plans_partitions.specs.Partitions.{IsFitting, space};
ghost use Rattle.plans_space.specs.Caps.{cap};
ghost use Rattle.plans_space.specs.Costs.{expected_cost};
ghost use Rattle.plans_space.specs.Loads.{Weighs, AreWeights};
ghost use Rattle.plans_space.specs.Plans.{IsBestUnder, IsFront};
ghost use Rattle.plans_space.specs.Steps.{IsSurvey};

use crate::fronts::points_of;
use crate::load::Load;
use crate::point::Point;
use crate::surveying::{Survey, chosen, survey_of};
use base_types::{Fraction, Span};
use plans_partitions::{Partition, Table};
use std::alloc::{AllocError, Global};

/// A best partition by a survey, and its cost.
pub(crate) fn plan_by(
    alloc: Global,
    table: &Table,
    survey: &Survey,
) -> Result<(Partition, u128), AllocError>
    requires { (factor : Fraction) × (weights : List ℕ)
        × IsSurvey table.now factor survey.now.limits.unit survey.now.limits.budget weights survey.now.sums.items survey.now.places.items
        survey.now.cells.items }
    ensures fits { IfOk result (λ p. IsFitting table.now.boundaries p.0) }
    ensures best { (factor : Fraction) (weights : List ℕ)
        → IsSurvey table.now factor survey.now.limits.unit survey.now.limits.budget weights survey.now.sums.items survey.now.places.items
        survey.now.cells.items
        → IfOk result (λ p. (list : List Posting) (horizon : ℕ) → Tabulates list horizon table.now
        → IsBestUnder list table.now.boundaries weights factor (slice_index p.0 0) horizon (drop 1 p.0)
        × (p.1 ≡ expected_cost list (slice_index p.0 0) (drop 1 p.0) table.now.boundaries weights)) }
{
    let _times = table.boundaries();
    let (cuts, cost) = chosen(alloc, table, survey)?;
    let partition = Partition::new(cuts).unwrap();
    Ok((partition, cost))
}

/// A partition whose reads are expected to cost least, among the one piece and those that cut at
/// candidates and keep the budget, and what they are expected to cost. Any of these may be chosen.
/// Costs one call of the load for each elementary interval (tested), and time in the square of the
/// candidates times the budget, at most 33 million steps. Takes 32 bytes for each candidate and unit of
/// the budget, at most 17 MB, and 24 bytes for each boundary; twice that where a vector has just grown.
pub fn plan<F: Fn(Span) -> u64>(
    alloc: Global,
    table: &Table,
    factor: Fraction,
    load: &Load<F>,
) -> Result<(Partition, u128), AllocError>
    requires weighs { Weighs (F.pre load.now) (F.post load.now) }
    ensures fits { IfOk result (λ p. IsFitting table.now.boundaries p.0) }
    ensures capped { IfOk result (λ p. (list : List Posting) (horizon : ℕ) → Tabulates list horizon table.now
        → space list (slice_index p.0 0) (drop 1 p.0) ≤ cap factor (length list)) }
    ensures best { IfOk result (λ p. (weights : List ℕ) × AreWeights (F.post load.now) table.now.boundaries weights
        × ((list : List Posting) (horizon : ℕ) → Tabulates list horizon table.now
        → IsBestUnder list table.now.boundaries weights factor (slice_index p.0 0) horizon (drop 1 p.0)
        × (p.1 ≡ expected_cost list (slice_index p.0 0) (drop 1 p.0) table.now.boundaries weights))) }
{
    let survey = survey_of(alloc, table, factor, load)?;
    let (partition, cost) = plan_by(alloc, table, &survey)?;
    Ok((partition, cost))
}

/// The points of a survey.
fn front_by(alloc: Global, table: &Table, survey: &Survey) -> Result<Vec<Point>, AllocError>
    requires { (factor : Fraction) × (weights : List ℕ)
        × IsSurvey table.now factor survey.now.limits.unit survey.now.limits.budget weights survey.now.sums.items survey.now.places.items
        survey.now.cells.items }
    ensures { (factor : Fraction) (weights : List ℕ)
        → IsSurvey table.now factor survey.now.limits.unit survey.now.limits.budget weights survey.now.sums.items survey.now.places.items
        survey.now.cells.items
        → IfOk result (λ v. (list : List Posting) (horizon : ℕ) → Tabulates list horizon table.now
        → IsFront list table.now.boundaries weights factor (slice_index table.now.boundaries 0) horizon v.items) }
{
    let _times = table.boundaries();
    let points = points_of(
        alloc,
        &survey.cells,
        survey.limits.budget + 1,
        survey.places.len() - 1,
    )?;
    Ok(points)
}

/// Each charge up to the budget at which the least expected cost falls of the partitions that cut at
/// candidates and are charged at most that, with that cost, in order; none where each is charged more
/// than the budget. Costs what `plan` does.
pub fn front<F: Fn(Span) -> u64>(
    alloc: Global,
    table: &Table,
    factor: Fraction,
    load: &Load<F>,
) -> Result<Vec<Point>, AllocError>
    requires weighs { Weighs (F.pre load.now) (F.post load.now) }
    ensures { IfOk result (λ v. (weights : List ℕ) × AreWeights (F.post load.now) table.now.boundaries weights
        × ((list : List Posting) (horizon : ℕ) → Tabulates list horizon table.now
        → IsFront list table.now.boundaries weights factor (slice_index table.now.boundaries 0) horizon v.items)) }
{
    let survey = survey_of(alloc, table, factor, load)?;
    let points = front_by(alloc, table, &survey)?;
    Ok(points)
}
