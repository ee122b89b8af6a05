//! Whether a partition that is there is a best one.
ghost use Rattle.std.specs.Prelude.{◌≡◌, ◌+◌, ◌-◌, ◌*◌, ◌<◌, ◌≤◌, ◌^◌, ◌↔◌, ℕ, List, length, slice_index, drop, All, IfOk, IfSome, IfNone, MatchOption, IsTrue};
ghost use Rattle.base_types.specs.declared.fraction.Fraction.{Fraction};
ghost use Rattle.base_types.specs.declared.posting.Posting.{Posting};
ghost use Rattle.plans_partitions.specs.Counts.{Tabulates};
ghost use Rattle.plans_space.specs.Costs.{expected_cost};
ghost use Rattle.plans_space.specs.Loads.{Weighs, AreWeights};
ghost use Rattle.plans_space.specs.Plans.{IsBestUnder, IsEligible};
ghost use Rattle.plans_space.specs.Steps.{AreStops, IsNoPath, IsSurvey, IsWay};

use crate::limits::Limits;
use crate::load::Load;
use crate::planning::plan_by;
use crate::steps::leg;
use crate::surveying::{Survey, survey_of, whole};
use base_types::{Fraction, Span};
use plans_partitions::{Partition, Table};
use std::alloc::{AllocError, Global};

/// Whether a partition, from the first boundary to the last, may be chosen under the bound, and no other
/// one that may be is expected to cost less: its cuts and its charges are tested, and its cost is compared
/// with that of the partition that `plan` makes. Costs what `plan` does.
pub fn is_best<F: Fn(Span) -> u64>(
    alloc: Global,
    table: &Table,
    factor: Fraction,
    load: &Load<F>,
    partition: &Partition,
) -> Result<bool, AllocError>
    requires weighs { Weighs (F.pre load.now) (F.post load.now) }
    requires first { slice_index partition.now 0 ≡ slice_index table.now.boundaries 0 }
    requires last { slice_index partition.now (length partition.now - 1) ≡ slice_index table.now.boundaries
        (length table.now.boundaries - 1) }
    ensures { IfOk result (λ b. (weights : List ℕ) × AreWeights (F.post load.now) table.now.boundaries weights
        × ((list : List Posting) (horizon : ℕ) → Tabulates list horizon table.now
        → (IsTrue b ↔ IsBestUnder list table.now.boundaries weights factor (slice_index table.now.boundaries 0) horizon
        (drop 1 partition.now)))) }
{
    let survey = survey_of(alloc, table, factor, load)?;
    let best = costs_least(alloc, table, &survey, partition.cuts())?;
    Ok(best)
}

/// Whether a partition with these cuts is a best one by a survey.
fn costs_least(
    alloc: Global,
    table: &Table,
    survey: &Survey,
    cuts: &[u64],
) -> Result<bool, AllocError>
    requires many { 2 ≤ length cuts.now }
    requires last { slice_index cuts.now (length cuts.now - 1) ≡ slice_index table.now.boundaries (length table.now.boundaries - 1) }
    requires surveyed { (factor : Fraction) × (weights : List ℕ)
        × IsSurvey table.now factor survey.now.limits.unit survey.now.limits.budget weights survey.now.sums.items survey.now.places.items
        survey.now.cells.items }
    ensures { (factor : Fraction) (weights : List ℕ)
        → IsSurvey table.now factor survey.now.limits.unit survey.now.limits.budget weights survey.now.sums.items survey.now.places.items
        survey.now.cells.items
        → IfOk result (λ b. (list : List Posting) (horizon : ℕ) → Tabulates list horizon table.now
        → (IsTrue b ↔ IsBestUnder list table.now.boundaries weights factor (slice_index table.now.boundaries 0) horizon
        (drop 1 cuts.now))) }
{
    let Some(cost) = cost_of(table, survey, cuts) else {
        return Ok(false);
    };
    let (_, least) = plan_by(alloc, table, survey)?;
    Ok(cost == least)
}

/// What a partition with these cuts is expected to cost, where it may be chosen.
fn cost_of(table: &Table, survey: &Survey, cuts: &[u64]) -> Option<u128>
    requires many { 2 ≤ length cuts.now }
    requires last { slice_index cuts.now (length cuts.now - 1) ≡ slice_index table.now.boundaries (length table.now.boundaries - 1) }
    requires surveyed { (factor : Fraction) × (weights : List ℕ)
        × IsSurvey table.now factor survey.now.limits.unit survey.now.limits.budget weights survey.now.sums.items survey.now.places.items
        survey.now.cells.items }
    ensures { (factor : Fraction) (weights : List ℕ)
        → IsSurvey table.now factor survey.now.limits.unit survey.now.limits.budget weights survey.now.sums.items survey.now.places.items
        survey.now.cells.items
        → (list : List Posting) (horizon : ℕ) → Tabulates list horizon table.now
        → MatchOption result (IsEligible list table.now.boundaries factor (slice_index table.now.boundaries 0) horizon (drop 1 cuts.now)
        → ⊥)
        (λ n. IsEligible list table.now.boundaries factor (slice_index table.now.boundaries 0) horizon (drop 1 cuts.now)
        × (n ≡ expected_cost list (slice_index table.now.boundaries 0) (drop 1 cuts.now) table.now.boundaries weights)) }
{
    if cuts.len() == 2 {
        return Some(whole(table, &survey.sums));
    }
    let (charged, cost) = walk(
        table,
        survey.limits,
        &survey.sums,
        &survey.places,
        survey.places.len() - 1,
        &cuts[1..],
    )?;
    if charged > survey.limits.budget as u64 {
        return None;
    }
    Some(cost)
}

/// What a partition is charged and what it costs behind a stop, where these are its cuts; None where they
/// are those of no path from there.
fn walk(
    table: &Table,
    limits: Limits,
    sums: &[u128],
    places: &[usize],
    at: usize,
    cuts: &[u64],
) -> Option<(u64, u128)>
    requires some { 2 ≤ length table.now.boundaries }
    requires stops { AreStops (length table.now.boundaries) places.now }
    requires inside { at < length places.now }
    requires long { length sums.now ≡ length table.now.boundaries }
    requires rising { (j k : ℕ) → j ≤ k → k < length sums.now → slice_index sums.now j ≤ slice_index sums.now k }
    requires small { All (λ s. s ≤ 2 ^ 80) sums.now }
    ensures none { IfNone result (IsNoPath table.now.boundaries places.now at cuts.now) }
    ensures way { IfSome result (λ r. IsWay table.now limits.unit sums.now places.now at cuts.now r.0 r.1) }
    ensures charged { IfSome result (λ r. r.0 ≤ at * 2 ^ 38) }
    ensures cost { IfSome result (λ r. r.1 ≤ at * 2 ^ 118) }
{
    let Some((cut, behind)) = cuts.split_first() else {
        return if at == 0 { Some((0, 0)) } else { None };
    };
    let next = stop_at(table.boundaries(), places, at, *cut)?;
    let (charge, cost) = leg(table, limits, sums, places, at, next);
    let (charged, costs) = walk(table, limits, sums, places, next, behind)?;
    Some((charge + charged, cost + costs))
}

/// The stop below another one that has this time; None where there is none. Costs the stops.
fn stop_at(times: &[u64], places: &[usize], at: usize, cut: u64) -> Option<usize>
    requires inside { at < length places.now }
    requires stops { AreStops (length times.now) places.now }
    requires some { 2 ≤ length times.now }
    ensures none { IfNone result ((j : ℕ) → j < at → slice_index times.now (slice_index places.now j) ≡ cut → ⊥) }
    ensures stop { IfSome result (λ j. (j < at) × (slice_index times.now (slice_index places.now j) ≡ cut)) }
{
    for j in 0..at {
        if times[places[j]] == cut {
            return Some(j);
        }
    }
    None
}
