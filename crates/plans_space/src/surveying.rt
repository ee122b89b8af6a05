//! What both calls go by: the limits, the weights' sums, the stops and their cells.
ghost use Rattle.std.specs.Prelude.{◌≡◌, ℕ, ◌+◌, ◌-◌, ◌*◌, ◌<◌, ◌≤◌, ◌^◌, Option, List, length, slice_index, All, IfOk};
ghost use Rattle.base_types.specs.declared.fraction.Fraction.{Fraction};
ghost use Rattle.plans_space.specs.Loads.{Weighs, AreWeights};
ghost use Rattle.plans_space.specs.Steps.{IsSurvey, whole_cost, cell, IsChosen};

use crate::course::cuts_along;
use crate::limits::{Limits, limits_of};
use crate::load::Load;
use crate::settling::settle;
use crate::stops::stops;
use crate::weights::{sums_of, weights_of};
use base_types::{Fraction, Span};
use plans_partitions::Table;
use std::alloc::{AllocError, Global};

/// What is known of a table under a load.
#[derive(Drop)]
pub(crate) struct Survey {
    /// The unit and the budget.
    pub(crate) limits: Limits,
    /// The sums of the first weights, by boundary.
    pub(crate) sums: Vec<u128>,
    /// Where the stops stand among the boundaries, from the last to the first.
    pub(crate) places: Vec<usize>,
    /// The least costs, stop by stop, by charge.
    pub(crate) cells: Vec<Option<u128>>,
}

/// The survey of a table with these weights of its elementary intervals.
fn survey_by(
    alloc: Global,
    table: &Table,
    factor: Fraction,
    weights: &[u64],
) -> Result<Survey, AllocError>
    requires long { length weights.now + 1 ≡ length table.now.boundaries }
    requires few { All (λ w. w ≤ 2 ^ 40) weights.now }
    ensures { IfOk result (λ s. IsSurvey table.now factor s.limits.unit s.limits.budget weights.now s.sums.items s.places.items
        s.cells.items) }
{
    let times = table.boundaries();
    let limits = limits_of(factor, table.postings());
    let sums = sums_of(alloc, weights)?;
    let places = stops(alloc, times.len())?;
    let cells = settle(alloc, table, limits, &sums, &places)?;
    Ok(Survey {
        limits,
        sums,
        places,
        cells,
    })
}

/// The survey of a table under a load.
pub(crate) fn survey_of<F: Fn(Span) -> u64>(
    alloc: Global,
    table: &Table,
    factor: Fraction,
    load: &Load<F>,
) -> Result<Survey, AllocError>
    requires weighs { Weighs (F.pre load.now) (F.post load.now) }
    ensures { IfOk result (λ s. (weights : List ℕ) × AreWeights (F.post load.now) table.now.boundaries weights
        × IsSurvey table.now factor s.limits.unit s.limits.budget weights s.sums.items s.places.items s.cells.items) }
{
    let weights = weights_of(alloc, load, table.boundaries())?;
    survey_by(alloc, table, factor, &weights)
}

/// The cost of the one piece.
pub(crate) fn whole(table: &Table, sums: &[u128]) -> u128
    requires long { length sums.now ≡ length table.now.boundaries }
    requires rising { (j k : ℕ) → j ≤ k → k < length sums.now → slice_index sums.now j ≤ slice_index sums.now k }
    requires small { (k : ℕ) → k < length sums.now → slice_index sums.now k ≤ 2 ^ 80 }
    ensures { result ≡ whole_cost table.now sums.now }
{
    let last = table.boundaries().len() - 1;
    (sums[last] - sums[0]) * u128::from(table.size(0, last))
}

/// The least cost within the budget, where there is any.
fn least(cells: &[Option<u128>], width: usize, stops: usize) -> Option<u128>
    requires some { 0 < stops }
    requires width { 0 < width }
    requires long { length cells.now ≡ stops * width }
    ensures { result ≡ cell cells.now width (stops - 1) (width - 1) }
{
    cells[cells.len() - 1]
}

/// The cuts of a best partition, and its cost.
pub(crate) fn chosen(
    alloc: Global,
    table: &Table,
    survey: &Survey,
) -> Result<(Vec<u64>, u128), AllocError>
    requires { (factor : Fraction) × (weights : List ℕ)
        × IsSurvey table.now factor survey.now.limits.unit survey.now.limits.budget weights survey.now.sums.items survey.now.places.items
        survey.now.cells.items }
    ensures { IfOk result (λ r. IsChosen table.now survey.now.limits.unit survey.now.limits.budget survey.now.sums.items
        survey.now.places.items survey.now.cells.items r.0.items r.1) }
{
    let times = table.boundaries();
    let whole = whole(table, &survey.sums);
    match least(&survey.cells, survey.limits.budget + 1, survey.places.len()) {
        Some(cost) if cost < whole => {
            let cuts = cuts_along(
                alloc,
                table,
                survey.limits,
                &survey.sums,
                &survey.places,
                &survey.cells,
                cost,
            )?;
            Ok((cuts, cost))
        }
        _ => {
            let mut cuts = Vec::new(alloc);
            cuts.push(times[0])?;
            cuts.push(times[times.len() - 1])?;
            Ok((cuts, whole))
        }
    }
}
