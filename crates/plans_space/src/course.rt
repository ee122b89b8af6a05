//! The way along the best legs.
ghost use Rattle.std.specs.Prelude.{◌≡◌, ℕ, ◌+◌, ◌-◌, ◌<◌, ◌≤◌, ◌^◌, Some, length, slice_index, All, IfOk};
ghost use Rattle.plans_space.specs.Steps.{AreStops, AreCells, leg_charge, leg_cost, cell, IsCourse};

use crate::limits::Limits;
use crate::steps::{best_next, legs_from};
use plans_partitions::Table;
use std::alloc::{AllocError, Global};

/// The cuts of a partition that costs what the last cell says.
pub(crate) fn cuts_along(
    alloc: Global,
    table: &Table,
    limits: Limits,
    sums: &[u128],
    places: &[usize],
    cells: &[Option<u128>],
    cost: u128,
) -> Result<Vec<u64>, AllocError>
    requires some { 2 ≤ length table.now.boundaries }
    requires stops { AreStops (length table.now.boundaries) places.now }
    requires long { length sums.now ≡ length table.now.boundaries }
    requires rising { (j k : ℕ) → j ≤ k → k < length sums.now → slice_index sums.now j ≤ slice_index sums.now k }
    requires small { All (λ s. s ≤ 2 ^ 80) sums.now }
    requires cells { AreCells (leg_charge table.now limits.unit places.now) (leg_cost table.now sums.now places.now)
        (limits.budget + 1) cells.now (length places.now) }
    requires cost { cell cells.now (limits.budget + 1) (length places.now - 1) limits.budget ≡ Some cost }
    ensures { IfOk result (λ v. IsCourse (leg_charge table.now limits.unit places.now) (leg_cost table.now sums.now places.now)
        table.now.boundaries places.now (length places.now - 1) limits.budget cost v.items) }
{
    let times = table.boundaries();
    let width = limits.budget + 1;
    let mut at = places.len() - 1;
    let mut left = limits.budget;
    let mut cuts = Vec::new(alloc);
    cuts.push(times[places[at]])?;
    while at > 0 {
        let legs = legs_from(alloc, table, limits, sums, places, at)?;
        let next = best_next(cells, width, &legs, left).unwrap();
        left -= legs.charges[next.to] as usize;
        at = next.to;
        cuts.push(times[places[at]])?;
    }
    Ok(cuts)
}
