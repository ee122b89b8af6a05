//! The dynamic program: the least cost from each stop for at most each charge.
ghost use Rattle.std.specs.Prelude.{◌≡◌, ℕ, ◌+◌, ◌<◌, ◌≤◌, ◌^◌, length, slice_index, All, IfOk};
ghost use Rattle.plans_space.specs.Steps.{AreStops, AreCells, leg_charge, leg_cost};

use crate::limits::Limits;
use crate::steps::{legs_from, row};
use plans_partitions::Table;
use std::alloc::{AllocError, Global};

/// The cells of all stops, from that of the horizon on, each stop's by charge.
pub(crate) fn settle(
    alloc: Global,
    table: &Table,
    limits: Limits,
    sums: &[u128],
    places: &[usize],
) -> Result<Vec<Option<u128>>, AllocError>
    requires some { 2 ≤ length table.now.boundaries }
    requires stops { AreStops (length table.now.boundaries) places.now }
    requires long { length sums.now ≡ length table.now.boundaries }
    requires rising { (j k : ℕ) → j ≤ k → k < length sums.now → slice_index sums.now j ≤ slice_index sums.now k }
    requires small { All (λ s. s ≤ 2 ^ 80) sums.now }
    ensures { IfOk result (λ v. AreCells (leg_charge table.now limits.unit places.now) (leg_cost table.now sums.now places.now)
        (limits.budget + 1) v.items (length places.now)) }
{
    let width = limits.budget + 1;
    // from the last stop nothing is left to pay
    let mut cells = vec![in alloc; Some(0); width]?;
    for i in 1..places.len() {
        let legs = legs_from(alloc, table, limits, sums, places, i)?;
        let mut next = row(alloc, &cells, width, &legs)?;
        cells.append(&mut next)?;
    }
    Ok(cells)
}
