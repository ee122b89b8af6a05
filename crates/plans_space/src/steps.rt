//! One step of the dynamic program: the legs from a stop, and the best of them.
ghost use Rattle.std.specs.Prelude.{◌≡◌, ℕ, ◌+◌, ◌-◌, ◌*◌, ◌<◌, ◌≤◌, ◌^◌, Option, length, slice_index, slice_index_or, All, IfOk, IfSome, None};
ghost use Rattle.plans_space.specs.Steps.{AreStops, AreLegs, leg_charge, leg_cost, through, lesser, IsLeastWay, IsBestOf, IsRow};

use crate::limits::{Limits, charge};
use plans_partitions::Table;
use std::alloc::{AllocError, Global};

/// The charges and costs of the legs from a stop to each later one, by number.
#[derive(Drop)]
pub(crate) struct Legs {
    pub(crate) charges: Vec<u64>,
    pub(crate) costs: Vec<u128>,
}

/// What the leg from stop `i` to stop `j` is charged, and what it costs.
pub(crate) fn leg(
    table: &Table,
    limits: Limits,
    sums: &[u128],
    places: &[usize],
    i: usize,
    j: usize,
) -> (u64, u128)
    requires some { 2 ≤ length table.now.boundaries }
    requires stops { AreStops (length table.now.boundaries) places.now }
    requires lower { j < i }
    requires inside { i < length places.now }
    requires long { length sums.now ≡ length table.now.boundaries }
    requires rising { (j k : ℕ) → j ≤ k → k < length sums.now → slice_index sums.now j ≤ slice_index sums.now k }
    requires small { All (λ s. s ≤ 2 ^ 80) sums.now }
    ensures charge { result.0 ≡ leg_charge table.now limits.unit places.now i j }
    ensures cost { result.1 ≡ leg_cost table.now sums.now places.now i j }
    ensures few { result.0 ≤ 2 ^ 38 }
    ensures small { result.1 ≤ 2 ^ 118 }
{
    let (from, to) = (places[i], places[j]);
    let size = table.size(from, to);
    let weight = sums[to] - sums[from];
    (charge(size, limits), weight * u128::from(size))
}

/// The legs from stop `i`.
pub(crate) fn legs_from(
    alloc: Global,
    table: &Table,
    limits: Limits,
    sums: &[u128],
    places: &[usize],
    i: usize,
) -> Result<Legs, AllocError>
    requires some { 2 ≤ length table.now.boundaries }
    requires stops { AreStops (length table.now.boundaries) places.now }
    requires inside { i < length places.now }
    requires long { length sums.now ≡ length table.now.boundaries }
    requires rising { (j k : ℕ) → j ≤ k → k < length sums.now → slice_index sums.now j ≤ slice_index sums.now k }
    requires small { All (λ s. s ≤ 2 ^ 80) sums.now }
    ensures { IfOk result (λ l. AreLegs table.now limits.unit sums.now places.now i i l.charges.items l.costs.items) }
{
    let mut charges = Vec::new(alloc);
    let mut costs = Vec::new(alloc);
    for j in 0..i {
        let (charge, cost) = leg(table, limits, sums, places, i, j);
        charges.push(charge)?;
        costs.push(cost)?;
    }
    Ok(Legs { charges, costs })
}

/// The least cost by the leg to stop `j` for at most the charge `c`.
fn through(cells: &[Option<u128>], width: usize, legs: &Legs, c: usize, j: usize) -> Option<u128>
    requires inside { j < length legs.now.costs.items }
    requires same { length legs.now.charges.items ≡ length legs.now.costs.items }
    requires long { length legs.now.costs.items * width ≤ length cells.now }
    requires width { c < width }
    requires few { width ≤ 2 ^ 20 }
    requires stops { length legs.now.costs.items ≤ 128 }
    requires small { All (λ w. w ≤ 2 ^ 118) legs.now.costs.items }
    requires cells { All (λ v. IfSome v (λ w. w ≤ 2 ^ 126)) cells.now }
    ensures { result ≡ through cells.now width legs.now.charges.items legs.now.costs.items c j }
{
    let charge = legs.charges[j];
    if charge > c as u64 {
        return None;
    }
    let rest = cells[j * width + (c - charge as usize)]?;
    Some(legs.costs[j] + rest)
}

/// A way on: the number of the stop to which a leg leads, and the least cost by it.
#[derive(Clone, Copy)]
pub(crate) struct Next {
    pub(crate) to: usize,
    pub(crate) cost: u128,
}

/// The better of the best way so far and the one by stop `to`.
fn better(best: Option<Next>, to: usize, cost: Option<u128>) -> Option<Next>
    ensures { (ways : ℕ → Option ℕ) → ways to ≡ cost → IsBestOf ways to best → IsBestOf ways (to + 1) result }
{
    let Some(cost) = cost else {
        return best;
    };
    match best {
        Some(next) if next.cost <= cost => best,
        _ => Some(Next { to, cost }),
    }
}

/// The best way on from the stop with these legs, for at most the charge `c`; None where there is none.
pub(crate) fn best_next(cells: &[Option<u128>], width: usize, legs: &Legs, c: usize) -> Option<Next>
    requires same { length legs.now.charges.items ≡ length legs.now.costs.items }
    requires long { length legs.now.costs.items * width ≤ length cells.now }
    requires width { c < width }
    requires few { width ≤ 2 ^ 20 }
    requires stops { length legs.now.costs.items ≤ 128 }
    requires small { All (λ w. w ≤ 2 ^ 118) legs.now.costs.items }
    requires cells { All (λ v. IfSome v (λ w. w ≤ 2 ^ 126)) cells.now }
    ensures { IsBestOf (through cells.now width legs.now.charges.items legs.now.costs.items c) (length legs.now.costs.items) result }
{
    let mut best = None;
    for j in 0..legs.costs.len() {
        best = better(best, j, through(cells, width, legs, c, j));
    }
    best
}

/// The lesser of two costs, where there are any.
fn lesser(one: Option<u128>, other: Option<u128>) -> Option<u128>
    ensures { result ≡ lesser one other }
{
    let Some(cost) = one else {
        return other;
    };
    let Some(against) = other else {
        return one;
    };
    Some(cost.min(against))
}

/// Lowers the cells of a row, the least costs by the legs to the stops before `j`, to what the leg to
/// stop `j` makes possible.
fn lower_by(row: &mut [Option<u128>], cells: &[Option<u128>], legs: &Legs, j: usize)
    requires inside { j < length legs.now.costs.items }
    requires same { length legs.now.charges.items ≡ length legs.now.costs.items }
    requires long { length legs.now.costs.items * length row.old ≤ length cells.now }
    requires few { length row.old ≤ 2 ^ 20 }
    requires stops { length legs.now.costs.items ≤ 128 }
    requires small { All (λ w. w ≤ 2 ^ 118) legs.now.costs.items }
    requires cells { All (λ v. IfSome v (λ w. w ≤ 2 ^ 126)) cells.now }
    ensures { (c : ℕ) → c < length row.old
        → IsLeastWay (through cells.now (length row.old) legs.now.charges.items legs.now.costs.items c) j (slice_index_or row.old c None)
        → IsLeastWay (through cells.now (length row.old) legs.now.charges.items legs.now.costs.items c) (j + 1)
        (slice_index_or row.new c None) }
{
    let width = row.len();
    for c in 0..width {
        row[c] = lesser(row[c], through(cells, width, legs, c, j));
    }
}

/// The cells of the stop with these legs, for at most each charge below the width.
pub(crate) fn row(
    alloc: Global,
    cells: &[Option<u128>],
    width: usize,
    legs: &Legs,
) -> Result<Vec<Option<u128>>, AllocError>
    requires same { length legs.now.charges.items ≡ length legs.now.costs.items }
    requires long { length legs.now.costs.items * width ≤ length cells.now }
    requires few { width ≤ 2 ^ 20 }
    requires stops { length legs.now.costs.items ≤ 128 }
    requires small { All (λ w. w ≤ 2 ^ 118) legs.now.costs.items }
    requires cells { All (λ v. IfSome v (λ w. w ≤ 2 ^ 126)) cells.now }
    ensures { IfOk result (λ v. IsRow cells.now width legs.now.charges.items legs.now.costs.items v.items (length legs.now.costs.items)) }
{
    let mut row = vec![in alloc; None; width]?;
    for j in 0..legs.costs.len() {
        lower_by(&mut row, cells, legs, j);
    }
    Ok(row)
}
