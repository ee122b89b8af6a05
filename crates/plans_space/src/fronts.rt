//! The charges at which the least cost falls.
ghost use Rattle.std.specs.Prelude.{◌≡◌, ℕ, ◌+◌, ◌-◌, ◌*◌, ◌<◌, ◌≤◌, ◌^◌, length, IfOk};
ghost use Rattle.plans_space.specs.Steps.{AreCells, ArePoints, fall, with_fall, cell};

use crate::point::Point;
use std::alloc::{AllocError, Global};

/// The cost to which the least one falls, where it does.
fn fall(before: Option<u128>, here: Option<u128>) -> Option<u128>
    ensures { result ≡ fall before here }
{
    let here = here?;
    match before {
        Some(least) if least <= here => None,
        _ => Some(here),
    }
}

/// The cell of a stop for at most the charge `c`.
fn cell_at(cells: &[Option<u128>], width: usize, stop: usize, c: usize) -> Option<u128>
    requires inside { c < width }
    requires long { stop * width + width ≤ length cells.now }
    ensures { result ≡ cell cells.now width stop c }
{
    cells[stop * width + c]
}

/// The points, and one more where the cost falls.
fn with_fall(mut points: Vec<Point>, c: usize, cost: Option<u128>) -> Result<Vec<Point>, AllocError>
    ensures { IfOk result (λ v. v.items ≡ with_fall points.items c cost) }
{
    if let Some(cost) = cost {
        points.push(Point {
            charge: c as u64,
            cost,
        })?;
    }
    Ok(points)
}

/// The points of a stop's cells.
pub(crate) fn points_of(
    alloc: Global,
    cells: &[Option<u128>],
    width: usize,
    stop: usize,
) -> Result<Vec<Point>, AllocError>
    requires few { width ≤ 2 ^ 20 }
    requires long { stop * width + width ≤ length cells.now }
    ensures { (charge cost : ℕ → ℕ → ℕ) → AreCells charge cost width cells.now (stop + 1)
        → IfOk result (λ v. ArePoints charge cost stop width v.items) }
{
    let mut points = Vec::new(alloc);
    let mut before = None;
    for c in 0..width {
        let here = cell_at(cells, width, stop, c);
        points = with_fall(points, c, fall(before, here))?;
        before = here;
    }
    Ok(points)
}
