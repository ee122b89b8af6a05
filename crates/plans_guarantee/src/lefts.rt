//! The cheapest last segment to a boundary.
ghost use Rattle.std.specs.Prelude.{◌≡◌, ◌-◌, ◌<◌, ◌≤◌, length, IfOk};
ghost use Rattle.plans_partitions.specs.Windows.{IsOver};
ghost use Rattle.plans_guarantee.specs.Lefts.{cost_to_end, IsCheapest};

use plans_partitions::{Table, WindowMin};
use std::alloc::AllocError;

/// The left end of a cheapest last segment to boundary `k`, among those from boundary `low` on, where a
/// segment costs its size and the number at its left end.
///
/// Since a size is a difference of two counts, one of each end, the same left ends are cheapest
/// whatever the right end. So a window keeps, for each boundary before, its number and the size from
/// there to the last boundary; this call adds that of boundary `k - 1`, and moves the window's start on
/// to `low`. Calls for all boundaries in order cost time in their number.
pub fn cheapest_left(
    table: &Table,
    numbers: &[u64],
    low: usize,
    k: usize,
    window: &mut WindowMin,
) -> Result<usize, AllocError>
    requires some { 0 < k }
    requires inside { k < length table.now.boundaries }
    requires long { k ≤ length numbers.now }
    requires costs { IsOver (cost_to_end table.now numbers.now) window.old }
    requires next { window.old.next ≡ k - 1 }
    requires on { window.old.from ≤ low }
    requires before { low < k }
    ensures costs { IfOk result (λ _. IsOver (cost_to_end table.now numbers.now) window.new) }
    ensures next { IfOk result (λ _. window.new.next ≡ k) }
    ensures from { IfOk result (λ _. window.new.from ≡ low) }
    ensures cheapest { IfOk result (IsCheapest table.now numbers.now low k) }
{
    let last = table.boundaries().len() - 1;
    let size = table.size(k - 1, last);
    window.push(u128::from(numbers[k - 1]) + u128::from(size))?;
    window.start_at(low);
    Ok(window.least_place())
}
