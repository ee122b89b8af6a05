//! The numbers at the boundaries, and the way back along their best last segments.
ghost use Rattle.std.specs.Prelude.{◌≡◌, ℕ, ◌+◌, ◌-◌, ◌*◌, ◌<◌, ◌≤◌, ◌^◌, [], ◌∷◌, ◌++◌, length, slice_index, IfOk};
ghost use Rattle.plans_partitions.specs.Windows.{IsOver};
ghost use Rattle.plans_partitions.specs.Counts.{size_between};
ghost use Rattle.plans_guarantee.specs.Lefts.{cost_to_end, IsCheapest};
ghost use Rattle.plans_guarantee.specs.Steps.{AreSettled, HasCuts, IsWay};

use crate::cheapest_left;
use base_types::Fraction;
use plans_partitions::{Table, WindowMin, reaches};
use std::alloc::{AllocError, Global};

/// The least space up to each boundary, and the left end of the last segment of a partition that takes
/// it.
pub(crate) struct Settled {
    pub(crate) pi: Vec<u64>,
    pub(crate) lefts: Vec<usize>,
}

/// The numbers at all boundaries. Costs time in the boundaries, and 16 bytes of memory for each of them,
/// which stay; and while it runs 32 bytes for each place in the queue of a moving minimum.
pub(crate) fn settle(alloc: Global, table: &Table, factor: Fraction) -> Result<Settled, AllocError>
    requires { length table.now.boundaries ≤ 2 ^ 20 }
    ensures { IfOk result (λ s. AreSettled table.now factor s.pi.items s.lefts.items (length table.now.boundaries)) }
{
    let boundaries = table.boundaries().len();
    // how far segments reach, and in place of that, once it is known, the left end
    let mut lefts = reaches(alloc, table, factor)?;
    let mut window = WindowMin::new(alloc);
    let mut pi = Vec::with_capacity(alloc, boundaries)?;
    pi.push(0)?;
    for k in 1..boundaries {
        let low = lefts[k];
        let left = add_number(table, &mut pi, low, k, &mut window)?;
        lefts[k] = left;
    }
    Ok(Settled { pi, lefts })
}

/// Adds the number of boundary `k`, and gives the left end of a last segment that takes it, of those from
/// boundary `low` on. The window is that of `cheapest_left`.
fn add_number(
    table: &Table,
    pi: &mut Vec<u64>,
    low: usize,
    k: usize,
    window: &mut WindowMin,
) -> Result<usize, AllocError>
    requires some { 0 < k }
    requires few { length table.now.boundaries ≤ 2 ^ 20 }
    requires inside { k < length table.now.boundaries }
    requires long { length pi.old.items ≡ k }
    requires small { (i : ℕ) → i < k → slice_index pi.old.items i ≤ i * 2 ^ 38 }
    requires costs { IsOver (cost_to_end table.now pi.old.items) window.old }
    requires next { window.old.next ≡ k - 1 }
    requires on { window.old.from ≤ low }
    requires before { low < k }
    ensures costs { IfOk result (λ _. IsOver (cost_to_end table.now pi.new.items) window.new) }
    ensures next { IfOk result (λ _. window.new.next ≡ k) }
    ensures from { IfOk result (λ _. window.new.from ≡ low) }
    ensures cheapest { IfOk result (IsCheapest table.now pi.old.items low k) }
    ensures small { IfOk result (λ left. size_between table.now left k < 2 ^ 38) }
    ensures number { IfOk result (λ left. pi.new.items ≡ pi.old.items ++ (slice_index pi.old.items left + size_between table.now left k)
        ∷ []) }
{
    let left = cheapest_left(table, pi, low, k, window)?;
    let number = pi[left] + table.size(left, k);
    pi.push(number)?;
    Ok(left)
}

/// How many cuts the way back from the last boundary by left ends has.
fn count_back(lefts: &[usize]) -> usize
    requires some { 0 < length lefts.now }
    requires falling { (k : ℕ) → 0 < k → k < length lefts.now → slice_index lefts.now k < k }
    ensures { HasCuts lefts.now 0 (length lefts.now - 1) result }
{
    let mut at = lefts.len() - 1;
    let mut count = 1;
    while at > 0 {
        at = lefts[at];
        count += 1;
    }
    count
}

/// The times of the way back from the last boundary by left ends, in ascending order. Costs time in them,
/// and 8 bytes of memory for each.
pub(crate) fn cuts_back(
    alloc: Global,
    times: &[u64],
    lefts: &[usize],
) -> Result<Vec<u64>, AllocError>
    requires some { 0 < length times.now }
    requires long { length lefts.now ≡ length times.now }
    requires falling { (k : ℕ) → 0 < k → k < length lefts.now → slice_index lefts.now k < k }
    ensures { IfOk result (λ v. IsWay times.now lefts.now 0 (length times.now - 1) v.items) }
{
    let mut at = times.len() - 1;
    let mut cuts = Vec::with_capacity(alloc, count_back(lefts))?;
    cuts.push(times[at])?;
    while at > 0 {
        at = lefts[at];
        cuts.push(times[at])?;
    }
    cuts.reverse();
    Ok(cuts)
}
