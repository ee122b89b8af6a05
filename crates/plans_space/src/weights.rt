//! The weights of elementary intervals, and their sums.
ghost use Rattle.std.specs.Prelude.{ℕ, ◌+◌, ◌<◌, ◌≤◌, ◌^◌, length, slice_index, All, IfOk};
ghost use Rattle.std.specs.List.Sorted.{IsStrictlyIncreasing};
ghost use Rattle.plans_space.specs.Loads.{Weighs, AreWeights};
ghost use Rattle.plans_space.specs.Steps.{AreSums};

use crate::load::Load;
use base_types::Span;
use std::alloc::{AllocError, Global};

/// The weights of the elementary intervals between the times, each asked for once.
pub(crate) fn weights_of<F: Fn(Span) -> u64>(
    alloc: Global,
    load: &Load<F>,
    times: &[u64],
) -> Result<Vec<u64>, AllocError>
    requires weighs { Weighs (F.pre load.now) (F.post load.now) }
    requires some { 1 ≤ length times.now }
    requires ascending { IsStrictlyIncreasing times.now }
    requires in_time { All (λ x. x < 2 ^ 40) times.now }
    ensures are { IfOk result (λ v. AreWeights (F.post load.now) times.now v.items) }
    ensures few { IfOk result (λ v. All (λ w. w ≤ 2 ^ 40) v.items) }
{
    let mut weights = Vec::new(alloc);
    for k in 1..times.len() {
        let span = Span::new(times[k - 1], times[k]).unwrap();
        weights.push(load.weigh(span))?;
    }
    Ok(weights)
}

/// The sums of the first weights, from that of none to that of all.
pub(crate) fn sums_of(alloc: Global, weights: &[u64]) -> Result<Vec<u128>, AllocError>
    requires few { All (λ w. w ≤ 2 ^ 40) weights.now }
    requires short { length weights.now ≤ 2 ^ 40 }
    ensures are { IfOk result (λ v. AreSums weights.now v.items) }
    ensures rising { IfOk result (λ v. (j k : ℕ) → j ≤ k → k < length v.items → slice_index v.items j ≤ slice_index v.items k) }
    ensures small { IfOk result (λ v. All (λ s. s ≤ 2 ^ 80) v.items) }
{
    let mut sums = Vec::new(alloc);
    let mut sum = 0u128;
    sums.push(sum)?;
    for weight in weights {
        sum += u128::from(*weight);
        sums.push(sum)?;
    }
    Ok(sums)
}
