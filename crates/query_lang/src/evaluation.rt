//! Evaluating operators in turn.
ghost use Rattle.std.specs.Prelude.{◌≡◌, ℕ, ◌*◌, [], ◌∷◌, ◌<◌, ◌≤◌, max, length, slice_index, All, IfOk, OnOk};
ghost use Rattle.query_lang.specs.Evaluation.{truths_by, truths_of, top_truth, count_of, most_at, scored};
ghost use Rattle.query_lang.specs.Numbered.{IsPlaced};

use crate::op::{Op, Spot};
use crate::pile::Pile;
use std::alloc::{AllocError, Global};

/// What one operator makes of the truths on the pile, where words are as frequent as `counts` says
/// at their places. Constant cost.
fn apply(op: &Op<Spot>, counts: &[u32], truths: &mut Pile<bool>) -> Result<(), AllocError>
    requires { IsPlaced (length counts.now) op.now }
    ensures { OnOk result (truths.new ≡ truths_by (count_of counts.now) op.now truths.old) }
{
    if let Op::Push(spot, _) = op {
        return truths.push(counts[spot.place] > 0);
    }
    let Some(last) = truths.pop() else {
        return Ok(());
    };
    if let Op::Negate = op {
        return truths.push(!last);
    }
    let Some(first) = truths.pop() else {
        return truths.push(last);
    };
    match op {
        Op::Conjoin => truths.push(first && last),
        _ => truths.push(first || last),
    }
}

/// Whether a text matches in which words are as frequent as `counts` says at their places. Costs the
/// number of the operators; the pile is room that can be used again.
pub(crate) fn evaluated(
    ops: &[Op<Spot>],
    counts: &[u32],
    truths: &mut Pile<bool>,
) -> Result<bool, AllocError>
    requires { All (IsPlaced (length counts.now)) ops.now }
    ensures { IfOk result (λ b. b ≡ top_truth (truths_of (count_of counts.now) ops.now [])) }
{
    truths.clear();
    for op in ops {
        apply(op, counts, truths)?;
    }
    Ok(truths.pop().unwrap_or(false))
}

/// Notes what an operator's word weighs, where it stands under an even number of `not`.
fn note(weights: &mut Vec<u32>, op: &Op<Spot>)
    requires { IsPlaced (length weights.old.items) op.now }
    ensures count { length weights.new.items ≡ length weights.old.items }
    ensures weights { (k : ℕ) → k < length weights.old.items
        → slice_index weights.new.items k ≡ max (slice_index weights.old.items k) (most_at k (op.now ∷ [])) }
{
    if let Op::Push(spot, even) = op {
        if *even && weights[spot.place] < spot.weight {
            weights[spot.place] = spot.weight;
        }
    }
}

/// How much each of so many words weighs.
pub(crate) fn weights_of(
    alloc: Global,
    ops: &[Op<Spot>],
    words: usize,
) -> Result<Vec<u32>, AllocError>
    requires { All (IsPlaced words) ops.now }
    ensures count { IfOk result (λ v. length v.items ≡ words) }
    ensures weights { IfOk result (λ v. (k : ℕ) → k < words → slice_index v.items k ≡ most_at k ops.now) }
{
    let mut weights = vec![in alloc; 0; words]?;
    for op in ops {
        note(&mut weights, op);
    }
    Ok(weights)
}

/// The sum of the counts, each by its weight.
pub(crate) fn scored(weights: &[u32], counts: &[u32]) -> u64
    requires same { length weights.now ≡ length counts.now }
    requires few { length counts.now ≤ 4096 }
    requires light { All (λ w. w ≤ 1000) weights.now }
    ensures { result ≡ scored weights.now counts.now }
{
    let mut score = 0;
    for (place, count) in counts.iter().enumerate() {
        score += weighed(weights[place], *count);
    }
    score
}

fn weighed(weight: u32, count: u32) -> u64
    requires { weight ≤ 1000 }
    ensures value { result ≡ weight * count }
    ensures small { result ≤ 4294967296000 }
{
    u64::from(weight) * u64::from(count)
}
