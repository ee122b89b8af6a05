//! The picks of a choice.
ghost use Rattle.std.specs.Prelude.{◌≡◌, ℕ, ◌+◌, ◌<◌, ◌≤◌, Some, List, length, All, IfOk, IfSome, IsNone};
ghost use Rattle.plans_share.specs.Choices.{ArePicks, total};
ghost use Rattle.plans_share.specs.Steps.{AreCheap, AreRows, IsWithin, IsCell};

use crate::offer::Offer;
use crate::steps::best_pick;
use std::alloc::{AllocError, Global};

/// The whole of each offer.
pub(crate) fn wholes(alloc: Global, offers: &[Offer]) -> Result<Vec<usize>, AllocError>
    requires few { length offers.now ≤ 16 }
    ensures are { IfOk result (λ v. ArePicks offers.now v.items) }
    ensures wholes { IfOk result (λ v. All (λ k. k ≡ 0) v.items) }
{
    let picks = vec![in alloc; 0; offers.len()]?;
    Ok(picks)
}

/// What the wholes cost together.
pub(crate) fn cost_of_wholes(offers: &[Offer]) -> u128
    requires few { length offers.now ≤ 16 }
    requires cheap { All AreCheap offers.now }
    ensures { (picks : List ℕ) → ArePicks offers.now picks → All (λ k. k ≡ 0) picks → result ≡ total (λ p. p.cost) offers.now picks }
{
    let mut cost = 0u128;
    for offer in offers {
        cost += offer.whole().cost;
    }
    cost
}

/// Picks within the budget that cost what the last row says.
pub(crate) fn picks_along(
    alloc: Global,
    offers: &[Offer],
    rows: &[Vec<Option<u128>>],
    budget: usize,
    cost: u128,
) -> Result<Vec<usize>, AllocError>
    requires few { length offers.now ≤ 16 }
    requires small { budget ≤ 4096 }
    requires fronts { All (λ o. length o.front ≤ 4097) offers.now }
    requires cheap { All AreCheap offers.now }
    requires rows { AreRows offers.now (budget + 1) rows.now (length offers.now + 1) }
    requires cost { IsCell offers.now budget (Some cost) }
    ensures within { IfOk result (λ v. IsWithin offers.now budget v.items) }
    ensures cost { IfOk result (λ v. total (λ p. p.cost) offers.now v.items ≤ cost) }
{
    let mut picks = Vec::new(alloc);
    let mut left = budget;
    for w in 0..offers.len() {
        let offer = &offers[w];
        let next = best_pick(&rows[offers.len() - 1 - w], offer, left).unwrap();
        left -= offer.point(next.pick).charge as usize;
        picks.push(next.pick)?;
    }
    Ok(picks)
}

/// The least cost within the budget, where there is any.
pub(crate) fn least(offers: &[Offer], rows: &[Vec<Option<u128>>], budget: usize) -> Option<u128>
    requires rows { AreRows offers.now (budget + 1) rows.now (length offers.now + 1) }
    ensures { IsCell offers.now budget result }
{
    rows[offers.len()][budget]
}

/// The cost, where there is one below another.
pub(crate) fn below(cost: Option<u128>, whole: u128) -> Option<u128>
    ensures is { IfSome result (λ v. cost ≡ Some v) }
    ensures below { IfSome result (λ v. v < whole) }
    ensures otherwise { IsNone result → IfSome cost (λ v. whole ≤ v) }
{
    let cost = cost?;
    if cost < whole { Some(cost) } else { None }
}
