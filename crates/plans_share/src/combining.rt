//! Best choices.
ghost use Rattle.std.specs.Prelude.{◌≡◌, ◌≤◌, length, All, IfOk};
ghost use Rattle.plans_share.specs.Choices.{IsBestChoice, total};
ghost use Rattle.plans_share.specs.Steps.{AreCheap};

use crate::choosing::{below, cost_of_wholes, least, picks_along, wholes};
use crate::offer::{Choice, Offer};
use crate::settling::settle;
use std::alloc::{AllocError, Global};

/// A choice of least cost among those that take wholes alone and those that are charged at most the
/// budget, and its cost. Any of these may be chosen. Costs time in the points of all fronts times the
/// budget, at most 269 million steps, and 32 bytes for each unit of the budget and offer, at most
/// 2.3 MB.
pub fn combine(alloc: Global, offers: &[Offer], budget: u64) -> Result<Choice, AllocError>
    requires few { length offers.now ≤ 16 }
    requires small { budget ≤ 4096 }
    requires fronts { All (λ o. length o.front ≤ 4097) offers.now }
    requires cheap { All AreCheap offers.now }
    ensures best { IfOk result (λ c. IsBestChoice offers.now budget c.picks.items) }
    ensures cost { IfOk result (λ c. c.cost ≡ total (λ p. p.cost) offers.now c.picks.items) }
{
    let budget = budget as usize;
    let rows = settle(alloc, offers, budget)?;
    let whole = cost_of_wholes(offers);
    let least = least(offers, &rows, budget);
    if let Some(cost) = below(least, whole) {
        let picks = picks_along(alloc, offers, &rows, budget, cost)?;
        return Ok(Choice { picks, cost });
    }
    let picks = wholes(alloc, offers)?;
    Ok(Choice { picks, cost: whole })
}
