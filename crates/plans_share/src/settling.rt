//! The least costs of the offers from each on, for at most each charge.
ghost use Rattle.std.specs.Prelude.{◌+◌, ◌<◌, ◌≤◌, length, All, IfOk};
ghost use Rattle.plans_share.specs.Steps.{AreCheap, AreRows};

use crate::offer::Offer;
use crate::steps::row;
use std::alloc::{AllocError, Global};

/// The rows of the last offers, of none first and of all last, each by charge up to the budget.
pub(crate) fn settle(
    alloc: Global,
    offers: &[Offer],
    budget: usize,
) -> Result<Vec<Vec<Option<u128>>>, AllocError>
    requires few { length offers.now ≤ 16 }
    requires small { budget ≤ 4096 }
    requires fronts { All (λ o. length o.front ≤ 4097) offers.now }
    requires cheap { All AreCheap offers.now }
    ensures { IfOk result (λ v. AreRows offers.now (budget + 1) v.items (length offers.now + 1)) }
{
    let mut rows = Vec::new(alloc);
    rows.push(vec![in alloc; Some(0); budget + 1]?)?;
    for i in 0..offers.len() {
        let next = row(alloc, &rows[i], &offers[offers.len() - 1 - i])?;
        rows.push(next)?;
    }
    Ok(rows)
}
