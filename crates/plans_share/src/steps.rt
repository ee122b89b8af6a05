//! One offer more: what each pick of it makes of the least costs of those behind it.
ghost use Rattle.std.specs.Prelude.{◌≡◌, ◌∷◌, ℕ, ◌+◌, ◌<◌, ◌≤◌, ◌^◌, Option, None, List, length, slice_index_or, All, IfOk, IfSome};
ghost use Rattle.plans_space.specs.Steps.{lesser};
ghost use Rattle.plans_share.specs.Choices.{picked};
ghost use Rattle.plans_share.specs.Steps.{AreCheap, IsSettled, IsBestPick, through};
ghost use Rattle.plans_share.specs.Choices.{Offered};

use crate::offer::Offer;
use plans_space::Point;
use std::alloc::{AllocError, Global};

/// The least cost for at most the charge `c` by this point, with the least costs of the offers behind
/// by their charge.
fn through(below: &[Option<u128>], point: Point, c: usize) -> Option<u128>
    requires inside { c < length below.now }
    requires cheap { point.cost < 2 ^ 100 }
    requires below { All (λ v. IfSome v (λ w. w ≤ 2 ^ 110)) below.now }
    ensures { result ≡ through below.now point c }
{
    if point.charge > c as u64 {
        return None;
    }
    let rest = below[c - point.charge as usize]?;
    Some(point.cost + rest)
}

/// The lesser of two costs, where there are any.
fn lesser(one: Option<u128>, other: Option<u128>) -> Option<u128>
    ensures { result ≡ lesser one other }
{
    let Some(cost) = one else {
        return other;
    };
    let Some(against) = other else {
        return one;
    };
    Some(cost.min(against))
}

/// The first of so many charges for which a point can be taken; their number, where there is none.
fn first_charge(point: Point, charges: usize) -> usize
    ensures inside { result ≤ charges }
    ensures early { (c : ℕ) → c < result → c < point.charge }
{
    if point.charge < charges as u64 {
        point.charge as usize
    } else {
        charges
    }
}

/// The costs of a row, lowered to what this point makes possible.
fn lowered(mut row: Vec<Option<u128>>, below: &[Option<u128>], point: Point) -> Vec<Option<u128>>
    requires same { length row.items ≡ length below.now }
    requires cheap { point.cost < 2 ^ 100 }
    requires below { All (λ v. IfSome v (λ w. w ≤ 2 ^ 110)) below.now }
    ensures long { length result.items ≡ length row.items }
    ensures lowered { (c : ℕ) → c < length row.items
        → slice_index_or result.items c None ≡ lesser (slice_index_or row.items c None) (through below.now point c) }
{
    for c in first_charge(point, row.len())..row.len() {
        row[c] = lesser(row[c], through(below, point, c));
    }
    row
}

/// The least costs of an offer and those behind it, for at most each charge, by the least costs of
/// those behind.
pub(crate) fn row(
    alloc: Global,
    below: &[Option<u128>],
    offer: &Offer,
) -> Result<Vec<Option<u128>>, AllocError>
    requires few { length offer.now.front ≤ 4097 }
    requires cheap { AreCheap offer.now }
    requires below { All (λ v. IfSome v (λ w. w ≤ 2 ^ 110)) below.now }
    ensures { IfOk result (λ v. (rest : List Offered) → IsSettled rest (length below.now) below.now
        → IsSettled (offer.now ∷ rest) (length below.now) v.items) }
{
    let mut row = vec![in alloc; None; below.len()]?;
    for pick in 0..offer.front().len() + 1 {
        row = lowered(row, below, offer.point(pick));
    }
    Ok(row)
}

/// A pick, and the least cost by it.
#[derive(Clone, Copy)]
pub(crate) struct Pick {
    pub(crate) pick: usize,
    pub(crate) cost: u128,
}

/// The better of the best pick so far and this one.
fn better(best: Option<Pick>, pick: usize, cost: Option<u128>) -> Option<Pick>
    ensures { (ways : ℕ → Option ℕ) → ways pick ≡ cost → IsBestPick ways pick best → IsBestPick ways (pick + 1) result }
{
    let Some(cost) = cost else {
        return best;
    };
    match best {
        Some(so_far) if so_far.cost <= cost => best,
        _ => Some(Pick { pick, cost }),
    }
}

/// The best pick of an offer for at most the charge `c`; None where there is none.
pub(crate) fn best_pick(below: &[Option<u128>], offer: &Offer, c: usize) -> Option<Pick>
    requires inside { c < length below.now }
    requires few { length offer.now.front ≤ 4097 }
    requires cheap { AreCheap offer.now }
    requires below { All (λ v. IfSome v (λ w. w ≤ 2 ^ 110)) below.now }
    ensures { IsBestPick (λ k. through below.now (picked offer.now k) c) (length offer.now.front + 1) result }
{
    let mut best = None;
    for pick in 0..offer.front().len() + 1 {
        best = better(best, pick, through(below, offer.point(pick), c));
    }
    best
}
