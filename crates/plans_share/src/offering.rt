//! What is offered for a word, under the times that were asked for it.
ghost use Rattle.std.specs.Prelude.{◌≡◌, ◌-◌, ◌*◌, ◌<◌, ◌≤◌, ◌^◌, ℕ, List, [], ◌∷◌, length, map, slice_index, All, IfOk};
ghost use Rattle.std.specs.List.Sorted.{IsStrictlyIncreasing};
ghost use Rattle.base_types.specs.declared.posting.Posting.{Posting};
ghost use Rattle.plans_partitions.specs.Counts.{Tabulates};
ghost use Rattle.plans_space.specs.Caps.{unit, charge};
ghost use Rattle.plans_space.specs.Costs.{expected_cost};
ghost use Rattle.plans_space.specs.Loads.{weights_by};
ghost use Rattle.plans_space.specs.Plans.{IsFront};
ghost use Rattle.plans_share.specs.Asked.{count_in};
ghost use Rattle.plans_share.specs.Offers.{IsOffer, IsSixteen, in_units};
ghost use Rattle.plans_share.specs.Steps.{AreCheap};

use crate::asked::Times;
use crate::offer::Offer;
use base_types::{Fraction, Span};
use plans_partitions::Table;
use plans_space::{Limits, Load, Point, charge, front, limits_of};
use std::alloc::{AllocError, Global};

/// What is offered for a word: its list in one piece, and the points of its front up to 16 times its size,
/// under the times that were asked for it, charged by the limits of the lists that share. Costs what
/// `plans_space::front` does.
pub fn offer_for(
    alloc: Global,
    table: &Table,
    times: &Times,
    shared: Limits,
) -> Result<Offer, AllocError>
    requires tabulates { (list : List Posting) × (horizon : ℕ) × Tabulates list horizon table.now }
    requires few { length times.now ≤ 2 ^ 20 }
    ensures offer { IfOk result (λ o. (list : List Posting) (horizon : ℕ) → Tabulates list horizon table.now
        → IsOffer (λ a b. count_in a b times.now) list horizon shared.unit o) }
    ensures few { IfOk result (λ o. length o.front ≤ 4097) }
    ensures cheap { IfOk result AreCheap }
{
    let _boundaries = table.boundaries();
    let factor = sixteen();
    let points = points_of(alloc, table, times, factor)?;
    let own = limits_of(factor, table.postings());
    let front = charged(alloc, &points, own, shared)?;
    Ok(Offer::new(whole(table, times, shared), front))
}

/// The factor up to which a word's own front goes.
fn sixteen() -> Fraction
    ensures { IsSixteen result }
{
    Fraction { over: 16, under: 1 }
}

/// The points of a word's own front.
fn points_of(
    alloc: Global,
    table: &Table,
    times: &Times,
    factor: Fraction,
) -> Result<Vec<Point>, AllocError>
    ensures { IfOk result (λ v. (list : List Posting) (horizon : ℕ) → Tabulates list horizon table.now
        → IsFront list table.now.boundaries (weights_by (λ a b. count_in a b times.now) table.now.boundaries) factor
        (slice_index table.now.boundaries 0) horizon v.items) }
{
    let load = Load::new(
        |span: Span| -> u64
            ensures value { result ≡ count_in span.from span.to times.entry.now }
            ensures few { result ≤ 2 ^ 40 }
        { times.count(span) },
    );
    let points = front(alloc, table, factor, &load)?;
    Ok(points)
}

/// The points, charged by the limits of the lists that share.
fn charged(
    alloc: Global,
    points: &[Point],
    own: Limits,
    shared: Limits,
) -> Result<Vec<Point>, AllocError>
    requires within { All (λ p. p.charge * own.unit < 2 ^ 43) points.now }
    ensures { IfOk result (λ v. v.items ≡ map (in_units shared.unit own.unit) points.now) }
{
    let mut front = Vec::new(alloc);
    for point in points {
        front.push(in_units(*point, own, shared))?;
    }
    Ok(front)
}

/// A point, charged by the limits of the lists that share.
fn in_units(point: Point, own: Limits, shared: Limits) -> Point
    requires within { point.charge * own.unit < 2 ^ 43 }
    ensures { result ≡ in_units shared.unit own.unit point }
{
    let postings = u128::from(point.charge) * own.unit;
    Point {
        charge: charge(postings as u64, shared),
        cost: point.cost,
    }
}

/// The list in one piece.
fn whole(table: &Table, times: &Times, shared: Limits) -> Point
    ensures charge { (list : List Posting) (horizon : ℕ) → Tabulates list horizon table.now
        → result.charge ≡ charge shared.unit (length list) }
    ensures cost { (list : List Posting) (horizon : ℕ) → Tabulates list horizon table.now
        → result.cost ≡ expected_cost list (slice_index table.now.boundaries 0) (horizon ∷ []) table.now.boundaries
        (weights_by (λ a b. count_in a b times.now) table.now.boundaries) }
{
    let span = ends_of(table.boundaries());
    Point {
        charge: charge(table.postings(), shared),
        cost: u128::from(times.count(span)) * u128::from(table.postings()),
    }
}

/// The span from the first boundary to the last.
fn ends_of(boundaries: &[u64]) -> Span
    requires many { 2 ≤ length boundaries.now }
    requires ascending { IsStrictlyIncreasing boundaries.now }
    requires in_time { All (λ x. x < 2 ^ 40) boundaries.now }
    ensures from { result.from ≡ slice_index boundaries.now 0 }
    ensures to { result.to ≡ slice_index boundaries.now (length boundaries.now - 1) }
{
    Span {
        from: boundaries[0],
        to: boundaries[boundaries.len() - 1],
    }
}
