//! Plans and fronts beside those that trying every set of cuts finds.
ghost use Rattle.std.specs.Prelude.{◌<◌};

use crate::tests::given::{Alike, expect_same, factor, listed, table_of};
use base_types::Span;
use plans_partitions::Table;
use plans_space::{Load, Point, front, plan};
use std::alloc::Global;
use std::process::Abort;

/// Moves a seed on, by Marsaglia's shifts for 64 bits, and answers a number below `end`.
fn below(seed: &mut u64, end: u64) -> u64
    requires { 0 < end }
    ensures { result < end }
{
    *seed ^= *seed << 13;
    *seed ^= *seed >> 7;
    *seed ^= *seed << 17;
    *seed % end
}

/// How many of the documents are alive at some time in `[from, to)`.
fn size(alike: &[Alike], from: u64, to: u64) -> u64 {
    let mut size = 0u64;
    for (documents, begin, end) in alike {
        if *begin < to && from < *end {
            size = size.saturating_add(u64::from(*documents));
        }
    }
    size
}

/// The expected cost of a segment where times from one on are asked for alike.
fn cost(alike: &[Alike], since: u64, from: u64, to: u64) -> u128 {
    u128::from(to.saturating_sub(since.max(from))) * u128::from(size(alike, from, to))
}

/// The lesser of a number and another one, if there is one.
fn lesser(number: u128, other: Option<u128>) -> u128 {
    match other {
        Some(other) => number.min(other),
        None => number,
    }
}

/// The least cost of the partitions from the first of the times to the last that cut at some of those
/// between and are charged at most so much, by trying each; None where there is none.
fn least_cost(alike: &[Alike], since: u64, unit: u64, charge: u64, times: &[u64]) -> Option<u128>
    requires { 0 < unit }
{
    let (first, later) = times.split_first()?;
    if later.is_empty() {
        return Some(0);
    }
    let mut least = None;
    for (k, cut) in later.iter().enumerate() {
        let units = size(alike, *first, *cut).div_ceil(unit);
        if units <= charge {
            let rest = least_cost(alike, since, unit, charge - units, &later[k..]);
            if let Some(rest) = rest {
                let whole = rest.saturating_add(cost(alike, since, *first, *cut));
                least = Some(lesser(whole, least));
            }
        }
    }
    least
}

/// The times at which a plan may cut: each of these up to 128, and above that some strides apart.
fn candidates(rt: &impl Abort, alloc: Global, times: &[u64]) -> Vec<u64> {
    let gaps = times.len().saturating_sub(1);
    let stride = gaps.div_ceil(127).max(1);
    let mut candidates = Vec::new(alloc);
    for (k, t) in times.iter().enumerate() {
        if k % stride == 0 || k == gaps {
            candidates.push(*t).expect(rt, "memory");
        }
    }
    candidates
}

/// Documents, the seconds that are asked for, and the charges of segments.
#[derive(Drop)]
struct Case<'a> {
    alike: &'a [Alike],
    /// The first second that is asked for.
    since: u64,
    /// How many documents make one unit of charge.
    unit: u64,
    /// The most that a partition is charged.
    budget: u64,
    /// The times at which a plan may cut.
    times: &'a [u64],
    ghost some: { 0 < unit },
}

/// The least cost of the partitions of a case that are charged at most so much.
fn least_of(case: &Case<'_>, charge: u64) -> Option<u128> {
    least_cost(case.alike, case.since, case.unit, charge, case.times)
}

/// What the segments between cuts are charged, and their expected cost.
fn charged(case: &Case<'_>, cuts: &[u64]) -> (u64, u128) {
    let (mut units, mut costs) = (0u64, 0u128);
    for segment in cuts.windows(2) {
        let size = size(case.alike, segment[0], segment[1]);
        units = units.saturating_add(size.div_ceil(case.unit));
        costs = costs.saturating_add(cost(case.alike, case.since, segment[0], segment[1]));
    }
    (units, costs)
}

/// The plan with these cuts has the least cost of those that keep to the budget, or is one segment.
fn expect_least(rt: &impl Abort, case: &Case<'_>, cuts: &[u64], horizon: u64, cheapest: u128) {
    let first = case.times.first().copied().unwrap_or(0);
    let whole = cost(case.alike, case.since, first, horizon);
    expect_same(rt, cheapest, lesser(whole, least_of(case, case.budget)));
    let (units, costs) = charged(case, cuts);
    expect_same(rt, costs, cheapest);
    expect_same(rt, units <= case.budget || cuts.len() == 2, true);
}

/// Whether a cost is below the one before it, if there is one.
fn is_below(cost: u128, before: Option<u128>) -> bool {
    match before {
        Some(before) => cost < before,
        None => true,
    }
}

/// At a point of a front the least cost falls from that before it, which stays the same up to there.
fn expect_fall(rt: &impl Abort, case: &Case<'_>, point: &Point, before: Option<u128>) {
    if let Some(less) = point.charge.checked_sub(1) {
        expect_same(rt, least_of(case, less), before);
    }
    expect_same(rt, is_below(point.cost, before), true);
    expect_same(rt, least_of(case, point.charge), Some(point.cost));
}

/// The points of a front are those at which the least cost falls, up to the budget.
fn expect_falls(rt: &impl Abort, case: &Case<'_>, points: &[Point]) {
    let mut before = None;
    for point in points {
        expect_fall(rt, case, point, before);
        before = Some(point.cost);
    }
    expect_same(rt, least_of(case, case.budget), before);
}

/// Holds a plan and a front of the documents to what trying every set of cuts finds.
fn compare(
    rt: &impl Abort,
    alloc: Global,
    alike: &[Alike],
    horizon: u64,
    since: u64,
    (over, under): (u32, u32),
) {
    let table = table_of(rt, alloc, &listed(rt, alloc, alike), horizon);
    let factor = factor(rt, over, under);
    let cap = table.postings().saturating_mul(u64::from(factor.over())) / u64::from(factor.under());
    let unit = cap.div_ceil(4096).max(1);
    let times = candidates(rt, alloc, table.boundaries());
    let case = Case {
        alike,
        since,
        unit,
        budget: cap / unit,
        times: &times,
    };
    let load = Load::new(|span: Span| span.to.saturating_sub(span.from.max(since)));
    let (partition, cheapest) = plan(alloc, &table, factor, &load).expect(rt, "a plan");
    expect_least(rt, &case, partition.cuts(), horizon, cheapest);
    let points = front(alloc, &table, factor, &load).expect(rt, "a front");
    expect_falls(rt, &case, &points);
}

#[test]
fn plans_and_fronts_are_those_of_every_set_of_cuts(rt: HostRuntime) {
    let alloc = rt.alloc();
    let mut seed = 20;
    for round in 0..120u32 {
        let mut alike: Vec<Alike> = Vec::new(alloc);
        // so many documents in every other round that they are charged in units of several
        let most = if round % 2 == 0 { 3 } else { 1500 };
        for _ in 0..1 + below(&mut seed, 4) {
            let from = below(&mut seed, 9);
            let to = from + 1 + below(&mut seed, 9 - from);
            alike
                .push((1 + below(&mut seed, most) as u32, from, to))
                .expect(&rt, "memory");
        }
        let horizon = 9 + below(&mut seed, 2);
        let since = below(&mut seed, 8);
        let under = 1 + below(&mut seed, 3) as u32;
        let over = under + below(&mut seed, 5) as u32;
        compare(&rt, alloc, &alike, horizon, since, (over, under));
    }
}

/// 140 boundaries, of which every other one may be a cut; half of the documents are alive in the middle.
#[test]
fn wide_plans_are_those_of_every_set_of_candidates(rt: HostRuntime) {
    let alloc = rt.alloc();
    let mut alike: Vec<Alike> = Vec::new(alloc);
    for at in 0..70u64 {
        alike.push((1, at, at + 70)).expect(&rt, "memory");
    }
    compare(&rt, alloc, &alike, 139, 0, (5, 4));
    compare(&rt, alloc, &alike, 139, 100, (3, 2));
}
