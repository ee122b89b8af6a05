//! Plans of random lists beside a planner that compares all pairs of boundaries.
ghost use Rattle.std.specs.Prelude.{◌<◌, length};

use super::given::Numbers;
use crate::tests::given::{Alike, expect_same_in, factor, listed, table_of};
use base_types::Fraction;
use plans_guarantee::{check, plan};
use plans_partitions::Table;
use std::alloc::Global;
use std::process::Abort;

/// The least space up to boundary `k`, and where the last segment of a partition that takes it begins,
/// by trying the segments from each boundary before; the last one of several that take as little.
fn best_left(table: &Table, factor: Fraction, pi: &[u64], k: usize) -> (u64, usize)
    requires { k < length table.now.boundaries }
{
    let mut best = (u64::MAX, 0);
    let mut least = u64::MAX;
    for j in (0..k).rev() {
        least = least.min(table.alive(j));
        let size = table.size(j, k);
        let cost = pi.get(j).copied().unwrap_or(0).saturating_add(size);
        let whole = u128::from(size) * u128::from(factor.under());
        if whole <= u128::from(factor.over()) * u128::from(least) && cost < best.0 {
            best = (cost, j);
        }
    }
    best
}

/// The least space up to each boundary, and where the last segment of a partition that takes it begins, by
/// comparing all pairs.
fn planned_by_pairs(
    rt: &impl Abort,
    alloc: Global,
    table: &Table,
    factor: Fraction,
) -> (Vec<u64>, Vec<usize>) {
    let mut pi = vec![in alloc; 0u64].expect(rt, "memory");
    let mut lefts = vec![in alloc; 0usize].expect(rt, "memory");
    for k in 1..table.boundaries().len() {
        let (number, left) = best_left(table, factor, &pi, k);
        pi.push(number).expect(rt, "memory");
        lefts.push(left).expect(rt, "memory");
    }
    (pi, lefts)
}

/// The cuts of the partition whose last segments up to each boundary begin there.
fn cuts_of(rt: &impl Abort, alloc: Global, table: &Table, lefts: &[usize]) -> Vec<u64> {
    let times = table.boundaries();
    let mut cuts = Vec::new(alloc);
    let mut next = times.len() - 1;
    for k in (0..times.len()).rev() {
        if k == next {
            cuts.push(times[k]).expect(rt, "memory");
            next = lefts.get(k).copied().unwrap_or(0);
        }
    }
    cuts.reverse();
    cuts
}

/// One to sixty random spans that begin before this second, and last at most so long.
fn random_spans(
    rt: &impl Abort,
    alloc: Global,
    numbers: &mut Numbers,
    last: u64,
    longest: u64,
) -> Vec<Alike>
    requires some { 0 < last }
    requires long { 0 < longest }
    requires early { last < 1000 }
    requires short { longest < 1000 }
{
    let mut spans = Vec::new(alloc);
    for _ in 0..1 + numbers.below(60) {
        let from = numbers.below(last);
        let to = from + 1 + numbers.below(longest);
        spans.push((1, from, to)).expect(rt, "memory");
    }
    spans
}

/// Holds the plan of a table to that which comparing all pairs finds. Both take the last of the left ends that
/// are equally good, so they find the same cuts.
fn compare(rt: &impl Abort, alloc: Global, round: u32, table: &Table, factor: Fraction) {
    let (partition, certificate) = plan(alloc, table, factor).expect(rt, "a plan");
    let (pi, lefts) = planned_by_pairs(rt, alloc, table, factor);
    let cuts = cuts_of(rt, alloc, table, &lefts);
    expect_same_in(rt, round, partition.cuts(), cuts.as_slice());
    expect_same_in(rt, round, certificate.pi(), pi.as_slice());
    let passes = check(alloc, table, factor, &partition, &certificate);
    expect_same_in(rt, round, passes.expect(rt, "memory"), true);
}

#[test]
fn one_pass_plans_what_all_pairs_plan(rt: HostRuntime) {
    let alloc = rt.alloc();
    let mut numbers = Numbers(14);
    for round in 0..300 {
        let last = 10 + numbers.below(90);
        let longest = 1 + numbers.below(last);
        let spans = random_spans(&rt, alloc, &mut numbers, last, longest);
        let list = listed(&rt, alloc, &spans);
        let table = table_of(&rt, alloc, &list, last + longest + numbers.below(2));
        let under = 1 + numbers.below(5) as u32;
        let factor = factor(&rt, under + numbers.below(20) as u32, under);
        compare(&rt, alloc, round, &table, factor);
    }
}
