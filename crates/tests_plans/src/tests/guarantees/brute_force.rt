//! Plans of small lists beside the least space that trying every set of cuts finds.
use super::given::Numbers;
use crate::tests::given::{Alike, expect_same, expect_same_in, factor, listed, table_of};
use base_types::{Fraction, Posting};
use plans_guarantee::{check, plan};
use plans_partitions::Table;
use std::alloc::Global;
use std::process::Abort;

/// How many postings have a time in `[from, to)`.
fn size(list: &[Posting], from: u64, to: u64) -> u64 {
    list.iter()
        .filter(|p| p.span.from < to && from < p.span.to)
        .count() as u64
}

/// Whether at each time in `[from, to)` the size is at most the factor times what is alive.
fn keeps(list: &[Posting], factor: Fraction, from: u64, to: u64) -> bool {
    let whole = u128::from(size(list, from, to)) * u128::from(factor.under());
    for t in from..to {
        let alive = list
            .iter()
            .filter(|p| p.span.from <= t && t < p.span.to)
            .count() as u64;
        if whole > u128::from(factor.over()) * u128::from(alive) {
            return false;
        }
    }
    true
}

/// The least space of the partitions from the first of the times to the last that keep the factor and
/// cut at some of those between, by trying each set of cuts; None where there is no such partition.
fn least_space(list: &[Posting], factor: Fraction, times: &[u64]) -> Option<u64> {
    let (first, later) = times.split_first()?;
    if later.is_empty() {
        return Some(0);
    }
    let mut least = None;
    for (k, cut) in later.iter().enumerate() {
        if !keeps(list, factor, *first, *cut) {
            continue;
        }
        let Some(rest) = least_space(list, factor, &later[k..]) else {
            continue;
        };
        let space = rest.saturating_add(size(list, *first, *cut));
        least = Some(least.map_or(space, |other: u64| other.min(space)));
    }
    least
}

/// One to five random spans within nine seconds.
fn random_spans(rt: &impl Abort, alloc: Global, numbers: &mut Numbers) -> Vec<Alike> {
    let mut spans = Vec::new(alloc);
    for _ in 0..1 + numbers.below(5) {
        let from = numbers.below(9);
        let to = from + 1 + numbers.below(9 - from);
        spans.push((1, from, to)).expect(rt, "memory");
    }
    spans
}

/// The space that the segments between cuts take.
fn space_of(list: &[Posting], cuts: &[u64]) -> u64 {
    let mut space = 0u64;
    for segment in cuts.windows(2) {
        space = space.saturating_add(size(list, segment[0], segment[1]));
    }
    space
}

/// Each second from the first boundary of a table to its last.
fn seconds_of(rt: &impl Abort, alloc: Global, table: &Table) -> Vec<u64> {
    let times = table.boundaries();
    let mut seconds = Vec::new(alloc);
    for t in times[0]..times[times.len() - 1] + 1 {
        seconds.push(t).expect(rt, "memory");
    }
    seconds
}

/// The numbers at the boundaries are the least space up to each.
fn expect_numbers(rt: &impl Abort, list: &[Posting], factor: Fraction, times: &[u64], pi: &[u64]) {
    expect_same(rt, pi.len(), times.len());
    for k in 0..times.len() {
        let least = least_space(list, factor, &times[..k + 1]);
        expect_same_in(rt, k, pi.get(k).copied(), least);
    }
}

/// Holds the plan of a list to what trying every set of cuts finds.
fn compare(
    rt: &impl Abort,
    alloc: Global,
    round: u32,
    list: &[Posting],
    table: &Table,
    factor: Fraction,
) {
    let (partition, certificate) = plan(alloc, table, factor).expect(rt, "a plan");
    let passes = check(alloc, table, factor, &partition, &certificate);
    expect_same_in(rt, round, passes.expect(rt, "memory"), true);
    let space = Some(space_of(list, partition.cuts()));
    let times = table.boundaries();
    expect_same_in(rt, round, least_space(list, factor, times), space);
    // cuts at other times take no less
    let seconds = seconds_of(rt, alloc, table);
    expect_same_in(rt, round, least_space(list, factor, &seconds), space);
    expect_numbers(rt, list, factor, times, certificate.pi());
}

#[test]
fn plans_of_random_lists_take_the_least_space(rt: HostRuntime) {
    let alloc = rt.alloc();
    let mut numbers = Numbers(7);
    for round in 0..200 {
        let spans = random_spans(&rt, alloc, &mut numbers);
        let list = listed(&rt, alloc, &spans);
        let table = table_of(&rt, alloc, &list, 9 + numbers.below(2));
        let under = 1 + numbers.below(3) as u32;
        let factor = factor(&rt, under + numbers.below(4) as u32, under);
        compare(&rt, alloc, round, &list, &table, factor);
    }
}
