//! Plans that were worked out by hand.
use crate::tests::given::{Alike, OVERLAP, expect_same, expect_same_in, factor, listed, table_of};
use base_types::Span;
use plans_partitions::Table;
use plans_space::{Load, Point, front, plan};
use std::alloc::Global;
use std::process::Abort;

/// The plan of a table, where the seconds from one on are asked for, has so many segments and this expected
/// cost.
fn expect_plan(
    rt: &impl Abort,
    alloc: Global,
    table: &Table,
    (since, over, under): (u64, u32, u32),
    (segments, cost): (usize, u128),
) {
    let load = Load::new(|span: Span| span.to.saturating_sub(span.from.max(since)));
    let (partition, least) = plan(alloc, table, factor(rt, over, under), &load).expect(
        rt, "a plan",
    );
    let row = (since, over, under);
    expect_same_in(rt, row, (partition.segments(), least), (segments, cost));
}

/// The front of a table, where each second is asked for.
fn front_of(
    rt: &impl Abort,
    alloc: Global,
    table: &Table,
    (over, under): (u32, u32),
) -> Vec<Point> {
    let load = Load::new(|span: Span| span.to - span.from);
    front(alloc, table, factor(rt, over, under), &load).expect(rt, "a front")
}

/// The front of a table has these charges and costs.
fn expect_front(
    rt: &impl Abort,
    alloc: Global,
    table: &Table,
    factor: (u32, u32),
    wanted: &[(u64, u128)],
) {
    let points = front_of(rt, alloc, table, factor);
    expect_same(rt, points.len(), wanted.len());
    for (point, row) in points.iter().zip(wanted) {
        expect_same(rt, (point.charge, point.cost), *row);
    }
}

#[test]
fn plans_of_two_overlapping_documents(rt: HostRuntime) {
    let alloc = rt.alloc();
    let table = table_of(&rt, alloc, &listed(&rt, alloc, OVERLAP), 40);
    expect_plan(&rt, alloc, &table, (0, 1, 1), (1, 60));
    expect_plan(&rt, alloc, &table, (0, 3, 2), (2, 50));
    expect_plan(&rt, alloc, &table, (0, 2, 1), (3, 40));
    expect_plan(&rt, alloc, &table, (30, 1, 1), (1, 20));
    expect_front(&rt, alloc, &table, (2, 1), &[(2, 60), (3, 50), (4, 40)]);
}

/// The plan of one document in each of so many seconds has so many segments and this expected cost.
fn expect_strides(rt: &impl Abort, alloc: Global, seconds: u64, wanted: (usize, u128)) {
    let mut alike: Vec<Alike> = Vec::new(alloc);
    for at in 0..seconds {
        alike
            .push((1, at, at.saturating_add(1)))
            .expect(rt, "memory");
    }
    let table = table_of(rt, alloc, &listed(rt, alloc, &alike), seconds);
    expect_plan(rt, alloc, &table, (0, 1, 1), wanted);
}

/// Up to 128 boundaries each may be a cut; above, with one document in each second, every other one.
#[test]
fn cuts_of_many_boundaries_are_strides_apart(rt: HostRuntime) {
    expect_strides(&rt, rt.alloc(), 127, (127, 127));
    expect_strides(&rt, rt.alloc(), 128, (64, 256));
    expect_strides(&rt, rt.alloc(), 129, (65, 257));
}

/// Of so many postings in the first ten seconds, and 3,000 in the next, the plan has so many segments and
/// this expected cost, and the front so many points.
fn expect_charges(
    rt: &impl Abort,
    alloc: Global,
    postings: u32,
    wanted: (usize, u128),
    points: usize,
) {
    let alike = [(postings, 0, 10), (3000, 10, 20)];
    let table = table_of(rt, alloc, &listed(rt, alloc, &alike), 20);
    expect_plan(rt, alloc, &table, (0, 1, 1), wanted);
    let front = front_of(rt, alloc, &table, (1, 1));
    expect_same_in(rt, postings, front.len(), points);
}

/// Above a cap of 4,096 a segment is charged in units of 2: 3,001 postings take 1,501 of them, and so
/// what the cap would have room for is charged more than the budget of 3,000.
#[test]
fn charges_are_rounded_up(rt: HostRuntime) {
    expect_charges(&rt, rt.alloc(), 3000, (2, 60_000), 1);
    expect_charges(&rt, rt.alloc(), 3001, (1, 120_020), 0);
}
