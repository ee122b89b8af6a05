//! Plans that were worked out by hand.
use super::given::FIVE;
use crate::tests::given::{Alike, OVERLAP, expect_same, expect_same_in, factor, listed, table_of};
use base_types::{DocId, Fraction, Posting, Span};
use plans_guarantee::{Certificate, PlanError, WIDEST, check, plan};
use plans_partitions::{Partition, Table};
use std::alloc::Global;
use std::process::Abort;

/// A list, and its plan.
struct Row {
    spans: &'static [Alike],
    horizon: u64,
    factor: (u32, u32),
    /// All cuts, the horizon among them.
    cuts: &'static [u64],
    /// The least space up to each boundary.
    pi: &'static [u64],
}

const ROWS: [Row; 8] = [
    Row {
        spans: OVERLAP,
        horizon: 40,
        factor: (1, 1),
        cuts: &[10, 20, 30, 40],
        pi: &[0, 1, 3, 4],
    },
    Row {
        spans: OVERLAP,
        horizon: 40,
        factor: (3, 2),
        cuts: &[10, 20, 30, 40],
        pi: &[0, 1, 3, 4],
    },
    Row {
        spans: OVERLAP,
        horizon: 40,
        factor: (2, 1),
        cuts: &[10, 40],
        pi: &[0, 1, 2, 2],
    },
    Row {
        spans: OVERLAP,
        horizon: 40,
        factor: (100, 1),
        cuts: &[10, 40],
        pi: &[0, 1, 2, 2],
    },
    // with the longest segment first it would be 7
    Row {
        spans: FIVE,
        horizon: 50,
        factor: (2, 1),
        cuts: &[10, 20, 50],
        pi: &[0, 2, 4, 5],
    },
    // nothing is alive between 20 and 30, so no segment of a posting reaches into it
    Row {
        spans: &[(1, 10, 20), (1, 30, 40)],
        horizon: 40,
        factor: (100, 1),
        cuts: &[10, 20, 30, 40],
        pi: &[0, 1, 1, 2],
    },
    // nor into the time between the last end and the horizon
    Row {
        spans: &[(1, 10, 20)],
        horizon: 50,
        factor: (100, 1),
        cuts: &[10, 20, 50],
        pi: &[0, 1, 1],
    },
    // sublists of overlapping segments could take 400
    Row {
        spans: &[(100, 10, 40), (100, 10, 20), (100, 30, 40)],
        horizon: 40,
        factor: (3, 2),
        cuts: &[10, 20, 30, 40],
        pi: &[0, 200, 300, 500],
    },
];

/// A plan's partition and certificate pass.
fn expect_passes(
    rt: &impl Abort,
    alloc: Global,
    table: &Table,
    factor: Fraction,
    partition: &Partition,
    certificate: &Certificate,
) {
    let passes = check(alloc, table, factor, partition, certificate);
    expect_same(rt, passes.expect(rt, "memory"), true);
}

/// The plan of a row's list has its cuts and its numbers, and passes.
fn expect_plan(rt: &impl Abort, alloc: Global, row: &Row) {
    let table = table_of(rt, alloc, &listed(rt, alloc, row.spans), row.horizon);
    let factor = factor(rt, row.factor.0, row.factor.1);
    let (partition, certificate) = plan(alloc, &table, factor).expect(rt, "a plan");
    expect_same_in(rt, (row.spans, row.factor), partition.cuts(), row.cuts);
    expect_same_in(rt, (row.spans, row.factor), certificate.pi(), row.pi);
    expect_passes(rt, alloc, &table, factor, &partition, &certificate);
}

#[test]
fn plans_are_those_worked_out_by_hand(rt: HostRuntime) {
    for row in &ROWS {
        expect_plan(&rt, rt.alloc(), row);
    }
}

/// One document that is alive in every second time, from 2 on.
fn every_second_time(rt: &impl Abort, alloc: Global) -> Vec<Alike> {
    let mut spans = Vec::new(alloc);
    for at in 1..2050u64 {
        spans.push((1, 2 * at, 2 * at + 1)).expect(rt, "memory");
    }
    spans
}

/// The plan of the table cuts at each of so many boundaries, and takes so many postings.
fn expect_each_cut(rt: &impl Abort, alloc: Global, table: &Table, boundaries: usize, space: u64) {
    let factor = factor(rt, 1, 1);
    expect_same(rt, table.boundaries().len(), boundaries);
    let (partition, certificate) = plan(alloc, table, factor).expect(rt, "a plan");
    expect_same(rt, partition.cuts().len(), boundaries);
    expect_same(rt, certificate.pi().last(), Some(&space));
    expect_passes(rt, alloc, table, factor, &partition, &certificate);
}

/// Each span has two boundaries.
#[test]
fn no_segment_reaches_over_a_time_without_postings(rt: HostRuntime) {
    let alloc = rt.alloc();
    let spans = every_second_time(&rt, alloc);
    let table = table_of(&rt, alloc, &listed(&rt, alloc, &spans), 4099);
    expect_each_cut(&rt, alloc, &table, 4098, 2049);
}

/// The posting of a document in one second, with a frequency of its own in every other one.
fn in_second(rt: &impl Abort, at: u64) -> Posting {
    let span = Span::new(at, at.saturating_add(1)).expect(rt, "a span");
    let tf = if at % 2 == 0 { 1 } else { 2 };
    Posting {
        doc: DocId(1),
        span,
        tf,
    }
}

/// Adds one document's posting in each second, up to so many.
fn fill(rt: &impl Abort, list: &mut Vec<Posting>, seconds: u64) {
    for at in list.len() as u64..seconds {
        list.push(in_second(rt, at)).expect(rt, "memory");
    }
}

/// The plan of the table takes one posting more from each boundary to the next.
fn expect_widest(rt: &impl Abort, alloc: Global, table: &Table, factor: Fraction) {
    expect_same(rt, table.boundaries().len(), WIDEST);
    let (partition, certificate) = plan(alloc, table, factor).expect(rt, "a plan");
    expect_same(rt, certificate.pi().len(), WIDEST);
    for (k, number) in certificate.pi().iter().enumerate() {
        expect_same(rt, *number, k as u64);
    }
    expect_passes(rt, alloc, table, factor, &partition, &certificate);
}

/// One document with a posting in each second: as many boundaries as a plan may have, and one more. A
/// test has no time to compare all pairs of them.
#[test]
fn the_widest_plan_and_one_that_is_too_wide(rt: HostRuntime) {
    let alloc = rt.alloc();
    let seconds = WIDEST as u64 - 1;
    let factor = factor(&rt, seconds as u32, 1);
    let mut list = Vec::new(alloc);
    fill(&rt, &mut list, seconds);
    expect_widest(&rt, alloc, &table_of(&rt, alloc, &list, seconds), factor);
    fill(&rt, &mut list, seconds + 1);
    let wider = table_of(&rt, alloc, &list, seconds + 1);
    let wide = PlanError::TooWide {
        boundaries: 1_048_577,
    };
    expect_same(&rt, plan(alloc, &wider, factor).err(), Some(wide));
}
