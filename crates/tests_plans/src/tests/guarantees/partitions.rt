//! Tables and partitions of two documents that overlap.
use super::given::cut_at;
use crate::tests::given::{OVERLAP, expect_same, expect_same_in, factor, listed, table_of};
use plans_partitions::{Partition, Table};
use std::alloc::Global;
use std::process::Abort;

/// Boundaries of two documents that overlap, by their places, and how many postings have a time from one to the
/// other.
const SIZES: [(usize, usize, u64); 7] = [
    (0, 1, 1),
    (0, 2, 2),
    (0, 4, 2),
    (1, 3, 2),
    (2, 3, 1),
    (2, 4, 1),
    (3, 4, 0),
];

/// So many postings of a table have a time from one boundary to another.
fn expect_size(rt: &impl Abort, table: &Table, (j, k, size): (usize, usize, u64)) {
    assert!(rt; j < k && k < table.boundaries().len());
    expect_same_in(rt, (j, k), table.size(j, k), size);
}

/// Of the four elementary intervals of a table that of this number has so many postings that are alive.
fn expect_alive(rt: &impl Abort, table: &Table, k: usize, alive: u64) {
    assert!(rt; k < 4 && table.boundaries().len() == 5);
    expect_same_in(rt, k, table.alive(k), alive);
}

#[test]
fn a_table_counts_its_list(rt: HostRuntime) {
    let alloc = rt.alloc();
    let list = listed(&rt, alloc, OVERLAP);
    let table = table_of(&rt, alloc, &list, 50);
    expect_same(&rt, table.boundaries(), [10, 20, 30, 40, 50].as_slice());
    expect_same(&rt, table.postings(), 2);
    for (k, alive) in [1, 2, 1, 0].iter().enumerate() {
        expect_alive(&rt, &table, k, *alive);
    }
    for row in &SIZES {
        expect_size(&rt, &table, *row);
    }
    // the horizon is no new boundary where a span ends at it
    expect_same(&rt, table_of(&rt, alloc, &list, 40).boundaries().len(), 4);
}

/// Cuts, and whether they are those of a partition.
const CUTS: [(&[u64], bool); 6] = [
    (&[], false),
    (&[10], false),
    (&[10, 10], false),
    (&[20, 10], false),
    (&[10, 30, 20], false),
    (&[10, 20], true),
];

/// The cuts are those of a partition, or aren't.
fn expect_valid(rt: &impl Abort, alloc: Global, cuts: &[u64], valid: bool) {
    let partition = Partition::new(cuts.to_vec(alloc).expect(rt, "memory"));
    expect_same_in(rt, cuts, partition.is_some(), valid);
}

#[test]
fn a_partition_ascends(rt: HostRuntime) {
    for (cuts, valid) in &CUTS {
        expect_valid(&rt, rt.alloc(), cuts, *valid);
    }
}

/// Cuts, and where they fit two documents that overlap their space, and whether they keep 3/2 and 2/1.
const FITTING: [(&[u64], Option<(u64, bool, bool)>); 7] = [
    (&[10, 40], Some((2, false, true))),
    (&[10, 30, 40], Some((3, false, true))),
    (&[10, 20, 30, 40], Some((4, true, true))),
    (&[10, 25, 40], None),
    (&[20, 40], None),
    (&[10, 30], None),
    (&[10, 50], None),
];

/// The space of a partition on the table, and whether it keeps 3/2 and 2/1; none where it doesn't fit.
fn fitting_of(rt: &impl Abort, table: &Table, partition: &Partition) -> Option<(u64, bool, bool)> {
    if !partition.fits(table) || partition.cuts().len() >= 10 {
        return None;
    }
    Some((
        partition.space(table),
        partition.admissible(table, factor(rt, 3, 2)),
        partition.admissible(table, factor(rt, 2, 1)),
    ))
}

/// The cuts' partition has these on the table.
fn expect_fitting(
    rt: &impl Abort,
    alloc: Global,
    table: &Table,
    cuts: &[u64],
    fitting: Option<(u64, bool, bool)>,
) {
    let partition = cut_at(rt, alloc, cuts);
    expect_same_in(rt, cuts, fitting_of(rt, table, &partition), fitting);
}

#[test]
fn a_partition_that_fits_has_a_space(rt: HostRuntime) {
    let alloc = rt.alloc();
    let table = table_of(&rt, alloc, &listed(&rt, alloc, OVERLAP), 40);
    for (cuts, fitting) in &FITTING {
        expect_fitting(&rt, alloc, &table, cuts, *fitting);
    }
}
