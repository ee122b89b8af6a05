//! What `check` takes for a certificate, and what not.
use super::given::{FIVE, cut_at};
use crate::tests::given::{expect_same_in, factor, listed, table_of};
use plans_guarantee::{Certificate, check};
use plans_partitions::Table;
use std::alloc::Global;
use std::process::Abort;

/// Cuts and numbers of the five documents at 2/1, whether they pass for a certificate, and why.
const ROWS: [(&[u64], &[u64], bool, &str); 14] = [
    (&[10, 20, 50], &[0, 2, 4, 5], true, "the plan's"),
    (
        &[10, 20, 50],
        &[0, 2, 3, 5],
        true,
        "a number inside may be below the least space",
    ),
    (
        &[10, 30, 50],
        &[0, 2, 4, 7],
        false,
        "the partition's own segments pass, the one from 20 to 50 does not",
    ),
    (&[10, 30, 50], &[0, 2, 4, 5], false, "the space is 7"),
    (
        &[10, 20, 30, 50],
        &[0, 2, 4, 7],
        false,
        "every boundary a cut",
    ),
    (
        &[10, 50],
        &[0, 2, 4, 5],
        false,
        "two are alive before 20, and five are read",
    ),
    (&[10, 25, 50], &[0, 2, 4, 5], false, "25 is no boundary"),
    (&[20, 50], &[0, 2, 4, 5], false, "it begins late"),
    (&[10, 20, 30], &[0, 2, 4, 5], false, "it ends early"),
    (&[10, 20, 50], &[0, 2, 5], false, "a number is missing"),
    (&[10, 20, 50], &[0, 2, 4, 5, 5], false, "a number too many"),
    (&[10, 20, 50], &[1, 2, 4, 5], false, "it starts at 1"),
    (&[10, 20, 50], &[0, 3, 4, 5], false, "up to 20 it takes 2"),
    (&[10, 20, 50], &[], false, "no number"),
];

/// The cuts and the numbers pass for a certificate of the table, or don't.
fn expect_check(
    rt: &impl Abort,
    alloc: Global,
    table: &Table,
    (cuts, pi, passes, why): (&[u64], &[u64], bool, &str),
) {
    let certificate = Certificate::new(pi.to_vec(alloc).expect(rt, "memory"));
    let partition = cut_at(rt, alloc, cuts);
    let found = check(alloc, table, factor(rt, 2, 1), &partition, &certificate);
    expect_same_in(rt, why, found.expect(rt, "memory"), passes);
}

#[test]
fn certificates_pass_exactly_where_they_certify(rt: HostRuntime) {
    let alloc = rt.alloc();
    let table = table_of(&rt, alloc, &listed(&rt, alloc, FIVE), 50);
    for row in &ROWS {
        expect_check(&rt, alloc, &table, *row);
    }
}
