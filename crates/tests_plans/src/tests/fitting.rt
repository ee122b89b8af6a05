//! Plans that are fit and plans that aren't, worked out by hand.
use super::given::{expect_same_in, posting};
use base_commands::Kind;
use base_types::{Fraction, Posting, Time};
use plans_kinds::{is_fit, partition_of};
use std::alloc::Global;
use std::process::Abort;

/// The times of so many seconds.
fn times(rt: &impl Abort, alloc: Global, seconds: &[u64]) -> Vec<Time> {
    let mut times = Vec::new(alloc);
    for second in seconds {
        times
            .push(Time::new(*second).expect(rt, "a time"))
            .expect(rt, "memory");
    }
    times
}

/// Whether the cuts are a fit plan of the list of this kind with the factor `over / under` and the
/// horizon.
fn fit(
    rt: &impl Abort,
    alloc: Global,
    list: &[Posting],
    kind: Kind,
    (over, under): (u32, u32),
    cuts: &[u64],
    horizon: u64,
) -> bool {
    let factor = Fraction::new(over, under).expect(rt, "a factor");
    let horizon = Time::new(horizon).expect(rt, "a horizon");
    let end = horizon.seconds();
    assert!(rt; !list.is_empty() && list.len() < 1 << 38);
    assert!(rt; list.iter().all(|p| p.span.to <= end));
    let cuts = times(rt, alloc, cuts);
    is_fit(alloc, list, kind, factor, &cuts, horizon).expect(rt, "memory")
}

/// Document 1 in `[10, 40)`, and document 2 in `[20, 30)`.
fn two_documents(rt: &impl Abort) -> [Posting; 2] {
    [posting(rt, 1, 10, 40), posting(rt, 2, 20, 30)]
}

/// The cuts are a fit plan of these two documents, or aren't.
fn expect_fit(
    rt: &impl Abort,
    alloc: Global,
    kind: Kind,
    factor: (u32, u32),
    (cuts, horizon, want): (&[u64], u64, bool),
) {
    let found = fit(rt, alloc, &two_documents(rt), kind, factor, cuts, horizon);
    expect_same_in(rt, (cuts, horizon, factor), found, want);
}

/// Factors over 1, cuts, the horizon, and whether the cuts are a fit guarantee of the two documents.
const GUARANTEES: [(u32, &[u64], u64, bool); 17] = [
    (1, &[10, 20, 30], 40, true),
    // one of the two postings is alive from 30 on
    (1, &[10, 20], 40, false),
    (1, &[10], 40, false),
    (2, &[10, 20], 40, true),
    (2, &[10], 40, true),
    // no least plan, but a fit one
    (2, &[10, 20, 30], 40, true),
    // no boundary
    (2, &[10, 25, 30], 40, false),
    // not from the first boundary on
    (2, &[20, 30], 40, false),
    (2, &[0, 20], 40, false),
    (2, &[], 40, false),
    // not ascending
    (2, &[10, 30, 20], 40, false),
    (2, &[10, 20, 20], 40, false),
    (2, &[10, 40], 40, false),
    // nothing is alive from 40 on, where the last segment has a posting
    (1, &[10, 20, 30], 50, false),
    (2, &[10], 50, false),
    (1, &[10, 20, 30, 40], 50, true),
    (2, &[10, 40], 50, true),
];

#[test]
fn guarantees_of_two_documents(rt: HostRuntime) {
    for (over, cuts, horizon, want) in &GUARANTEES {
        let row = (*cuts, *horizon, *want);
        expect_fit(&rt, rt.alloc(), Kind::Guarantee, (*over, 1), row);
    }
}

/// Factors, cuts, the horizon, and whether the cuts keep to that bound on the space of the two documents:
/// whatever is asked for, the sizes are added up.
const BOUNDS: [((u32, u32), &[u64], u64, bool); 25] = [
    // 2, and then 1 + 2
    ((1, 1), &[10], 40, true),
    ((1, 1), &[10, 20], 40, false),
    ((3, 2), &[10, 20], 40, true),
    // 1 + 2 + 1
    ((3, 2), &[10, 20, 30], 40, false),
    ((2, 1), &[10, 20, 30], 40, true),
    // 5/2 and 7/2 rounded down
    ((5, 4), &[10, 20], 40, false),
    ((7, 4), &[10, 20], 40, true),
    ((7, 4), &[10, 20, 30], 40, false),
    // cut where no posting begins or ends: 2 + 2, and 1 + 2
    ((2, 1), &[10, 25], 40, true),
    ((3, 2), &[10, 25], 40, false),
    ((1, 1), &[10, 25], 40, false),
    ((3, 2), &[10, 15], 40, true),
    ((1, 1), &[10, 15], 40, false),
    // 2, and nothing from 40 on
    ((1, 1), &[10, 40], 50, true),
    ((1, 1), &[10, 45], 50, true),
    // 2 + 1 + 0
    ((1, 1), &[10, 35, 45], 50, false),
    ((3, 2), &[10, 35, 45], 50, true),
    // not from the first boundary on
    ((2, 1), &[20, 30], 40, false),
    ((2, 1), &[0, 20], 40, false),
    ((2, 1), &[11], 40, false),
    ((2, 1), &[], 40, false),
    // not ascending
    ((9, 1), &[10, 30, 20], 40, false),
    ((9, 1), &[10, 20, 20], 40, false),
    ((9, 1), &[10, 40], 40, false),
    ((9, 1), &[10, 45], 40, false),
];

#[test]
fn bounds_on_the_space_of_two_documents(rt: HostRuntime) {
    let at = Time::new(30).expect(&rt, "a time");
    for (factor, cuts, horizon, want) in &BOUNDS {
        let row = (*cuts, *horizon, *want);
        expect_fit(&rt, rt.alloc(), Kind::Uniform, *factor, row);
        expect_fit(&rt, rt.alloc(), Kind::Since { at }, *factor, row);
    }
}

/// Adds postings of one document, one in each second, up to so many.
fn fill(rt: &impl Abort, list: &mut Vec<Posting>, seconds: u64) {
    for at in list.len() as u64..seconds {
        let next = posting(rt, 1, at, at.saturating_add(1));
        list.push(next).expect(rt, "memory");
    }
}

/// Of a posting in each second one segment is a fit plan under a space bound, and keeps to a guarantee or
/// doesn't.
fn expect_one_segment(rt: &impl Abort, alloc: Global, list: &[Posting], want: bool) {
    let end = list.len() as u64;
    let kept = fit(rt, alloc, list, Kind::Guarantee, (u32::MAX, 1), &[0], end);
    expect_same_in(rt, end, kept, want);
    let fits = fit(rt, alloc, list, Kind::Uniform, (1, 1), &[0], end);
    expect_same_in(rt, end, fits, true);
}

/// One document with a posting in each second: as many boundaries as a plan that keeps to a guarantee may
/// have, and one more, which one under a space bound may have too.
#[test]
fn a_list_that_is_too_wide(rt: HostRuntime) {
    let alloc = rt.alloc();
    let mut list = Vec::new(alloc);
    fill(&rt, &mut list, 1_048_575);
    expect_one_segment(&rt, alloc, &list, true);
    fill(&rt, &mut list, 1_048_576);
    expect_one_segment(&rt, alloc, &list, false);
}

/// Cuts, and those of the partition up to 40 that they make; none where they make none.
const PARTITIONS: [(&[u64], Option<&[u64]>); 3] = [
    (&[10, 20], Some(&[10, 20, 40])),
    (&[], None),
    (&[40], None),
];

/// The partition up to 40 with these cuts is that one, or there is none.
fn expect_partition(rt: &impl Abort, alloc: Global, cuts: &[u64], wanted: Option<&[u64]>) {
    let horizon = Time::new(40).expect(rt, "a horizon");
    let partition = partition_of(alloc, &times(rt, alloc, cuts), horizon).expect(rt, "memory");
    match &partition {
        Some(partition) => expect_same_in(rt, cuts, Some(partition.cuts()), wanted),
        None => expect_same_in(rt, cuts, None, wanted),
    }
}

#[test]
fn the_partition_of_cuts(rt: HostRuntime) {
    for (cuts, wanted) in &PARTITIONS {
        expect_partition(&rt, rt.alloc(), cuts, *wanted);
    }
}
