//! What a list shows at a time and over a span, and lists that are merged.
use crate::tests::given::expect_same;
use base_types::{DocId, NOW, Posting, Span, Time};
use lists_postings::{MergeError, as_of, clip, merge_distinct, overlap};
use std::alloc::AllocError;
use std::process::Abort;

/// A posting of frequency 1.
fn posting(rt: &impl Abort, doc: u32, from: u64, to: u64) -> Posting {
    Posting {
        doc: DocId(doc),
        span: Span::new(from, to).expect(rt, "a span"),
        tf: 1,
    }
}

/// A list is this one.
fn expect_list(rt: &impl Abort, found: Result<Vec<Posting>, AllocError>, wanted: &[Posting]) {
    expect_same(rt, found.expect(rt, "memory").as_slice(), wanted);
}

#[test]
fn a_span_holds_its_start_and_not_its_end(rt: HostRuntime) {
    let alloc = rt.alloc();
    let first = posting(&rt, 1, 10, 20);
    let second = posting(&rt, 1, 20, 30);
    let open = posting(&rt, 2, 15, NOW);
    let list = [first, second, open];
    let t = Time::new(20).expect(&rt, "the time 20");
    let span = Span::new(12, 20).expect(&rt, "the span [12, 20)");
    expect_list(&rt, as_of(alloc, &list, t), &[second, open]);
    expect_list(&rt, overlap(alloc, &list, 12, 20), &[first, open]);
    let cut = posting(&rt, 1, 12, 20);
    let ended = posting(&rt, 2, 15, 20);
    expect_list(&rt, clip(alloc, &list, span), &[cut, ended]);
}

/// A union is this list.
fn expect_union(rt: &impl Abort, union: Result<Vec<Posting>, MergeError>, wanted: &[Posting]) {
    expect_same(rt, union.expect(rt, "a union").as_slice(), wanted);
}

#[test]
fn a_union_has_each_posting_once_and_no_overlap(rt: HostRuntime) {
    let alloc = rt.alloc();
    let one = posting(&rt, 1, 10, 20);
    let second = posting(&rt, 1, 20, 30);
    let other = posting(&rt, 1, 15, 30);
    let union = merge_distinct(alloc, &[one], &[second]);
    expect_union(&rt, union, &[one, second]);
    expect_union(&rt, merge_distinct(alloc, &[one], &[one]), &[one]);
    let refused = merge_distinct(alloc, &[one], &[other]).err();
    expect_same(&rt, refused, Some(MergeError::Clash { one, other }));
}
