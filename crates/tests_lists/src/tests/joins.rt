//! The shortest list of the same rows.
ghost use Rattle.lists_postings.specs.Lists.{IsList};

use crate::tests::given::expect_same;
use base_types::{DocId, NOW, Posting, Span};
use lists_postings::{coalesce, merge_distinct};
use std::alloc::Global;
use std::process::Abort;

/// The list of one document's postings by start, end and frequency.
fn listed(rt: &impl Abort, alloc: Global, parts: &[(u64, u64, u32)]) -> Vec<Posting>
    ensures { IsList result.items }
{
    let mut list = Vec::new(alloc);
    for (from, to, tf) in parts {
        let span = Span::new(*from, *to).expect(rt, "a span");
        assert!(rt; *tf > 0);
        let p = Posting {
            doc: DocId(1),
            span,
            tf: *tf,
        };
        list = merge_distinct(alloc, &list, &[p]).expect(rt, "a list");
    }
    list
}

/// Parts of a list by start, end and frequency, and of the shortest list of the same rows.
const JOINED: [(&[(u64, u64, u32)], &[(u64, u64, u32)]); 4] = [
    // three versions of one frequency
    (&[(10, 20, 2), (20, 30, 2), (30, NOW, 2)], &[(10, NOW, 2)]),
    // a gap
    (&[(10, 20, 1), (21, 30, 1)], &[(10, 20, 1), (21, 30, 1)]),
    // another frequency between
    (
        &[(10, 20, 1), (20, 30, 2), (30, 40, 1)],
        &[(10, 20, 1), (20, 30, 2), (30, 40, 1)],
    ),
    (&[], &[]),
];

/// The first list's shortest list of the same rows is the second.
fn expect_joined(
    rt: &impl Abort,
    alloc: Global,
    (parts, joined): (&[(u64, u64, u32)], &[(u64, u64, u32)]),
) {
    let list = listed(rt, alloc, parts);
    let wanted = listed(rt, alloc, joined);
    let found = coalesce(alloc, &list).expect(rt, "memory");
    expect_same(rt, found.as_slice(), wanted.as_slice());
}

#[test]
fn postings_of_one_frequency_that_touch_become_one(rt: HostRuntime) {
    for row in &JOINED {
        expect_joined(&rt, rt.alloc(), *row);
    }
}
