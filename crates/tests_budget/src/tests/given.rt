//! Lists for the tests.
ghost use Rattle.lists_postings.specs.Lists.{IsList};

use base_types::{DocId, Posting, Span};
use lists_postings::merge_distinct;
use std::alloc::Global;
use std::fmt::Debug;
use std::process::Abort;

/// What is found is what is wanted.
pub(crate) fn expect_same<T: PartialEq + Debug + Drop>(rt: &impl Abort, found: T, wanted: T) {
    assert_eq!(rt; found, wanted);
}

/// The same in a row, which is told where it isn't so.
pub(crate) fn expect_same_in<R: Debug + Drop, T: PartialEq + Debug + Drop>(
    rt: &impl Abort,
    row: R,
    found: T,
    wanted: T,
) {
    assert_eq!(rt; found, wanted, "in {row:?}");
}

/// A posting by its document, start, end and frequency.
pub(crate) type Part = (u32, u64, u64, u32);

/// The list of these postings.
pub(crate) fn listed(rt: &impl Abort, alloc: Global, parts: &[Part]) -> Vec<Posting>
    ensures { IsList result.items }
{
    let mut list = Vec::new(alloc);
    for (doc, from, to, tf) in parts {
        assert!(rt; *tf != 0);
        let p = Posting {
            doc: DocId(*doc),
            span: Span::new(*from, *to).expect(rt, "a span"),
            tf: *tf,
        };
        list = merge_distinct(alloc, &list, &[p]).expect(rt, "a list");
    }
    list
}
