//! What the tests share: what is compared, lists, tables and factors.
use base_types::{DocId, Fraction, Posting, Span, Time};
use plans_partitions::Table;
use std::alloc::Global;
use std::fmt::Debug;
use std::process::Abort;

/// What is found is what is wanted.
pub(crate) fn expect_same<T: PartialEq + Debug + Drop>(rt: &impl Abort, found: T, wanted: T) {
    assert_eq!(rt; found, wanted);
}

/// The same in a row, which is told where it isn't so.
pub(crate) fn expect_same_in<R: Debug + Drop, T: PartialEq + Debug + Drop>(
    rt: &impl Abort,
    row: R,
    found: T,
    wanted: T,
) {
    assert_eq!(rt; found, wanted, "in {row:?}");
}

/// A number of documents, and the times from which and before which they are alive.
pub(crate) type Alike = (u32, u64, u64);

/// Two documents that overlap in `[20, 30)`.
pub(crate) const OVERLAP: &[Alike] = &[(1, 10, 30), (1, 20, 40)];

/// The list of so many documents with each of the spans, numbered in order.
pub(crate) fn listed(rt: &impl Abort, alloc: Global, spans: &[Alike]) -> Vec<Posting> {
    let mut list = Vec::new(alloc);
    let mut doc = 0u32;
    for (documents, from, to) in spans {
        for _ in 0..*documents {
            doc = doc.wrapping_add(1);
            list.push(posting(rt, doc, *from, *to)).expect(rt, "memory");
        }
    }
    list
}

/// The table of a list up to a horizon.
pub(crate) fn table_of(rt: &impl Abort, alloc: Global, list: &[Posting], horizon: u64) -> Table {
    let horizon = Time::new(horizon).expect(rt, "a horizon");
    let end = horizon.seconds();
    assert!(rt; !list.is_empty() && list.len() < 1 << 38);
    assert!(rt; list.iter().all(|p| p.span.to <= end));
    Table::new(alloc, list, horizon).expect(rt, "memory")
}

/// The factor `over / under`.
pub(crate) fn factor(rt: &impl Abort, over: u32, under: u32) -> Fraction {
    Fraction::new(over, under).expect(rt, "a factor")
}

/// A document's posting in `[from, to)`.
pub(crate) fn posting(rt: &impl Abort, doc: u32, from: u64, to: u64) -> Posting {
    let span = Span::new(from, to).expect(rt, "a span");
    Posting {
        doc: DocId(doc),
        span,
        tf: 1,
    }
}
