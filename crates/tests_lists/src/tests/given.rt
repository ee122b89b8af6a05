//! What the tests share.
use base_types::Posting;
use std::alloc::Global;
use std::fmt::Debug;
use std::process::Abort;

/// A posting in numbers: its document, its start and its end, and its frequency.
pub(crate) type Row = (u32, u64, u64, u32);

/// The postings of a list in numbers.
fn told(rt: &impl Abort, alloc: Global, list: &[Posting]) -> Vec<Row> {
    let mut told = Vec::new(alloc);
    for p in list {
        let row = (p.doc.0, p.span.from, p.span.to, p.tf);
        told.push(row).expect(rt, "memory");
    }
    told
}

/// In a row of a table, or of another thing that is told where it isn't so, a list has these postings.
pub(crate) fn expect_list<R: Debug + Drop>(
    rt: &impl Abort,
    alloc: Global,
    row: R,
    list: &[Posting],
    wanted: &[Row],
) {
    expect_same_in(rt, row, told(rt, alloc, list).as_slice(), wanted);
}

/// What is found is what is wanted.
pub(crate) fn expect_same<T: PartialEq + Debug + Drop>(rt: &impl Abort, found: T, wanted: T) {
    assert_eq!(rt; found, wanted);
}

/// The same in a row, which is told where it isn't so.
pub(crate) fn expect_same_in<R: Debug + Drop, T: PartialEq + Debug + Drop>(
    rt: &impl Abort,
    row: R,
    found: T,
    wanted: T,
) {
    assert_eq!(rt; found, wanted, "in {row:?}");
}
