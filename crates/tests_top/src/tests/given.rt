//! Postings and questions for the tests.

use super::shelf::{Fault, Shelf, Word};
use base_types::{DocId, Posting, Span, Time};
use query_top::{Row, TopError, top_rows};
use std::alloc::Global;
use std::fmt::Debug;
use std::process::Abort;

/// The posting of that document, start, end and frequency.
pub(crate) fn posting(rt: &impl Abort, doc: u32, from: u64, to: u64, tf: u32) -> Posting {
    assert!(rt; tf != 0);
    Posting {
        doc: DocId(doc),
        span: Span::new(from, to).expect(rt, "a span"),
        tf,
    }
}

/// These words, of which no block is torn.
pub(crate) fn shelf(alloc: Global, words: Vec<Word>) -> Shelf {
    Shelf {
        alloc,
        words,
        torn: None,
        opened: 0,
    }
}

/// The first rows of the words of a shelf by their weights, or why there are none.
pub(crate) fn top(
    rt: &impl Abort,
    alloc: Global,
    shelf: &mut Shelf,
    weights: &[u32],
    at: u64,
    count: usize,
) -> Result<Vec<Row>, TopError<Fault>> {
    let at = Time::new(at).expect(rt, "a time");
    assert!(rt; count != 0);
    assert!(rt; weights.len() == shelf.words.len() && weights.len() <= 4096);
    assert!(rt; weights.iter().all(|w| 1 <= *w && *w <= 1000));
    top_rows(alloc, weights, at, count, shelf)
}

/// What is found is what is wanted, in a row that is told where it isn't so.
pub(crate) fn expect_same_in<R: Debug + Drop, T: PartialEq + Debug + Drop>(
    rt: &impl Abort,
    row: R,
    found: T,
    wanted: T,
) {
    assert_eq!(rt; found, wanted, "in {row:?}");
}

/// The documents and scores of rows.
fn told(rt: &impl Abort, alloc: Global, rows: &[Row]) -> Vec<(u32, u64)> {
    let mut told = Vec::new(alloc);
    for row in rows {
        told.push((row.doc.0, row.score)).expect(rt, "memory");
    }
    told
}

/// The documents and scores of the first rows of the words of a shelf.
pub(crate) fn found(
    rt: &impl Abort,
    alloc: Global,
    shelf: &mut Shelf,
    weights: &[u32],
    at: u64,
    count: usize,
) -> Vec<(u32, u64)> {
    let rows = top(rt, alloc, shelf, weights, at, count).ok();
    told(rt, alloc, &rows.expect(rt, "rows"))
}

/// Weights, a time, how many rows are asked for, the documents and scores that are found, and how many blocks
/// are opened for them.
pub(crate) type Asked<'a> = (&'a [u32], u64, usize, &'a [(u32, u64)], u64);

/// These rows are found, with so many blocks opened.
pub(crate) fn expect_found(
    rt: &impl Abort,
    alloc: Global,
    shelf: &mut Shelf,
    (weights, at, count, wanted, opened): Asked<'_>,
) {
    shelf.opened = 0;
    let found = found(rt, alloc, shelf, weights, at, count);
    expect_same_in(rt, (at, count), found.as_slice(), wanted);
    expect_same_in(rt, (at, count), shelf.opened, opened);
}

/// The same for each of these; nothing more is asked of the shelf.
pub(crate) fn expect_each(rt: &impl Abort, alloc: Global, mut shelf: Shelf, all: &[Asked<'_>]) {
    for asked in all {
        expect_found(rt, alloc, &mut shelf, *asked);
    }
}
