//! The answer to a query at a time.
use super::given::{RedAndBlue, expect_same_in, parts_of, read};
use base_types::{DocId, NOW, Time};
use query_eval::{Row, Wanted, answer_by_hits, answer_by_living_hits, answer_from};
use std::alloc::Global;
use std::process::Abort;

/// The lists of both words.
const LISTS: RedAndBlue<'static> = (
    &[(1, 10, 30, 2), (2, 10, NOW, 1), (4, 10, NOW, 1)],
    &[(1, 20, 40, 1), (3, 10, NOW, 5), (3, 5, 10, 7)],
);

/// What a query finds at a time among these documents, as documents and scores.
fn found(rt: &impl Abort, alloc: Global, text: &str, seconds: u64, alive: &[DocId]) -> Vec<Row> {
    let query = read(rt, alloc, text);
    let t = Time::new(seconds).expect(rt, "a time");
    let parts = parts_of(rt, alloc, &query, LISTS);
    let answer = answer_from(alloc, &query, t, &parts, alive, Wanted::All).expect(rt, "memory");
    answer.rows
}

/// What a query finds at a time by hits among all documents.
fn found_by_hits(rt: &impl Abort, alloc: Global, text: &str, seconds: u64) -> Vec<Row> {
    let query = read(rt, alloc, text);
    let t = Time::new(seconds).expect(rt, "a time");
    let parts = parts_of(rt, alloc, &query, LISTS);
    let answer = answer_by_hits(alloc, &query, t, &parts, Wanted::All).expect(rt, "memory");
    answer.rows
}

/// What a query finds at a time by hits among those that aren't this document.
fn found_living(rt: &impl Abort, alloc: Global, text: &str, seconds: u64, dead: DocId) -> Vec<Row> {
    let query = read(rt, alloc, text);
    let t = Time::new(seconds).expect(rt, "a time");
    let parts = parts_of(rt, alloc, &query, LISTS);
    let answer = answer_by_living_hits(
        alloc,
        &query,
        t,
        &parts,
        |doc| doc != dead,
        Wanted::All,
    ).expect(rt, "memory");
    answer.rows
}

/// Documents and scores.
type Rows<'a> = &'a [(u32, u64)];

/// The rows of these documents and scores.
fn rows_of(rt: &impl Abort, alloc: Global, wanted: Rows<'_>) -> Vec<Row> {
    let mut rows = Vec::new(alloc);
    for (doc, score) in wanted {
        let row = Row {
            doc: DocId(*doc),
            score: *score,
        };
        rows.push(row).expect(rt, "memory");
    }
    rows
}

/// Queries, times, and what is found then of the documents 1 to 5.
const ROWS: [(&str, u64, Rows<'static>); 10] = [
    ("red", 25, &[(1, 2), (2, 1), (4, 1)]),
    ("red blue", 25, &[(1, 3)]),
    ("red not blue", 25, &[(2, 1), (4, 1)]),
    ("blue or red", 25, &[(3, 5), (1, 3), (2, 1), (4, 1)]),
    ("not red", 25, &[(3, 0), (5, 0)]),
    (
        "red or not red",
        25,
        &[(1, 2), (2, 1), (4, 1), (3, 0), (5, 0)],
    ),
    ("red red", 25, &[(1, 2), (2, 1), (4, 1)]),
    ("blue", 7, &[(3, 7)]),
    ("blue", 35, &[(3, 5), (1, 1)]),
    ("red", 9, &[]),
];

/// A query finds these at a time among the documents.
fn expect_found(
    rt: &impl Abort,
    alloc: Global,
    (text, seconds, wanted): (&str, u64, Rows<'_>),
    alive: &[DocId],
) {
    let rows = rows_of(rt, alloc, wanted);
    let answer = found(rt, alloc, text, seconds, alive);
    expect_same_in(rt, (text, seconds), answer.as_slice(), rows.as_slice());
}

#[test]
fn rows_stand_by_score_and_then_by_document(rt: HostRuntime) {
    let ascending = [DocId(1), DocId(2), DocId(3), DocId(4), DocId(5)];
    let mixed = [DocId(5), DocId(3), DocId(1), DocId(4), DocId(2), DocId(1)];
    for row in &ROWS {
        expect_found(&rt, rt.alloc(), *row, &ascending);
        expect_found(&rt, rt.alloc(), *row, &mixed);
    }
}

/// Queries, times, what is found then by hits, a document, and what is found without it.
const HITS: [(&str, u64, Rows<'static>, u32, Rows<'static>); 5] = [
    ("red", 25, &[(1, 2), (2, 1), (4, 1)], 2, &[(1, 2), (4, 1)]),
    (
        "blue or red",
        25,
        &[(3, 5), (1, 3), (2, 1), (4, 1)],
        3,
        &[(1, 3), (2, 1), (4, 1)],
    ),
    ("red not blue", 25, &[(2, 1), (4, 1)], 1, &[(2, 1), (4, 1)]),
    ("blue", 7, &[(3, 7)], 3, &[]),
    ("red", 9, &[], 1, &[]),
];

/// By hits a query finds these at a time.
fn expect_hits(rt: &impl Abort, alloc: Global, text: &str, seconds: u64, wanted: Rows<'_>) {
    let rows = rows_of(rt, alloc, wanted);
    let answer = found_by_hits(rt, alloc, text, seconds);
    expect_same_in(rt, (text, seconds), answer.as_slice(), rows.as_slice());
}

/// By hits a query finds these at a time among the documents that aren't this one.
fn expect_living(
    rt: &impl Abort,
    alloc: Global,
    text: &str,
    seconds: u64,
    dead: DocId,
    wanted: Rows<'_>,
) {
    let rows = rows_of(rt, alloc, wanted);
    let answer = found_living(rt, alloc, text, seconds, dead);
    expect_same_in(rt, (text, seconds), answer.as_slice(), rows.as_slice());
}

#[test]
fn by_hits_there_are_rows_of_those_alive_that_have_a_word(rt: HostRuntime) {
    for (text, seconds, all, dead, living) in &HITS {
        expect_hits(&rt, rt.alloc(), text, *seconds, all);
        expect_living(&rt, rt.alloc(), text, *seconds, DocId(*dead), living);
    }
}
