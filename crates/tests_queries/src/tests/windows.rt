//! The answer to a query over a window.
use super::given::{RedAndBlue, expect_same, expect_same_in, listed, part, parts_of, read};
use base_types::{DocId, NOW, Posting, Span};
use lists_postings::Life;
use query_eval::{Part, SpanRow, answer_over, answer_over_hits, docs_met};
use std::alloc::Global;
use std::process::Abort;

fn life(rt: &impl Abort, doc: u32, from: u64, to: u64) -> Life {
    Life {
        doc: DocId(doc),
        span: Span::new(from, to).expect(rt, "a span"),
    }
}

/// The lists of both words.
const LISTS: RedAndBlue<'static> = (
    &[
        (1, 10, 20, 2),
        (1, 20, 30, 1),
        (2, 10, 20, 1),
        (2, 30, NOW, 1),
    ],
    &[
        (1, 20, 30, 1),
        (1, 30, 40, 3),
        (4, 10, 20, 1),
        (4, 20, 30, 1),
    ],
);

/// A window by its ends.
type Window = (u64, u64);

/// What a query finds in a window.
fn found(
    rt: &impl Abort,
    alloc: Global,
    text: &str,
    (from, to): Window,
    lives: &[Life],
) -> Vec<SpanRow> {
    let query = read(rt, alloc, text);
    let span = Span::new(from, to).expect(rt, "a window");
    let parts = parts_of(rt, alloc, &query, LISTS);
    let answer = answer_over(alloc, &query, span, &parts, lives).expect(rt, "memory");
    answer.rows
}

/// What a query finds in a window by postings alone.
fn found_by_hits(rt: &impl Abort, alloc: Global, text: &str, (from, to): Window) -> Vec<SpanRow> {
    let query = read(rt, alloc, text);
    let span = Span::new(from, to).expect(rt, "a window");
    let parts = parts_of(rt, alloc, &query, LISTS);
    let answer = answer_over_hits(alloc, &query, span, &parts).expect(rt, "memory");
    answer.rows
}

/// Documents, starts, ends and scores.
type Wanted<'a> = &'a [(u32, u64, u64, u64)];

/// The rows of these documents, spans and scores.
fn rows_of(rt: &impl Abort, alloc: Global, wanted: Wanted<'_>) -> Vec<SpanRow> {
    let mut rows = Vec::new(alloc);
    for (doc, from, to, score) in wanted {
        let row = SpanRow {
            doc: DocId(*doc),
            span: Span::new(*from, *to).expect(rt, "a span"),
            score: *score,
        };
        rows.push(row).expect(rt, "memory");
    }
    rows
}

/// The rows of red.
const RED: Wanted<'static> = &[
    (1, 10, 20, 2),
    (1, 20, 30, 1),
    (2, 10, 20, 1),
    (2, 30, NOW, 1),
];

/// The rows of both words.
const EITHER: Wanted<'static> = &[
    (1, 10, 30, 2),
    (1, 30, 40, 3),
    (2, 10, 20, 1),
    (2, 30, NOW, 1),
];

/// Those before 40.
const EITHER_IN_PART: Wanted<'static> = &[
    (1, 10, 30, 2),
    (1, 30, 40, 3),
    (2, 10, 20, 1),
    (2, 30, 40, 1),
];

/// Queries, windows, and what is found there.
const ROWS: [(&str, Window, Wanted<'static>); 13] = [
    ("red", (0, NOW), RED),
    ("red or blue", (0, NOW), EITHER),
    ("red or blue", (10, 40), EITHER_IN_PART),
    ("red blue", (0, NOW), &[(1, 20, 30, 2)]),
    (
        "red not blue",
        (15, 35),
        &[(1, 15, 20, 2), (2, 15, 20, 1), (2, 30, 35, 1)],
    ),
    ("not red", (0, NOW), &[(1, 30, 40, 0), (3, 10, NOW, 0)]),
    ("red", (25, 26), &[(1, 25, 26, 1)]),
    ("red", (20, 30), &[(1, 20, 30, 1)]),
    ("red", (NOW - 1, NOW), &[(2, NOW - 1, NOW, 1)]),
    ("not red", (NOW - 1, NOW), &[(3, NOW - 1, NOW, 0)]),
    ("not red", (0, 10), &[]),
    ("blue", (39, 41), &[(1, 39, 40, 3)]),
    (
        "red or not red",
        (0, 50),
        &[
            (1, 10, 20, 2),
            (1, 20, 30, 1),
            (1, 30, 40, 0),
            (2, 10, 20, 1),
            (2, 30, 50, 1),
            (3, 10, 50, 0),
        ],
    ),
];

/// A query finds these in a window.
fn expect_found(
    rt: &impl Abort,
    alloc: Global,
    lives: &[Life],
    (text, window, wanted): (&str, Window, Wanted<'_>),
) {
    let rows = rows_of(rt, alloc, wanted);
    let answer = found(rt, alloc, text, window, lives);
    expect_same_in(rt, (text, window), answer.as_slice(), rows.as_slice());
}

#[test]
fn rows_are_the_longest_spans_of_one_score(rt: HostRuntime) {
    let lives = [
        life(&rt, 3, 10, NOW),
        life(&rt, 2, 30, NOW),
        life(&rt, 1, 10, 40),
        life(&rt, 2, 10, 20),
    ];
    for row in &ROWS {
        expect_found(&rt, rt.alloc(), &lives, *row);
    }
}

#[test]
fn what_was_read_of_each_word_adds_up(rt: HostRuntime) {
    let alloc = rt.alloc();
    let query = read(&rt, alloc, "red blue");
    let span = Span::new(5, 30).expect(&rt, "a span");
    let lives = [life(&rt, 1, 10, 20)];
    let mut parts = Vec::new(alloc);
    for _ in query.words() {
        let list = listed(&rt, alloc, &[(1, 5, 30, 2)]);
        parts.push(Part { list, read: 1 }).expect(&rt, "memory");
    }
    assert!(rt; parts.len() == query.words().len());
    let answer = answer_over(alloc, &query, span, &parts, &lives).expect(&rt, "memory");
    expect_same(&rt, answer.read, 2);
    let rows = rows_of(&rt, alloc, &[(1, 10, 20, 4)]);
    expect_same(&rt, answer.rows.as_slice(), rows.as_slice());
}

/// Queries that have a word wherever they match.
const TEXTS: [&str; 5] = ["red", "blue", "red or blue", "red blue", "red not blue"];

const WINDOWS: [Window; 6] = [(0, NOW), (15, 35), (20, 30), (29, 31), (0, 10), (20, 21)];

/// By postings alone a query finds in a window what it finds by these lives.
fn expect_alike(rt: &impl Abort, alloc: Global, lives: &[Life], text: &str, window: Window) {
    let answer = found_by_hits(rt, alloc, text, window);
    let wanted = found(rt, alloc, text, window, lives);
    expect_same_in(rt, (text, window), answer.as_slice(), wanted.as_slice());
}

#[test]
fn where_whatever_has_a_word_is_alive_postings_alone_make_the_rows(rt: HostRuntime) {
    let lives = [
        life(&rt, 2, 30, NOW),
        life(&rt, 4, 5, 30),
        life(&rt, 1, 10, 50),
        life(&rt, 2, 10, 20),
        life(&rt, 3, 10, NOW),
    ];
    for text in &TEXTS {
        for window in &WINDOWS {
            expect_alike(&rt, rt.alloc(), &lives, text, *window);
        }
    }
}

/// Windows, and the documents with a posting there.
const MET: [(Window, &[u32]); 6] = [
    ((0, NOW), &[1, 2, 4]),
    ((0, 10), &[]),
    ((0, 11), &[1, 2, 4]),
    ((20, 30), &[1, 4]),
    ((30, 40), &[1, 2]),
    ((40, 41), &[2]),
];

/// These documents have a posting in a window.
fn expect_met(rt: &impl Abort, alloc: Global, parts: &[Part], window: Window, wanted: &[u32]) {
    let span = Span::new(window.0, window.1).expect(rt, "a window");
    let docs = docs_met(alloc, parts, span).expect(rt, "memory");
    expect_same_in(rt, window, docs.len(), wanted.len());
    for (doc, wanted) in docs.iter().zip(wanted) {
        expect_same_in(rt, window, doc.0, *wanted);
    }
}

#[test]
fn documents_with_a_posting_in_a_window_ascend_and_stand_once(rt: HostRuntime) {
    let alloc = rt.alloc();
    let (red, blue) = LISTS;
    let parts = [part(&rt, alloc, blue), part(&rt, alloc, red)];
    for (window, wanted) in &MET {
        expect_met(&rt, alloc, &parts, *window, wanted);
    }
}
