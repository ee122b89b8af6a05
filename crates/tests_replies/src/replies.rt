//! Replies as bytes.
ghost use Rattle.std.specs.Prelude.{◌≤◌};

use archive_replies::{ReplyPage, Tally};
use base_types::{DocId, Key, NOW, Posting, Span, Time, Which};
use model_archive::{Refusal, Summary, Verdict};
use plans_kinds::{Node, Segment};
use query_eval::{Row, SpanRow};
use std::alloc::Global;
use std::process::Abort;

/// A page without a reply.
fn new_page(rt: &impl Abort, alloc: Global) -> ReplyPage {
    ReplyPage::new(alloc).expect(rt, "memory")
}

/// The page has the bytes of this text.
fn expect_page(rt: &impl Abort, page: &ReplyPage, text: &str) {
    assert_eq!(rt; page.as_bytes(), text.as_bytes());
}

/// So many seconds.
fn time(rt: &impl Abort, seconds: u64) -> Time {
    Time::new(seconds).expect(rt, "a time")
}

fn span(rt: &impl Abort, from: u64, to: u64) -> Span {
    Span::new(from, to).expect(rt, "a span")
}

/// A command that makes so many entries is answered so.
fn expect_accepted(rt: &impl Abort, page: &mut ReplyPage, entries: u64, text: &str) {
    page.accepted(entries);
    expect_page(rt, page, text);
}

#[test]
fn accepted_commands_are_answered_by_the_number_of_entries(rt: HostRuntime) {
    let mut page = new_page(&rt, rt.alloc());
    expect_page(&rt, &page, "");
    expect_accepted(&rt, &mut page, 4194304, "ok 4194304\n");
    expect_accepted(&rt, &mut page, 1, "ok 1\n");
}

/// Refusals, and the reply to each.
const REFUSALS: [(Refusal, &str); 19] = [
    (Refusal::Line, "no 1 Line\n"),
    (Refusal::SameTime, "no 3 SameTime\n"),
    (Refusal::NoDocument, "no 4 NoDocument\n"),
    (
        Refusal::TooLong { limit: 4194304 },
        "no 5 TooLong 4194304\n",
    ),
    (Refusal::BadText { offset: 0 }, "no 6 BadText 0\n"),
    (Refusal::NotOneTerm, "no 7 NotOneTerm\n"),
    (Refusal::NothingSealed, "no 8 NothingSealed\n"),
    (
        Refusal::TooWide {
            boundaries: 1048577,
        },
        "no 9 TooWide 1048577\n",
    ),
    (Refusal::BadQuery { offset: 0 }, "no 11 BadQuery 0\n"),
    (Refusal::Busy, "no 12 Busy\n"),
    (Refusal::UnknownWord, "no 13 UnknownWord\n"),
    (Refusal::NoPlan, "no 14 NoPlan\n"),
    (Refusal::OneJob, "no 15 OneJob\n"),
    (Refusal::BatchLine { index: 2 }, "no 16 BatchLine 2\n"),
    (Refusal::BatchLine { index: 1000 }, "no 16 BatchLine 1000\n"),
    (
        Refusal::BatchTooLong { limit: 16_777_216 },
        "no 17 BatchTooLong 16777216\n",
    ),
    (Refusal::OldFormat, "no 18 OldFormat\n"),
    (Refusal::HasFormat, "no 19 HasFormat\n"),
    (Refusal::NotDisjunction, "no 20 NotDisjunction\n"),
];

/// A refusal is answered so.
fn expect_refused(rt: &impl Abort, page: &mut ReplyPage, refusal: Refusal, text: &str) {
    page.refused(refusal);
    expect_page(rt, page, text);
}

/// The refusal of what comes before the time 10.
fn time_back(rt: &impl Abort) -> Refusal {
    Refusal::TimeBack { last: time(rt, 10) }
}

fn full(which: Which) -> Refusal {
    let limit = which.limit();
    Refusal::Full { which, limit }
}

/// What is full is answered so.
fn expect_full(rt: &impl Abort, page: &mut ReplyPage, which: Which, text: &str) {
    expect_refused(rt, page, full(which), text);
}

#[test]
fn refusals_are_answered_by_number_name_and_detail(rt: HostRuntime) {
    let mut page = new_page(&rt, rt.alloc());
    for (refusal, text) in &REFUSALS {
        expect_refused(&rt, &mut page, *refusal, text);
    }
    expect_refused(&rt, &mut page, time_back(&rt), "no 2 TimeBack 10\n");
    let documents = "no 10 Full documents 1048576\n";
    expect_full(&rt, &mut page, Which::Documents, documents);
    let versions = "no 10 Full versions 4194304\n";
    expect_full(&rt, &mut page, Which::Versions, versions);
    let journal = "no 10 Full journal 1099511627776\n";
    expect_full(&rt, &mut page, Which::Journal, journal);
}

/// Refusals of items of a batch, the number of each item, and the reply.
const IN_BATCHES: [(Refusal, u32, &str); 5] = [
    (Refusal::NoDocument, 2, "no 4 NoDocument in 2\n"),
    (Refusal::SameTime, 1, "no 3 SameTime in 1\n"),
    (
        Refusal::TooLong { limit: 4194304 },
        1000,
        "no 5 TooLong 4194304 in 1000\n",
    ),
    (Refusal::BadText { offset: 7 }, 2, "no 6 BadText 7 in 2\n"),
    (
        Refusal::NoDocument,
        u32::MAX,
        "no 4 NoDocument in 4294967295\n",
    ),
];

/// The refusal of an item of a batch is answered so.
fn expect_refused_in(
    rt: &impl Abort,
    page: &mut ReplyPage,
    refusal: Refusal,
    index: u32,
    text: &str,
) {
    page.refused_in(refusal, index);
    expect_page(rt, page, text);
}

#[test]
fn the_refusal_of_an_item_of_a_batch_ends_with_its_number(rt: HostRuntime) {
    let mut page = new_page(&rt, rt.alloc());
    for (refusal, index, text) in &IN_BATCHES {
        expect_refused_in(&rt, &mut page, *refusal, *index, text);
    }
    let back = "no 2 TimeBack 10 in 3\n";
    expect_refused_in(&rt, &mut page, time_back(&rt), 3, back);
    let versions = "no 10 Full versions 4194304 in 999\n";
    expect_refused_in(&rt, &mut page, full(Which::Versions), 999, versions);
}

fn row(doc: u32, score: u64) -> Row {
    let doc = DocId(doc);
    Row { doc, score }
}

/// Rows, for which so many postings were read, are answered so.
fn expect_found(rt: &impl Abort, page: &mut ReplyPage, rows: &[Row], read: u64, text: &str) {
    page.found(rows, read).expect(rt, "memory");
    expect_page(rt, page, text);
}

#[test]
fn answers_are_a_line_a_row_and_an_end(rt: HostRuntime) {
    let mut page = new_page(&rt, rt.alloc());
    let one = "hit 7 1\nend 1 read 1\n";
    expect_found(&rt, &mut page, &[row(7, 1)], 1, one);
    expect_found(&rt, &mut page, &[], 0, "end 0 read 0\n");
    let rows = [row(2, 3), row(5, 1), row(4294967295, 1)];
    let three = "hit 2 3\nhit 5 1\nhit 4294967295 1\nend 3 read 6\n";
    expect_found(&rt, &mut page, &rows, 6, three);
}

fn span_row(rt: &impl Abort, doc: u32, from: u64, to: u64, score: u64) -> SpanRow {
    SpanRow {
        doc: DocId(doc),
        span: span(rt, from, to),
        score,
    }
}

/// Rows over a window, for which so many postings were read, are answered so.
fn expect_spanned(rt: &impl Abort, page: &mut ReplyPage, rows: &[SpanRow], read: u64, text: &str) {
    page.spanned(rows, read).expect(rt, "memory");
    expect_page(rt, page, text);
}

#[test]
fn answers_over_a_window_are_a_line_a_span_and_an_end(rt: HostRuntime) {
    let mut page = new_page(&rt, rt.alloc());
    let rows = [span_row(&rt, 7, 10, 20, 1)];
    let one = "span 7 10 20 1\nend 1 read 1\n";
    expect_spanned(&rt, &mut page, &rows, 1, one);
    expect_spanned(&rt, &mut page, &[], 3, "end 0 read 3\n");
    let rows = [
        span_row(&rt, 2, 0, 1, 0),
        span_row(&rt, 2, 15, 1099511627776, 3),
        span_row(&rt, 4294967295, 86400, 172800, 1),
    ];
    let three =
        "span 2 0 1 0\nspan 2 15 1099511627776 3\nspan 4294967295 86400 172800 1\nend 3 read 6\n";
    expect_spanned(&rt, &mut page, &rows, 6, three);
}

fn posting(rt: &impl Abort, doc: u32, from: u64, to: u64, tf: u32) -> Posting
    requires { 1 ≤ tf }
{
    Posting {
        doc: DocId(doc),
        span: span(rt, from, to),
        tf,
    }
}

/// The near list of one of so many postings is answered so.
fn expect_approximated(
    rt: &impl Abort,
    page: &mut ReplyPage,
    short: &[Posting],
    full: u64,
    text: &str,
) {
    page.approximated(short, full).expect(rt, "memory");
    expect_page(rt, page, text);
}

#[test]
fn approximations_are_a_line_a_posting_and_an_end(rt: HostRuntime) {
    let mut page = new_page(&rt, rt.alloc());
    let short = [posting(&rt, 1, 10, 40, 5)];
    let one = "approx 1 10 40 5\nend 1 of 3\n";
    expect_approximated(&rt, &mut page, &short, 3, one);
    expect_approximated(&rt, &mut page, &[], 0, "end 0 of 0\n");
    let short = [
        posting(&rt, 2, 0, 1, 4194304),
        posting(&rt, 4294967295, 15, 1099511627776, 4294967295),
    ];
    let two =
        "approx 2 0 1 4194304\napprox 4294967295 15 1099511627776 4294967295\nend 2 of 1099511627776\n";
    expect_approximated(&rt, &mut page, &short, 1099511627776, two);
}

/// Rows by near lists, for which so many postings were read, are answered so.
fn expect_neared(rt: &impl Abort, page: &mut ReplyPage, rows: &[Row], read: u64, text: &str) {
    page.neared(rows, read).expect(rt, "memory");
    expect_page(rt, page, text);
}

#[test]
fn rough_answers_are_a_line_a_row_and_an_end(rt: HostRuntime) {
    let mut page = new_page(&rt, rt.alloc());
    let one = "near 1 5\nend 1 read 3\n";
    expect_neared(&rt, &mut page, &[row(1, 5)], 3, one);
    expect_neared(&rt, &mut page, &[], 0, "end 0 read 0\n");
    let rows = [row(4294967295, 1000), row(2, 0)];
    let two = "near 4294967295 1000\nnear 2 0\nend 2 read 6\n";
    expect_neared(&rt, &mut page, &rows, 6, two);
}

fn segment(rt: &impl Abort, from: u64, to: u64, size: u64) -> Segment {
    let span = span(rt, from, to);
    Segment { span, size }
}

fn node(at: u64, pi: u64) -> Node {
    Node { at, pi }
}

#[test]
fn plans_are_a_line_a_segment_a_line_a_boundary_and_an_end(rt: HostRuntime) {
    let mut page = new_page(&rt, rt.alloc());
    let segments = [segment(&rt, 10, 20, 2), segment(&rt, 20, 50, 3)];
    let nodes = [node(10, 0), node(20, 2), node(30, 4), node(50, 5)];
    page.proposed(&segments, &nodes, 5).expect(&rt, "memory");
    let lines =
        "segment 10 20 2\nsegment 20 50 3\nnode 10 0\nnode 20 2\nnode 30 4\nnode 50 5\nend 2 space 5\n";
    expect_page(&rt, &page, lines);
}

/// A stored plan is answered so.
fn expect_planned(rt: &impl Abort, page: &mut ReplyPage, summary: Summary, text: &str) {
    page.planned(summary);
    expect_page(rt, page, text);
}

/// A plan up to 40 of a list of two postings, by the fifth entry.
fn summary(rt: &impl Abort, segments: u64, space: u64, cost: Option<u128>) -> Summary {
    Summary {
        length: 5,
        segments,
        space,
        full: 2,
        horizon: time(rt, 40),
        cost,
    }
}

#[test]
fn stored_plans_are_answered_by_one_line(rt: HostRuntime) {
    let mut page = new_page(&rt, rt.alloc());
    let line = "plan 5 segments 3 space 4 full 2 horizon 40\n";
    expect_planned(&rt, &mut page, summary(&rt, 3, 4, None), line);
}

/// A plan of one segment that costs so much is answered so.
fn expect_cost(rt: &impl Abort, page: &mut ReplyPage, cost: u128, text: &str) {
    expect_planned(rt, page, summary(rt, 1, 2, Some(cost)), text);
}

#[test]
fn a_plan_under_a_space_bound_is_answered_with_its_cost(rt: HostRuntime) {
    let mut page = new_page(&rt, rt.alloc());
    let line = "plan 5 segments 1 space 2 full 2 horizon 40 cost 60\n";
    expect_cost(&rt, &mut page, 60, line);
    let line = "plan 5 segments 1 space 2 full 2 horizon 40 cost 0\n";
    expect_cost(&rt, &mut page, 0, line);
    let line = "plan 5 segments 1 space 2 full 2 horizon 40 cost 18446744073709551616\n";
    expect_cost(&rt, &mut page, 18446744073709551616, line);
}

/// The plan with the greatest numbers.
fn greatest(rt: &impl Abort) -> Summary {
    Summary {
        length: u64::MAX,
        segments: u64::MAX,
        space: u64::MAX,
        full: u64::MAX,
        horizon: time(rt, NOW - 1),
        cost: Some(u128::MAX),
    }
}

#[test]
fn a_new_page_has_room_for_the_greatest_numbers(rt: HostRuntime) {
    let mut page = new_page(&rt, rt.alloc());
    let line =
        "plan 18446744073709551615 segments 18446744073709551615 space 18446744073709551615 full 18446744073709551615 horizon 1099511627775 cost 340282366920938463463374607431768211455\n";
    assert_eq!(rt; line.len(), 176);
    expect_planned(&rt, &mut page, greatest(&rt), line);
}

/// A version's text is answered so.
fn expect_version(rt: &impl Abort, page: &mut ReplyPage, text: &[u8], reply: &str) {
    page.version(text).expect(rt, "memory");
    expect_page(rt, page, reply);
}

/// A text of a thousand letters is answered by so many bytes.
fn expect_long(rt: &impl Abort, page: &mut ReplyPage, bytes: usize) {
    page.version(&[b'x'; 1000]).expect(rt, "memory");
    assert_eq!(rt; page.as_bytes().len(), bytes);
}

#[test]
fn texts_stand_behind_their_length(rt: HostRuntime) {
    let mut page = new_page(&rt, rt.alloc());
    expect_version(&rt, &mut page, b"red a", "text 5\nred a\n");
    page.none();
    expect_page(&rt, &page, "none\n");
    expect_version(&rt, &mut page, b"", "text 0\n\n");
    expect_long(&rt, &mut page, 1011);
    expect_accepted(&rt, &mut page, 1, "ok 1\n");
}

/// A verdict is answered so.
fn expect_verified(rt: &impl Abort, page: &mut ReplyPage, verdict: Verdict, text: &str) {
    page.verified(&verdict).expect(rt, "memory");
    expect_page(rt, page, text);
}

#[test]
fn a_sound_archive_is_told_with_its_plans_and_segments(rt: HostRuntime) {
    let mut page = new_page(&rt, rt.alloc());
    let (words, segments) = (12, 23);
    let sound = Verdict::Sound { words, segments };
    expect_verified(&rt, &mut page, sound, "sound 12 23\n");
}

fn key(rt: &impl Abort, alloc: Global, word: &str) -> Key {
    let key = Key::new(alloc, word).expect(rt, "memory");
    key.expect(rt, "a key")
}

#[test]
fn a_byte_that_differs_has_two_digits_and_one_that_is_missing_none(rt: HostRuntime) {
    let alloc = rt.alloc();
    let mut page = new_page(&rt, alloc);
    let differs = Verdict::Differs {
        word: key(&rt, alloc, "v"),
        segment: 0,
        place: 6,
        found: Some(2),
        wanted: Some(171),
    };
    expect_verified(&rt, &mut page, differs, "differs v 0 6 02 ab\n");
    let is_missing = Verdict::Differs {
        word: key(&rt, alloc, "wörter"),
        segment: 2,
        place: 23,
        found: None,
        wanted: Some(240),
    };
    expect_verified(&rt, &mut page, is_missing, "differs wörter 2 23 -- f0\n");
}

#[test]
fn a_plan_that_takes_too_much_and_a_text_that_is_none_are_told(rt: HostRuntime) {
    let alloc = rt.alloc();
    let mut page = new_page(&rt, alloc);
    let word = key(&rt, alloc, "v");
    let (taken, least) = (5, 4);
    let too_much = Verdict::NotLeast { word, taken, least };
    expect_verified(&rt, &mut page, too_much, "notleast v 5 4\n");
    let at = time(&rt, 10);
    let no_text = Verdict::BadText { doc: DocId(7), at };
    expect_verified(&rt, &mut page, no_text, "badtext 7 10\n");
}

#[test]
fn a_sample_is_told_in_two_lines(rt: HostRuntime) {
    let mut page = new_page(&rt, rt.alloc());
    let tally = Tally {
        accepted: 7,
        refused: 3,
        hits: 2,
        read: 4,
    };
    let (words, segments) = (5, 5);
    page.generated(2, &tally, &Verdict::Sound { words, segments })
        .expect(&rt, "memory");
    let lines = "generated 2 accepted 7 refused 3 hits 2 read 4\nsound 5 5\n";
    expect_page(&rt, &page, lines);
}
