//! What was asked, and the shares that come of it.
ghost use Rattle.std.specs.Prelude.{◌≤◌, ◌^◌};

use super::given::{expect_same, expect_same_in, listed};
use base_types::{Fraction, Key, NOW, Posting, Span, Time};
use plans_partitions::Table;
use plans_share::{Asked, MOST_ASKED, Times};
use plans_space::{Load, front};
use std::alloc::Global;
use std::process::Abort;

/// The key of a text.
fn key(rt: &impl Abort, alloc: Global, text: &str) -> Key {
    let key = Key::new(alloc, text).expect(rt, "memory");
    key.expect(rt, "a key")
}

/// Notes so often that a word was asked for at a time.
fn note(rt: &impl Abort, alloc: Global, asked: &mut Asked, word: &str, at: u64, often: usize) {
    let word = key(rt, alloc, word);
    let at = Time::new(at).expect(rt, "a time");
    for _ in 0..often {
        asked.note(alloc, &word, at).expect(rt, "memory");
    }
}

/// Words and the times at which they were asked for, in order.
fn noted(rt: &impl Abort, alloc: Global, pairs: &[(&str, u64)]) -> Asked {
    let mut asked = Asked::new(alloc);
    for (word, at) in pairs {
        note(rt, alloc, &mut asked, word, *at, 1);
    }
    asked
}

/// So many pairs have the word and a time in the span, by the pairs and by the word's times.
fn expect_count(
    rt: &impl Abort,
    alloc: Global,
    asked: &Asked,
    word: &str,
    (from, to): (u64, u64),
    count: u64,
) {
    let word = key(rt, alloc, word);
    let span = Span::new(from, to).expect(rt, "a span");
    let times = asked.times(alloc, &word).expect(rt, "memory");
    let found = (asked.count(&word, span), times.count(span));
    expect_same_in(rt, (from, to), found, (count, count));
}

/// Spans, and how many pairs of `v` and of `moon` are in them, where `v` was asked for at 25 and twice at 15,
/// and `moon` at 15.
const COUNTS: [((u64, u64), u64, u64); 8] = [
    ((0, NOW), 3, 1),
    ((10, 20), 2, 1),
    ((15, 16), 2, 1),
    // the end isn't in a span
    ((10, 15), 0, 0),
    ((16, 25), 0, 0),
    ((16, 26), 1, 0),
    ((25, NOW), 1, 0),
    ((26, NOW), 0, 0),
];

#[test]
fn pairs_are_counted_by_word_and_span(rt: HostRuntime) {
    let alloc = rt.alloc();
    let pairs = [("v", 25), ("v", 15), ("v", 15), ("moon", 15)];
    let asked = noted(&rt, alloc, &pairs);
    for (ends, of_v, of_moon) in &COUNTS {
        expect_count(&rt, alloc, &asked, "v", *ends, *of_v);
        expect_count(&rt, alloc, &asked, "moon", *ends, *of_moon);
        expect_count(&rt, alloc, &asked, "vv", *ends, 0);
    }
}

/// 1,048,576 pairs, and one more.
#[test]
fn only_the_first_pairs_are_noted(rt: HostRuntime) {
    let alloc = rt.alloc();
    let mut asked = Asked::new(alloc);
    note(&rt, alloc, &mut asked, "v", 5, MOST_ASKED - 1);
    note(&rt, alloc, &mut asked, "w", 5, 1);
    note(&rt, alloc, &mut asked, "x", 5, 1);
    expect_count(&rt, alloc, &asked, "v", (0, NOW), 1_048_575);
    expect_count(&rt, alloc, &asked, "w", (0, NOW), 1);
    expect_count(&rt, alloc, &asked, "x", (0, NOW), 0);
}

/// The table of a list up to a horizon.
fn table_of(rt: &impl Abort, alloc: Global, list: &[Posting], horizon: u64) -> Table {
    let horizon = Time::new(horizon).expect(rt, "a horizon");
    let end = horizon.seconds();
    assert!(rt; !list.is_empty() && list.len() < 1 << 38);
    assert!(rt; list.iter().all(|p| p.span.to <= end));
    Table::new(alloc, list, horizon).expect(rt, "memory")
}

/// How many of these times a span holds.
fn weight(times: &Times, span: Span) -> u64
    ensures { result ≤ 2 ^ 40 }
{
    times.count(span)
}

/// The front of a table, where these times are asked for, has these charges and costs.
fn expect_front(
    rt: &impl Abort,
    alloc: Global,
    table: &Table,
    times: &Times,
    wanted: &[(u64, u128)],
) {
    let factor = Fraction::new(16, 1).expect(rt, "a factor");
    let load = Load::new(|span: Span| weight(times, span));
    let points = front(alloc, table, factor, &load).expect(rt, "memory");
    expect_same(rt, points.len(), wanted.len());
    for (point, row) in points.iter().zip(wanted) {
        expect_same(rt, (point.charge, point.cost), *row);
    }
}

/// Document 1 from 10 to 40 and document 2 from 20 to 30, asked for at 25, 15 and 15.
#[test]
fn the_share_of_one_word(rt: HostRuntime) {
    let alloc = rt.alloc();
    let asked = noted(&rt, alloc, &[("v", 25), ("v", 15), ("v", 15)]);
    let times = asked.times(alloc, &key(&rt, alloc, "v"));
    let times = times.expect(&rt, "memory");
    let list = listed(&rt, alloc, &[(1, 10, 40, 1), (2, 20, 30, 1)]);
    let table = table_of(&rt, alloc, &list, 40);
    expect_front(&rt, alloc, &table, &times, &[(2, 6), (3, 4)]);
}
