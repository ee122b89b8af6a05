//! Times, spans, fractions, keys and extents.
use super::given::{expect_same, expect_same_in};
use base_types::{DocId, Extent, Fraction, Key, Posting, Span, Time, WordId};
use std::alloc::Global;
use std::collections::HashMap;
use std::process::Abort;

/// There is a span between these ends, or there is none.
fn expect_span(rt: &impl Abort, from: u64, to: u64, made: bool) {
    expect_same_in(rt, (from, to), Span::new(from, to).is_some(), made);
}

/// There is a factor of these numbers, or there is none.
fn expect_factor(rt: &impl Abort, over: u32, under: u32, made: bool) {
    let found = Fraction::new(over, under).is_some();
    expect_same_in(rt, (over, under), found, made);
}

#[test]
fn constructors_give_none_from_their_limits_on(rt: HostRuntime) {
    assert!(rt; Time::new((1 << 40) - 1).is_some() && Time::new(1 << 40).is_none());
    assert!(rt; WordId::new(1048575).is_some() && WordId::new(1048576).is_none());
    expect_span(&rt, 9, 10, true);
    expect_span(&rt, 10, 10, false);
    expect_span(&rt, 11, 10, false);
    expect_span(&rt, 0, 1 << 40, true);
    expect_span(&rt, 0, (1 << 40) + 1, false);
    expect_factor(&rt, 3, 2, true);
    expect_factor(&rt, 1, 1, true);
    expect_factor(&rt, 2, 3, false);
    expect_factor(&rt, 1, 0, false);
}

/// First pages, numbers of bytes, and how many pages these take.
const EXTENTS: [(u32, u64, Option<u64>); 8] = [
    (0, 0, Some(0)),
    (7, 1, Some(1)),
    (7, 4096, Some(1)),
    (7, 4097, Some(2)),
    (0, 1 << 40, Some(268435456)),
    (268435455, 4096, Some(1)),
    (268435455, 4097, None),
    (1, u64::MAX, None),
];

/// So many bytes from a page on take so many pages, where they may.
fn expect_pages(rt: &impl Abort, (first, bytes, pages): (u32, u64, Option<u64>)) {
    let found = Extent::new(first, bytes).map(|e| e.pages());
    expect_same_in(rt, (first, bytes), found, pages);
}

#[test]
fn extents_take_whole_pages(rt: HostRuntime) {
    for row in &EXTENTS {
        expect_pages(&rt, *row);
    }
}

/// The posting of a document until 40.
fn posting(rt: &impl Abort, doc: u32, from: u64, tf: u32) -> Posting {
    assert!(rt; tf != 0);
    Posting {
        doc: DocId(doc),
        span: Span::new(from, 40).expect(rt, "a span"),
        tf,
    }
}

#[test]
fn postings_come_by_document_and_then_by_start(rt: HostRuntime) {
    let first = posting(&rt, 1, 20, 9);
    let second = posting(&rt, 1, 30, 1);
    let third = posting(&rt, 2, 20, 1);
    assert!(rt; first < second && second < third);
}

/// The key of `é` with so many letters behind it, where there is one.
fn key_with(rt: &impl Abort, alloc: Global, letters: usize) -> Option<Key> {
    let mut text = String::from_str(alloc, "é").expect(rt, "memory");
    for _ in 0..letters {
        text.push('k').expect(rt, "memory");
    }
    Key::new(alloc, text.as_str()).expect(rt, "memory")
}

/// In a map with the first key alone the second isn't found.
fn expect_found(rt: &impl Abort, alloc: Global, key: &Key, other: &Key) {
    let mut numbers = HashMap::new(alloc);
    let copy = key.clone().expect(rt, "memory");
    let put: Result<_, _> = numbers.insert(copy, 1);
    assert!(rt; put.is_ok());
    expect_same(rt, numbers.get(key).copied(), Some(1));
    expect_same(rt, numbers.get(other).copied(), None);
}

#[test]
fn keys_have_1_to_255_bytes(rt: HostRuntime) {
    let alloc = rt.alloc();
    assert!(rt; Key::new(alloc, "").expect(&rt, "memory").is_none());
    let short = key_with(&rt, alloc, 0).expect(&rt, "a key of one character");
    expect_same(&rt, short.as_str(), "é");
    let long = key_with(&rt, alloc, 253).expect(&rt, "a key of 255 bytes");
    expect_same(&rt, long.as_str().len(), 255);
    assert!(rt; key_with(&rt, alloc, 254).is_none());
    expect_found(&rt, alloc, &short, &long);
    assert!(rt; short < long);
}
