//! Entries as bytes, and bytes that spell none.
use crate::tests::given::{expect_same, expect_same_in};
use base_types::{DocId, Time};
use journal_entries::{CodecError, Entry, decode, encode_arrival, encode_deletion, encode_format};
use std::alloc::Global;
use std::process::Abort;

/// Document 7 arrives at time 10 with the text `red a`.
const ARRIVAL: [u8; 18] = [
    1, 0, 0, 0, 7, 0, 0, 0, 0, 0, 0, 0, 10, 114, 101, 100, 32, 97,
];

/// Document 7 is deleted at time 2^40 - 1, the last one.
const DELETION: [u8; 13] = [2, 0, 0, 0, 7, 0, 0, 0, 255, 255, 255, 255, 255];

#[test]
fn an_arrival_has_eighteen_bytes(rt: HostRuntime) {
    let at = Time::new(10).expect(&rt, "a time");
    let doc = DocId(7);
    let spelled = encode_arrival(rt.alloc(), doc, at, "red a").expect(&rt, "memory");
    expect_same(&rt, spelled.as_slice(), ARRIVAL.as_slice());
}

/// The document, the time and the text of an arrival.
fn arrived(entry: &Entry) -> Option<(DocId, Time, &str)> {
    match entry {
        Entry::Arrive { doc, at, text } => Some((*doc, *at, text.as_str())),
        _ => None,
    }
}

/// The document and the time of a deletion.
fn deleted(entry: &Entry) -> Option<(DocId, Time)> {
    match entry {
        Entry::Delete { doc, at } => Some((*doc, *at)),
        _ => None,
    }
}

#[test]
fn eighteen_bytes_spell_an_arrival(rt: HostRuntime) {
    let entry = decode(rt.alloc(), &ARRIVAL).expect(&rt, "an entry");
    let (doc, at, text) = arrived(&entry).expect(&rt, "an arrival");
    expect_same(&rt, (doc.0, at.seconds(), text), (7, 10, "red a"));
}

#[test]
fn a_deletion_has_thirteen_bytes(rt: HostRuntime) {
    let entry = decode(rt.alloc(), &DELETION).expect(&rt, "an entry");
    let (doc, at) = deleted(&entry).expect(&rt, "a deletion");
    expect_same(&rt, (doc.0, at.seconds()), (7, 1_099_511_627_775));
    let spelled = encode_deletion(rt.alloc(), doc, at).expect(&rt, "memory");
    expect_same(&rt, spelled.as_slice(), DELETION.as_slice());
}

/// The mark of a journal that may have batches.
const MARK: [u8; 3] = [5, 0, 2];

/// Whether bytes spell the mark.
fn marks(alloc: Global, body: &[u8]) -> bool {
    matches!(decode(alloc, body), Ok(Entry::Format))
}

#[test]
fn the_mark_has_three_bytes(rt: HostRuntime) {
    let alloc = rt.alloc();
    let spelled = encode_format(alloc).expect(&rt, "memory");
    expect_same(
        &rt,
        (spelled.as_slice(), marks(alloc, &MARK)),
        (MARK.as_slice(), true),
    );
    // another number, one that is cut short, a byte too many, and the tag of a batch
    let places = [
        named(alloc, &[5, 0, 3]),
        named(alloc, &[5, 0]),
        named(alloc, &[5]),
        named(alloc, &[5, 0, 2, 0]),
        named(alloc, &[4, 0, 2]),
    ];
    expect_same(&rt, places, [Some(1), Some(1), Some(1), Some(3), Some(1)]);
}

/// The place that bytes name which spell no entry.
pub(super) fn named(alloc: Global, body: &[u8]) -> Option<u64> {
    match decode(alloc, body).err() {
        Some(CodecError::Form { at }) => Some(at),
        _ => None,
    }
}

/// Places in the arrival, a byte put there, and the place that is named.
const FAULTS: [(usize, u8, u64); 7] = [
    (0, 2, 13),
    (0, 3, 1),
    (0, 9, 0),
    (0, 0, 0),
    (5, 255, 5),
    (7, 1, 5),
    (13, 255, 13),
];

/// The arrival with another byte at a place names this one.
fn expect_fault(rt: &impl Abort, alloc: Global, (place, byte, at): (usize, u8, u64)) {
    let mut body = ARRIVAL;
    if let Some(old) = body.get_mut(place) {
        *old = byte;
    }
    expect_same_in(rt, (place, byte), named(alloc, &body), Some(at));
}

#[test]
fn the_first_wrong_field_is_named(rt: HostRuntime) {
    for fault in &FAULTS {
        expect_fault(&rt, rt.alloc(), *fault);
    }
}

/// The place that so many bytes of the arrival name.
fn cut_at(len: usize) -> u64 {
    match len {
        0 => 0,
        1..=4 => 1,
        _ => 5,
    }
}

#[test]
fn a_field_cut_short_is_named(rt: HostRuntime) {
    for len in 0..13 {
        let place = named(rt.alloc(), &ARRIVAL[..len]);
        expect_same_in(&rt, len, place, Some(cut_at(len)));
    }
    assert!(rt; decode(rt.alloc(), &ARRIVAL[..13]).is_ok(), "an empty text");
}

/// An arrival with a text of so many letters.
fn long_arrival(rt: &impl Abort, alloc: Global, text_bytes: u32) -> Vec<u8> {
    let mut body = Vec::from_slice(alloc, &ARRIVAL[..13]).expect(rt, "memory");
    body.resize(13 + text_bytes as usize, b'a')
        .expect(rt, "memory");
    body
}

/// An arrival with a text of so many bytes names this place, or is one.
fn expect_long(rt: &impl Abort, alloc: Global, text_bytes: u32, at: Option<u64>) {
    let body = long_arrival(rt, alloc, text_bytes);
    let place = named(alloc, &body);
    expect_same_in(rt, text_bytes, place, at);
}

#[test]
fn a_text_has_at_most_four_mebibytes(rt: HostRuntime) {
    expect_long(&rt, rt.alloc(), 4_194_304, None);
    expect_long(&rt, rt.alloc(), 4_194_305, Some(13));
}
