//! Batches as bytes, and bytes that spell none.
use super::entries::named;
use crate::tests::given::{expect_same, expect_same_in};
use crate::tests::in_words::{at_document, beside, owned};
use base_types::{DocId, Time};
use journal_entries::{Act, Entry, begin_batch, decode, put_arrival, put_deletion};
use std::alloc::{AllocError, Global};
use std::process::Abort;

/// Documents 7 and 8 arrive at time 20 with the texts `blue` and `red`.
const ARRIVALS: [u8; 46] = [
    4, 0, 0, 0, 2, //
    0, 0, 0, 17, 1, 0, 0, 0, 7, 0, 0, 0, 0, 0, 0, 0, 20, 98, 108, 117, 101, //
    0, 0, 0, 16, 1, 0, 0, 0, 8, 0, 0, 0, 0, 0, 0, 0, 20, 114, 101, 100,
];

/// Document 7 is deleted at time 20.
const DELETION: [u8; 22] = [
    4, 0, 0, 0, 1, //
    0, 0, 0, 13, 2, 0, 0, 0, 7, 0, 0, 0, 0, 0, 0, 0, 20,
];

/// The batch of the two arrivals, as it is written.
fn arrivals(alloc: Global, at: Time) -> Result<Vec<u8>, AllocError> {
    let mut body = begin_batch(alloc, 2, 0)?;
    put_arrival(&mut body, DocId(7), at, "blue")?;
    put_arrival(&mut body, DocId(8), at, "red")?;
    Ok(body)
}

/// The batch of the deletion, as it is written.
fn deletion(alloc: Global, at: Time) -> Result<Vec<u8>, AllocError> {
    let mut body = begin_batch(alloc, 1, 17)?;
    put_deletion(&mut body, DocId(7), at)?;
    Ok(body)
}

#[test]
fn acts_stand_behind_their_lengths(rt: HostRuntime) {
    let alloc = rt.alloc();
    let at = Time::new(20).expect(&rt, "a time");
    let written = arrivals(alloc, at).expect(&rt, "memory");
    expect_same(&rt, written.as_slice(), ARRIVALS.as_slice());
    let written = deletion(alloc, at).expect(&rt, "memory");
    expect_same(&rt, written.as_slice(), DELETION.as_slice());
}

/// An act in words.
fn act_in_words(rt: &impl Abort, alloc: Global, act: &Act) -> String {
    match act {
        Act::Arrive { doc, at, text } => {
            let front = at_document(rt, alloc, "arrive", *doc, *at);
            beside(rt, alloc, front.as_str(), text.as_str())
        }
        Act::Delete { doc, at } => at_document(rt, alloc, "delete", *doc, *at),
    }
}

/// Acts in words, each with a mark behind it.
fn acts_in_words(rt: &impl Abort, alloc: Global, acts: &[Act]) -> String {
    let mut line = String::new(alloc);
    for act in acts {
        let words = act_in_words(rt, alloc, act);
        line.push_str(words.as_str()).expect(rt, "memory");
        line.push_str(";").expect(rt, "memory");
    }
    line
}

/// The batch that bytes spell in words.
fn batch_in_words(rt: &impl Abort, alloc: Global, body: &[u8]) -> String {
    match decode(alloc, body).expect(rt, "an entry") {
        Entry::Batch(acts) => acts_in_words(rt, alloc, acts.as_slice()),
        _ => owned(rt, alloc, "another entry"),
    }
}

/// Batches as bytes, and in words. The last one is the deletion with the tag of an arrival.
const BATCHES: [(&[u8], &str); 3] = [
    (&ARRIVALS, "arrive 7 20 blue;arrive 8 20 red;"),
    (&DELETION, "delete 7 20;"),
    (
        &[
            4, 0, 0, 0, 1, //
            0, 0, 0, 13, 1, 0, 0, 0, 7, 0, 0, 0, 0, 0, 0, 0, 20,
        ],
        "arrive 7 20 ;",
    ),
];

/// Bytes spell this batch.
fn expect_batch(rt: &impl Abort, alloc: Global, (body, words): (&[u8], &str)) {
    let found = batch_in_words(rt, alloc, body);
    expect_same(rt, found.as_str(), words);
}

#[test]
fn acts_are_read_in_their_order(rt: HostRuntime) {
    for row in &BATCHES {
        expect_batch(&rt, rt.alloc(), *row);
    }
}

/// Places in the batch of the arrivals, a byte put there, and the place that is named.
const FAULTS: [(usize, u8, u64); 33] = [
    // A batch read as a deletion, as a plan and as a mark, and a tag that none has.
    (0, 2, 13),
    (0, 3, 1),
    (0, 5, 1),
    (0, 6, 0),
    // No act, 1,026 acts, one fewer than there are, one more, and 770.
    (4, 0, 1),
    (3, 4, 1),
    (4, 1, 26),
    (4, 3, 46),
    (3, 3, 46),
    // An act of no byte, and one that is cut short in its document and in its time.
    (8, 0, 9),
    (8, 4, 10),
    (8, 12, 14),
    // A text a byte too short, and one a byte too long: the next act is longer than what is left.
    (8, 16, 29),
    (8, 18, 31),
    // A text that has the next act too, and an act of more bytes than there are.
    (8, 37, 46),
    (8, 38, 9),
    (5, 1, 9),
    // An act read as a deletion, a plan, a batch and a mark within a batch, and a tag that none has.
    (9, 2, 22),
    (9, 3, 9),
    (9, 4, 9),
    (9, 5, 9),
    (9, 0, 9),
    // A time above the last one, and a text that isn't UTF-8.
    (14, 255, 14),
    (16, 1, 14),
    (22, 255, 22),
    (25, 255, 22),
    // The same of the last act.
    (29, 0, 30),
    (29, 15, 45),
    (29, 17, 30),
    (30, 2, 43),
    (30, 4, 30),
    (37, 1, 35),
    (45, 255, 43),
];

/// The batch of the arrivals with another byte at a place names this one.
fn expect_fault(rt: &impl Abort, alloc: Global, (place, byte, at): (usize, u8, u64)) {
    let mut body = ARRIVALS;
    if let Some(old) = body.get_mut(place) {
        *old = byte;
    }
    expect_same_in(rt, (place, byte), named(alloc, &body), Some(at));
}

#[test]
fn the_first_wrong_field_of_a_batch_is_named(rt: HostRuntime) {
    for fault in &FAULTS {
        expect_fault(&rt, rt.alloc(), *fault);
    }
}

/// The place that so many bytes of the arrivals name.
fn cut_at(len: usize) -> u64 {
    match len {
        0 => 0,
        1..=4 => 1,
        5..=8 => 5,
        9..=25 => 9,
        26..=29 => 26,
        _ => 30,
    }
}

#[test]
fn a_batch_that_is_cut_short_names_a_length_or_an_act(rt: HostRuntime) {
    for len in 0..46 {
        let place = named(rt.alloc(), &ARRIVALS[..len]);
        expect_same_in(&rt, len, place, Some(cut_at(len)));
    }
}

/// The deletion with an act's length and bytes behind it, and the place that is named: bytes behind
/// the last act, one behind the act's time, and an act of more bytes than there are.
const BEHIND: [(u8, &[u8], u64); 4] = [
    (13, &[0], 22),
    (13, &[0, 0, 0, 13], 22),
    (14, &[0], 22),
    (15, &[0], 9),
];

/// The deletion with this length of its act and these bytes behind it names this place.
fn expect_behind(rt: &impl Abort, alloc: Global, (length, more, at): (u8, &[u8], u64)) {
    let mut body = Vec::from_slice(alloc, &DELETION).expect(rt, "memory");
    if let Some(old) = body.get_mut(8) {
        *old = length;
    }
    body.extend_from_slice(more).expect(rt, "memory");
    expect_same_in(rt, (length, more), named(alloc, &body), Some(at));
}

#[test]
fn the_first_byte_behind_an_act_is_named(rt: HostRuntime) {
    for row in &BEHIND {
        expect_behind(&rt, rt.alloc(), *row);
    }
}

/// A batch of so many deletions.
fn deletions(rt: &impl Abort, alloc: Global, count: u32) -> Vec<u8> {
    let mut body = begin_batch(alloc, count, 0).expect(rt, "memory");
    for _ in 0..count {
        body.extend_from_slice(&DELETION[5..]).expect(rt, "memory");
    }
    body
}

/// A batch of so many deletions names this place, or is one.
fn expect_many(rt: &impl Abort, alloc: Global, count: u32, at: Option<u64>) {
    let body = deletions(rt, alloc, count);
    let place = named(alloc, &body);
    expect_same_in(rt, count, place, at);
}

#[test]
fn a_batch_has_at_most_1000_acts(rt: HostRuntime) {
    expect_many(&rt, rt.alloc(), 1000, None);
    expect_many(&rt, rt.alloc(), 1001, Some(1));
    expect_many(&rt, rt.alloc(), 0, Some(1));
}
