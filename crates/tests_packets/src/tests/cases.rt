//! What a packet is to an archive.
use super::given::expect_same_in;
use journal_packets::{Case, Packet, sort_out};
use std::alloc::Global;
use std::process::Abort;

/// A packet of this number and these bytes.
fn packet(rt: &impl Abort, alloc: Global, number: u64, body: &[u8]) -> Packet {
    Packet {
        at: 0,
        number,
        body: Vec::from_slice(alloc, body).expect(rt, "memory"),
    }
}

/// Where bytes differ first, with the byte kept and the one got there.
type Difference = (u64, Option<u8>, Option<u8>);

/// Document 7 arrives.
const SEVENTH: &[u8] = b"\x01\x00\x00\x00\x07\x00\x00\x00\x00\x00\x00\x00\x0ared a";

/// Document 1 does.
const FIRST: &[u8] = b"\x01\x00\x00\x00\x01\x00\x00\x00\x00\x00\x00\x00\x0av";

/// The bytes that are kept of an entry, those of a packet, and where they differ.
const KEPT: [(&[u8], &[u8], Option<Difference>); 10] = [
    (SEVENTH, FIRST, Some((4, Some(7), Some(1)))),
    (FIRST, SEVENTH, Some((4, Some(1), Some(7)))),
    (SEVENTH, SEVENTH, None),
    (b"", b"", None),
    // one is longer
    (b"abc", b"ab", Some((2, Some(b'c'), None))),
    (b"ab", b"abc", Some((2, None, Some(b'c')))),
    (b"", b"\x00", Some((0, None, Some(0)))),
    // the last byte alone, and the first
    (b"abc", b"abd", Some((2, Some(b'c'), Some(b'd')))),
    (b"abc", b"bbc", Some((0, Some(b'a'), Some(b'b')))),
    // a shorter one that differs before its end
    (b"abc", b"b", Some((0, Some(b'a'), Some(b'b')))),
];

/// The packet of entry 1 with these bytes is this, where there are so many entries.
fn expect_case(rt: &impl Abort, have: u64, kept: &[u8], packet: &Packet, wanted: Case) {
    assert!(rt; packet.number <= have);
    let case = sort_out(have, Some(kept), packet);
    expect_same_in(rt, (have, kept), case, wanted);
}

/// The packet of entry 1 with these bytes is this, however many entries there are.
fn expect_kept(
    rt: &impl Abort,
    alloc: Global,
    (kept, got, difference): (&[u8], &[u8], Option<Difference>),
) {
    let packet = packet(rt, alloc, 1, got);
    let wanted = match difference {
        Some((place, kept, got)) => Case::Conflict { place, kept, got },
        None => Case::Had,
    };
    expect_case(rt, 1, kept, &packet, wanted);
    expect_case(rt, 2, kept, &packet, wanted);
    expect_case(rt, u64::MAX, kept, &packet, wanted);
}

#[test]
fn packets_of_entries_that_are_kept(rt: HostRuntime) {
    for row in &KEPT {
        expect_kept(&rt, rt.alloc(), *row);
    }
}

/// How many entries there are, the number of a packet, and what it is.
const TO_COME: [(u64, u64, Case); 8] = [
    (0, 1, Case::Next),
    (0, 2, Case::Gap),
    (0, 3, Case::Gap),
    (5, 6, Case::Next),
    (5, 7, Case::Gap),
    (5, u64::MAX, Case::Gap),
    (u64::MAX - 1, u64::MAX, Case::Next),
    (u64::MAX - 2, u64::MAX, Case::Gap),
];

/// The packet of an entry that isn't kept is this.
fn expect_to_come(rt: &impl Abort, alloc: Global, (have, number, wanted): (u64, u64, Case)) {
    let packet = packet(rt, alloc, number, b"");
    assert!(rt; have < packet.number);
    let case = sort_out(have, None, &packet);
    expect_same_in(rt, (have, number), case, wanted);
}

#[test]
fn packets_of_entries_to_come(rt: HostRuntime) {
    for row in &TO_COME {
        expect_to_come(&rt, rt.alloc(), *row);
    }
}
