//! Streams of packets in pieces of any size.
use super::given::{Answers, Plain, expect_answers, expect_same, filled, spelled, stream};
use journal_packets::PacketError;
use std::alloc::Global;
use std::process::Abort;

/// How many bytes a pull gives at most.
const PIECES: [usize; 5] = [1, 2, 3, 7, 4096];

/// A gap, a repeat, two packets of one number, one without bytes, and the highest number.
const ENTRIES: &[Plain] = &[
    (1, b"\x01\x00\x00\x00\x01"),
    (2, b"\x02"),
    (2, b"\x02"),
    (2, b"other"),
    (9, b""),
    (
        u64::MAX,
        b"\x00\x00\x00\x00\x00\x00\x00\x01\x00\x00\x00\x00",
    ),
    (1, b"\x01\x00\x00\x00\x01"),
];

/// An entry of one byte, and one without bytes.
const SHORTEST: &[Plain] = &[(1, b"v"), (0x0102_0304_0506_0708, b"")];

/// Their packets.
const SPELLED: &[u8] =
    b"\x00\x00\x00\x00\x00\x00\x00\x01\x00\x00\x00\x01v\x01\x02\x03\x04\x05\x06\x07\x08\x00\x00\x00\x00";

/// The packet of an entry of 66,051 bytes begins so.
const HEAD: &[u8] = b"\x00\x00\x00\x00\x00\x00\x00\x03\x00\x01\x02\x03";

#[test]
fn packets_as_bytes(rt: HostRuntime) {
    let alloc = rt.alloc();
    let bytes = stream(&rt, alloc, SHORTEST);
    expect_same(&rt, bytes.as_slice(), SPELLED);
    let long = filled(&rt, alloc, 7, 66_051);
    let packet = spelled(&rt, alloc, (3, &long));
    expect_same(&rt, packet.len(), 66_063);
    expect_same(&rt, packet.get(..12), Some(HEAD));
}

/// The stream, in pieces of so many bytes, gives these packets, and then none, for a reason or since it has
/// ended, and again.
fn expect_read<'x>(
    rt: &impl Abort,
    alloc: Global,
    bytes: &[u8],
    piece: usize,
    entries: &'x [Plain<'x>],
    end: Answers<'x>,
) {
    let wanted = [Answers::Packets(entries), end, end];
    expect_answers(rt, alloc, bytes, (piece, 0), &wanted);
}

/// The packet at a place is bad.
fn bad(at: u64) -> Answers<'static> {
    Answers::Refused(PacketError::Bad { at })
}

#[test]
fn a_stream_is_read_in_any_pieces(rt: HostRuntime) {
    let bytes = stream(&rt, rt.alloc(), ENTRIES);
    expect_same(&rt, bytes.len(), 113);
    for piece in &PIECES {
        expect_read(&rt, rt.alloc(), &bytes, *piece, ENTRIES, Answers::End);
    }
}

/// Bodies that are longer than a block of the reader.
#[test]
fn long_bodies_are_read_whole(rt: HostRuntime) {
    let alloc = rt.alloc();
    let long = filled(&rt, alloc, 165, 200_000);
    // with its head it is as long as a block
    let block = filled(&rt, alloc, 165, 65_524);
    let entries: [Plain; 3] = [(4, &long), (5, b"short"), (6, &block)];
    let bytes = stream(&rt, alloc, &entries);
    expect_same(&rt, bytes.len(), 265_565);
    for piece in [7, 4096, 65_536, 1 << 20] {
        expect_read(&rt, alloc, &bytes, piece, &entries, Answers::End);
    }
}

/// The packets of 5 bytes and of none.
const SHORT: &[Plain] = &[(1, b"abcde"), (2, b"")];

/// The packet at the first byte is bad, and that at the byte 17.
const BAD_AT_0: Answers<'static> = Answers::Refused(PacketError::Bad { at: 0 });

const BAD_AT_17: Answers<'static> = Answers::Refused(PacketError::Bad { at: 17 });

/// Behind which bytes their stream is cut, and what is answered: the packets that are whole then, and the end.
const CUTS: [(usize, usize, &[Plain], Answers); 5] = [
    (0, 1, &[], Answers::End),
    (1, 17, &[], BAD_AT_0),
    (17, 18, &[(1, b"abcde")], Answers::End),
    (18, 29, &[(1, b"abcde")], BAD_AT_17),
    (29, 30, SHORT, Answers::End),
];

/// The stream, cut behind any of these bytes, gives these packets, and then is bad at a place, or ends.
fn expect_cut<'x>(
    rt: &impl Abort,
    alloc: Global,
    bytes: &[u8],
    piece: usize,
    (from, to, whole, end): (usize, usize, &'x [Plain<'x>], Answers<'x>),
) {
    for cut in from..to {
        let front = bytes.get(..cut).expect(rt, "a front");
        expect_read(rt, alloc, front, piece, whole, end);
    }
}

/// The stream in pieces of so many bytes, cut behind each of them.
fn expect_cuts(rt: &impl Abort, alloc: Global, bytes: &[u8], piece: usize) {
    for cut in &CUTS {
        expect_cut(rt, alloc, bytes, piece, *cut);
    }
}

#[test]
fn a_packet_cut_short_is_bad_at_its_first_byte(rt: HostRuntime) {
    let bytes = stream(&rt, rt.alloc(), SHORT);
    expect_same(&rt, bytes.len(), 29);
    for piece in &PIECES {
        expect_cuts(&rt, rt.alloc(), &bytes, *piece);
    }
}

/// The stream, whole and without its last byte, in pieces of so many bytes: the last of its packets begins
/// at 102.
fn expect_last_cut(rt: &impl Abort, alloc: Global, bytes: &[u8], piece: usize, entries: &[Plain]) {
    expect_read(rt, alloc, bytes, piece, entries, Answers::End);
    let (_, front) = bytes.split_last().expect(rt, "a last byte");
    let (_, whole) = entries.split_last().expect(rt, "a last entry");
    expect_read(rt, alloc, front, piece, whole, bad(102));
}

/// The lengths of the five packets of an archive with four changes and a plan.
#[test]
fn an_export_without_its_last_byte(rt: HostRuntime) {
    let alloc = rt.alloc();
    let plan = filled(&rt, alloc, 3, 181);
    let arrival = filled(&rt, alloc, 3, 14);
    let deletion = filled(&rt, alloc, 3, 13);
    let entries: [Plain; 5] = [
        (1, &arrival),
        (2, &arrival),
        (3, &deletion),
        (4, &deletion),
        (5, &plan),
    ];
    let bytes = stream(&rt, alloc, &entries);
    expect_same(&rt, bytes.len(), 295);
    for piece in &PIECES {
        expect_last_cut(&rt, alloc, &bytes, *piece, &entries);
    }
}

/// What is no packet, behind a packet of 15 bytes.
const NO_PACKETS: [&[u8]; 5] = [
    // the number 0, as soon as it is there
    b"\x00\x00\x00\x00\x00\x00\x00\x00",
    b"\x00\x00\x00\x00\x00\x00\x00\x00\x00\x00\x00\x01v",
    // a length of 67,108,865 bytes
    b"\x00\x00\x00\x00\x00\x00\x00\x02\x04\x00\x00\x01abc",
    b"\x00\x00\x00\x00\x00\x00\x00\x02\xff\xff\xff\xff",
    // one of 67,108,864, of which bytes are missing
    b"\x00\x00\x00\x00\x00\x00\x00\x02\x04\x00\x00\x00abc",
];

/// A packet of 15 bytes.
const FRONT: &[Plain] = &[(1, b"abc")];

/// A packet of 15 bytes is read, and what is behind it is answered so.
fn expect_behind(rt: &impl Abort, alloc: Global, behind: &[u8], end: Answers) {
    let mut bytes = stream(rt, alloc, FRONT);
    bytes.extend_from_slice(behind).expect(rt, "memory");
    for piece in &PIECES {
        expect_read(rt, alloc, &bytes, *piece, FRONT, end);
    }
}

#[test]
fn what_is_no_packet(rt: HostRuntime) {
    for behind in &NO_PACKETS {
        expect_behind(&rt, rt.alloc(), behind, bad(15));
    }
    expect_behind(&rt, rt.alloc(), b"", Answers::End);
}

const FAILED: Answers<'static> = Answers::Refused(PacketError::Failed);

const ALL: Answers<'static> = Answers::Packets(ENTRIES);

/// What the reader holds is answered before a pull: all packets came with the first one, and the second
/// fails.
#[test]
fn nothing_is_pulled_while_a_packet_stands(rt: HostRuntime) {
    let bytes = stream(&rt, rt.alloc(), ENTRIES);
    let wanted = [ALL, FAILED, Answers::End, Answers::End];
    expect_answers(&rt, rt.alloc(), &bytes, (4096, 2), &wanted);
}

/// The third pull of 7 bytes fails, within the first packet of 17.
#[test]
fn a_pull_that_fails_loses_nothing(rt: HostRuntime) {
    let bytes = stream(&rt, rt.alloc(), ENTRIES);
    let wanted = [FAILED, ALL, Answers::End, Answers::End];
    expect_answers(&rt, rt.alloc(), &bytes, (7, 3), &wanted);
}
