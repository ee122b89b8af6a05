//! Packets and streams for the tests.
use journal_packets::{MOST_BODY_BYTES, Packet, PacketError, Packets, spell};
use machine_mem::{CallKind, Fault, MemMachine};
use machine_model::Image;
use std::alloc::Global;
use std::fmt::Debug;
use std::process::Abort;

/// The number of an entry, and its bytes.
pub(crate) type Plain<'a> = (u64, &'a [u8]);

/// What a reader answers, call after call.
#[derive(Clone, Copy)]
pub(crate) enum Answers<'a> {
    /// These packets, the first of them from the first byte of the input on.
    Packets(&'a [Plain<'a>]),
    /// No packet, since the input has ended.
    End,
    /// No packet, for this reason.
    Refused(PacketError),
}

/// What is found is what is wanted.
pub(crate) fn expect_same<T: PartialEq + Debug + Drop>(rt: &impl Abort, found: T, wanted: T) {
    assert_eq!(rt; found, wanted);
}

/// The same in a row, which is told where it isn't so.
pub(crate) fn expect_same_in<R: Debug + Drop, T: PartialEq + Debug + Drop>(
    rt: &impl Abort,
    row: R,
    found: T,
    wanted: T,
) {
    assert_eq!(rt; found, wanted, "in {row:?}");
}

/// So many bytes of this value.
pub(crate) fn filled(rt: &impl Abort, alloc: Global, byte: u8, count: usize) -> Vec<u8> {
    vec![in alloc; byte; count].expect(rt, "memory")
}

/// The bytes of the packet of an entry.
pub(crate) fn spelled(rt: &impl Abort, alloc: Global, (number, body): Plain) -> Vec<u8> {
    assert!(rt; number != 0 && body.len() <= MOST_BODY_BYTES);
    spell(alloc, number, body).expect(rt, "memory")
}

/// The bytes of packets of entries, one after another.
pub(crate) fn stream(rt: &impl Abort, alloc: Global, entries: &[Plain]) -> Vec<u8> {
    let mut bytes = Vec::new(alloc);
    for entry in entries {
        let packet = spelled(rt, alloc, *entry);
        bytes.extend_from_slice(&packet).expect(rt, "memory");
    }
    bytes
}

/// A source of these bytes in pieces of at most so many, of which the pull of this number fails; 0
/// names none.
fn source(rt: &impl Abort, alloc: Global, bytes: &[u8], piece: usize, failing: u64) -> MemMachine {
    assert!(rt; piece != 0);
    let image = Image {
        journal: Vec::new(alloc),
        pages: Vec::new(alloc),
    };
    let fault = Fault {
        call: CallKind::Pull,
        nth: failing,
        landed: 0,
    };
    let faults = Vec::from_slice(alloc, &[fault]).expect(rt, "memory");
    let input = Vec::from_slice(alloc, bytes).expect(rt, "memory");
    MemMachine::new(alloc, input, image, faults)
        .expect(rt, "memory")
        .with_pulls_of(piece)
}

/// The reader gives this packet next, from this place of the input on; answers where it ends.
fn expect_packet(
    rt: &impl Abort,
    alloc: Global,
    reader: &mut Packets,
    source: &mut MemMachine,
    place: u64,
    (number, body): Plain,
) -> u64 {
    let answer = reader.next_packet(alloc, source).ok();
    let packet = answer.expect(rt, "an answer").expect(rt, "a packet");
    let found = (packet.at, packet.number, packet.body.as_slice());
    expect_same(rt, found, (place, number, body));
    place.saturating_add(12).saturating_add(body.len() as u64)
}

/// The reader gives these packets next, the first of them from the first byte of the input on.
fn expect_packets(
    rt: &impl Abort,
    alloc: Global,
    reader: &mut Packets,
    source: &mut MemMachine,
    entries: &[Plain],
) {
    let mut place = 0;
    for entry in entries {
        place = expect_packet(rt, alloc, reader, source, place, *entry);
    }
}

/// Whether an answer is a packet.
fn is_packet(answer: &Result<Option<Packet>, PacketError>) -> bool {
    matches!(answer, Ok(Some(_)))
}

/// The reader gives no packet next, for this reason, or since the input has ended.
fn expect_none(
    rt: &impl Abort,
    alloc: Global,
    reader: &mut Packets,
    source: &mut MemMachine,
    wanted: Option<PacketError>,
) {
    let answer = reader.next_packet(alloc, source);
    expect_same(rt, is_packet(&answer), false);
    expect_same(rt, answer.err(), wanted);
}

/// The reader answers so next.
fn expect_next(
    rt: &impl Abort,
    alloc: Global,
    reader: &mut Packets,
    source: &mut MemMachine,
    answers: Answers,
) {
    match answers {
        Answers::Packets(entries) => expect_packets(rt, alloc, reader, source, entries),
        Answers::End => expect_none(rt, alloc, reader, source, None),
        Answers::Refused(why) => expect_none(rt, alloc, reader, source, Some(why)),
    }
}

/// A new reader answers so, call after call, of a stream in pieces of so many bytes, of which the pull of
/// this number fails; 0 names none.
pub(crate) fn expect_answers(
    rt: &impl Abort,
    alloc: Global,
    bytes: &[u8],
    (piece, failing): (usize, u64),
    wanted: &[Answers],
) {
    let mut source = source(rt, alloc, bytes, piece, failing);
    let mut reader = Packets::new(alloc).expect(rt, "memory");
    for answers in wanted {
        expect_next(rt, alloc, &mut reader, &mut source, *answers);
    }
}
