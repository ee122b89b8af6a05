//! The machine in memory.
use super::given::{expect_same, expect_same_in};
use machine_mem::{CallKind, Fault, Fill, MemMachine, Pick, SliceSource, Tail};
use machine_model::{Area, Disk, Image, Sink, Source};
use std::alloc::Global;
use std::process::Abort;

/// A machine whose journal has 7 bytes.
fn make_machine(rt: &impl Abort, alloc: Global, faults: &[Fault]) -> MemMachine {
    let image = Image {
        journal: Vec::from_slice(alloc, b"journal").expect(rt, "memory"),
        pages: Vec::from_slice(alloc, b"pages").expect(rt, "memory"),
    };
    let input = Vec::from_slice(alloc, b"input").expect(rt, "memory");
    let faults = Vec::from_slice(alloc, faults).expect(rt, "memory");
    MemMachine::new(alloc, input, image, faults).expect(rt, "memory")
}

/// The journal that a stop may leave at the last moment but so many.
fn journal_at(
    rt: &impl Abort,
    alloc: Global,
    machine: &MemMachine,
    back: usize,
    tail: Tail,
) -> Vec<u8> {
    let moment = machine.moments().saturating_sub(1).saturating_sub(back);
    let pick = Pick {
        journal: tail,
        pages: tail,
    };
    let picked = machine.image_at(alloc, moment, pick);
    picked.expect(rt, "memory").image.journal
}

/// A stop at the last moment but so many may leave this journal.
fn expect_left(
    rt: &impl Abort,
    alloc: Global,
    machine: &MemMachine,
    back: usize,
    (extra, fill): (u64, Fill),
    want: &[u8],
) {
    let journal = journal_at(rt, alloc, machine, back, Tail { extra, fill });
    expect_same_in(rt, back, journal.as_slice(), want);
}

/// What reads give of the journal.
fn read_journal(rt: &impl Abort, alloc: Global, machine: &mut MemMachine) -> Vec<u8> {
    let len = machine.length(Area::Journal).expect(rt, "a length");
    let mut bytes = vec![in alloc; 0; len as usize].expect(rt, "memory");
    machine
        .read(Area::Journal, 0, &mut bytes)
        .expect(rt, "a read");
    bytes
}

/// Reads give these bytes of the journal.
fn expect_read(rt: &impl Abort, alloc: Global, machine: &mut MemMachine, want: &[u8]) {
    let journal = read_journal(rt, alloc, machine);
    expect_same(rt, journal.as_slice(), want);
}

/// Writes into the journal.
fn write(rt: &impl Abort, machine: &mut MemMachine, at: u64, bytes: &[u8]) {
    assert!(rt; at < 100 && bytes.len() < 100);
    machine
        .write(Area::Journal, at, bytes)
        .expect(rt, "a write");
}

/// Shows these bytes, or so many of them.
fn expect_push(rt: &impl Abort, machine: &mut MemMachine, bytes: &[u8], count: usize) {
    let pushed = machine.push(bytes).expect(rt, "a push");
    expect_same(rt, pushed, count);
}

/// Pulls so many bytes into a buffer.
fn expect_pull<S: Source>(rt: &impl Abort, source: &mut S, buf: &mut [u8], count: usize) {
    let pulled = source.pull(buf).expect(rt, "a pull");
    expect_same(rt, pulled, count);
}

/// The machine has so many moments, and had its memory.
fn expect_moments(rt: &impl Abort, machine: &MemMachine, moments: usize) {
    expect_same(rt, machine.moments(), moments);
    expect_same(rt, machine.starved(), 0);
}

#[test]
fn a_torn_write_is_seen_three_ways(rt: HostRuntime) {
    let alloc = rt.alloc();
    let mut machine = make_machine(&rt, alloc, &[]);
    write(&rt, &mut machine, 5, b"XYZW");
    expect_push(&rt, &mut machine, b"shown", 5);
    expect_read(&rt, alloc, &mut machine, b"journXYZW");
    let (whole, marked) = (Fill::Written, Fill::Byte(b'?'));
    expect_left(&rt, alloc, &machine, 0, (0, whole), b"journXY");
    expect_left(&rt, alloc, &machine, 0, (1, whole), b"journXYZ");
    expect_left(&rt, alloc, &machine, 1, (9, marked), b"journ????");
    expect_left(&rt, alloc, &machine, 2, (9, marked), b"journal");
    machine.sync().expect(&rt, "a sync");
    expect_left(&rt, alloc, &machine, 0, (9, marked), b"journXYZW");
    expect_moments(&rt, &machine, 4);
    expect_same(&rt, machine.shown(), b"shown".as_slice());
    expect_same(&rt, machine.read_of(Area::Journal), 9);
}

/// A fault of the first call of a kind, of which two bytes come through.
fn once(call: CallKind) -> Fault {
    Fault {
        call,
        nth: 1,
        landed: 2,
    }
}

/// The first call of each kind fails.
fn expect_faults(rt: &impl Abort, machine: &mut MemMachine) {
    assert!(rt; machine.length(Area::Journal).is_err());
    assert!(rt; machine.read(Area::Journal, 0, &mut []).is_err());
    assert!(rt; machine.write(Area::Journal, 7, b"ABCD").is_err());
    assert!(rt; machine.sync().is_err());
    let mut buf = [0u8; 8];
    assert!(rt; machine.pull(&mut buf).is_err());
    assert!(rt; machine.push(b"ok").is_err());
}

#[test]
fn each_kind_of_call_fails_once(rt: HostRuntime) {
    let alloc = rt.alloc();
    let faults = [
        once(CallKind::Length),
        once(CallKind::Read),
        once(CallKind::Write),
        once(CallKind::Sync),
        once(CallKind::Pull),
        once(CallKind::Push),
    ];
    let mut machine = make_machine(&rt, alloc, &faults);
    expect_faults(&rt, &mut machine);
    // two bytes of the write came through, and a stop may leave all of it
    expect_read(&rt, alloc, &mut machine, b"journalAB");
    expect_left(&rt, alloc, &machine, 0, (9, Fill::Written), b"journalABCD");
    let mut buf = [0u8; 8];
    expect_pull(&rt, &mut machine, &mut buf, 5);
    expect_push(&rt, &mut machine, b"ok", 2);
    write(&rt, &mut machine, 0, b"J");
    // all but the sync are well again
    assert!(rt; machine.sync().is_err());
    expect_moments(&rt, &machine, 7);
}

/// How many moments before the last, how many bytes more than the least, and the journal that a stop may leave
/// then.
const LEFT: [(usize, u64, &[u8]); 7] = [
    (0, 0, b"journal"),
    (0, 9, b"journal???"),
    (1, 9, b"journal???"),
    (2, 9, b"journal??"),
    (3, 9, b"journal??"),
    (4, 9, b"journal??"),
    (5, 9, b"journal"),
];

// Each sync is a moment, and what was written since the last good one stays open at it.
#[test]
fn a_sync_behind_a_failed_one_fails(rt: HostRuntime) {
    let alloc = rt.alloc();
    let fault = Fault {
        call: CallKind::Sync,
        nth: 2,
        landed: 0,
    };
    let mut machine = make_machine(&rt, alloc, &[fault]);
    machine.sync().expect(&rt, "a sync");
    write(&rt, &mut machine, 7, b"AB");
    assert!(rt; machine.sync().is_err());
    expect_push(&rt, &mut machine, b"shown", 5);
    write(&rt, &mut machine, 9, b"C");
    assert!(rt; machine.sync().is_err());
    expect_same(&rt, machine.moments(), 7);
    expect_read(&rt, alloc, &mut machine, b"journalABC");
    for (back, extra, want) in &LEFT {
        let tail = (*extra, Fill::Byte(b'?'));
        expect_left(&rt, alloc, &machine, *back, tail, want);
    }
}

#[test]
fn a_pull_gives_at_most_its_limit(rt: HostRuntime) {
    let mut machine = make_machine(&rt, rt.alloc(), &[]).with_pulls_of(2);
    let mut buf = [0u8; 4];
    let mut short = [0u8; 1];
    expect_pull(&rt, &mut machine, &mut buf, 2);
    expect_pull(&rt, &mut machine, &mut short, 1);
    expect_same(&rt, short.as_slice(), b"p".as_slice());
    expect_pull(&rt, &mut machine, &mut buf, 2);
    expect_same(&rt, buf.as_slice(), b"ut\x00\x00".as_slice());
    expect_pull(&rt, &mut machine, &mut buf, 0);
}

#[test]
fn a_slice_gives_its_bytes_in_pieces(rt: HostRuntime) {
    let mut source = SliceSource::new(b"abc");
    let mut buf = [0u8; 2];
    expect_pull(&rt, &mut source, &mut buf, 2);
    expect_same(&rt, buf.as_slice(), b"ab".as_slice());
    expect_pull(&rt, &mut source, &mut buf, 1);
    expect_pull(&rt, &mut source, &mut buf, 0);
}
