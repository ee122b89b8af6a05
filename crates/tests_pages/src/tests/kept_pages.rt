//! What is read through the cache, and which pages it keeps.
ghost use Rattle.std.specs.Prelude.{length};

use crate::tests::given::{expect_same, expect_same_in};
use base_types::Extent;
use machine_mem::{CallKind, Fault, MemMachine};
use machine_model::{Area, Disk, Image};
use pages_area::{PageCache, PageError};
use std::alloc::Global;
use std::process::Abort;

/// A machine without input, with these bytes in Pages.
fn machine_with(rt: &impl Abort, alloc: Global, pages: Vec<u8>, faults: &[Fault]) -> MemMachine {
    assert!(rt; pages.len() <= 1 << 40);
    let image = Image {
        journal: Vec::new(alloc),
        pages,
    };
    let faults = Vec::from_slice(alloc, faults).expect(rt, "memory");
    MemMachine::new(alloc, Vec::new(alloc), image, faults).expect(rt, "memory")
}

/// Where runs of one byte end in Pages, and the byte: 18 of 7, 22 of 8 and 18 of 9 begin the pages 0, 1 and 2.
const RUNS: [(usize, u8); 5] = [(18, 7), (4096, 0), (4118, 8), (8192, 0), (8210, 9)];

/// Pages that hold these.
fn three_places(rt: &impl Abort, alloc: Global) -> Vec<u8> {
    let mut pages = Vec::new(alloc);
    for (end, byte) in &RUNS {
        pages.resize(*end, *byte).expect(rt, "memory");
    }
    pages
}

/// A machine that holds these, on which calls fail.
fn machine_failing(rt: &impl Abort, alloc: Global, faults: &[Fault]) -> MemMachine {
    machine_with(rt, alloc, three_places(rt, alloc), faults)
}

/// What asking for so many bytes from a page on gives.
fn ask(
    rt: &impl Abort,
    alloc: Global,
    cache: &mut PageCache,
    machine: &mut MemMachine,
    first: u32,
    bytes: u64,
) -> Result<Vec<u8>, PageError> {
    let extent = Extent::new(first, bytes).expect(rt, "an extent");
    let reach = machine.length(Area::Pages).expect(rt, "a length");
    assert!(rt; u64::from(first) * 4096 + bytes <= reach);
    let mut buf = vec![in alloc; 0; bytes as usize].expect(rt, "memory");
    match cache.read(machine, extent, &mut buf) {
        Ok(()) => Ok(buf),
        Err(error) => Err(error),
    }
}

/// Asks for so many bytes from a page on, and of Pages so many were read by then.
fn expect_read(
    rt: &impl Abort,
    alloc: Global,
    cache: &mut PageCache,
    machine: &mut MemMachine,
    (first, bytes, read): (u32, u64, u64),
) -> Vec<u8> {
    let given = ask(rt, alloc, cache, machine, first, bytes).expect(rt, "it is read");
    expect_same_in(rt, (first, bytes), machine.read_of(Area::Pages), read);
    given
}

/// The same for one after another.
fn expect_reads(
    rt: &impl Abort,
    alloc: Global,
    cache: &mut PageCache,
    machine: &mut MemMachine,
    asked: &[(u32, u64, u64)],
) {
    for row in asked {
        let _ = expect_read(rt, alloc, cache, machine, *row);
    }
}

/// First pages and bytes that are asked for in turn, with the bytes that were read of Pages by then.
const ASKED: [(u32, u64, u64); 9] = [
    (0, 18, 18),
    (0, 18, 18),
    (1, 22, 40),
    (2, 18, 58),
    // A piece of another length is read, and takes the place of the old one.
    (1, 18, 76),
    (1, 22, 98),
    // Two pages, of which neither is kept with that length; then both are.
    (0, 4097, 4195),
    (0, 4097, 4195),
    // Nothing is asked for.
    (2, 0, 4195),
];

/// Asks for so many bytes from a page on, which are those that Pages hold.
fn expect_asked(
    rt: &impl Abort,
    alloc: Global,
    cache: &mut PageCache,
    machine: &mut MemMachine,
    asked: (u32, u64, u64),
    held: &[u8],
) {
    let (first, bytes, _) = asked;
    let given = expect_read(rt, alloc, cache, machine, asked);
    let start = first as usize * 4096;
    let wanted = held.get(start..start.saturating_add(bytes as usize));
    expect_same_in(rt, (first, bytes), Some(given.as_slice()), wanted);
}

#[test]
fn what_is_asked_for_again_is_read_once(rt: HostRuntime) {
    let alloc = rt.alloc();
    let held = three_places(&rt, alloc);
    let mut machine = machine_failing(&rt, alloc, &[]);
    let mut cache = PageCache::new(alloc).expect(&rt, "memory");
    for asked in &ASKED {
        expect_asked(&rt, alloc, &mut cache, &mut machine, *asked, &held);
    }
    expect_same(&rt, machine.read_of(Area::Journal), 0);
}

#[test]
fn pages_that_are_given_back_are_read_again(rt: HostRuntime) {
    let alloc = rt.alloc();
    let mut machine = machine_failing(&rt, alloc, &[]);
    let mut cache = PageCache::new(alloc).expect(&rt, "memory");
    let early = [(0, 18, 18), (1, 18, 36), (2, 18, 54)];
    expect_reads(&rt, alloc, &mut cache, &mut machine, &early);
    cache.give_back(Extent::new(1, 22).expect(&rt, "an extent"));
    expect_same(&rt, cache.len(), 2);
    let late = [(2, 18, 54), (1, 18, 72), (0, 18, 72)];
    expect_reads(&rt, alloc, &mut cache, &mut machine, &late);
}

#[test]
fn a_page_that_was_not_read_is_not_kept(rt: HostRuntime) {
    let alloc = rt.alloc();
    let fault = Fault {
        call: CallKind::Read,
        nth: 2,
        landed: 0,
    };
    let mut machine = machine_failing(&rt, alloc, &[fault]);
    let mut cache = PageCache::new(alloc).expect(&rt, "memory");
    let failed = ask(&rt, alloc, &mut cache, &mut machine, 0, 8210);
    expect_same(&rt, failed, Err(PageError::Failed));
    expect_same(&rt, cache.len(), 1);
    let again = expect_read(&rt, alloc, &mut cache, &mut machine, (0, 8210, 8210));
    let wanted = three_places(&rt, alloc);
    expect_same(&rt, again.as_slice(), wanted.as_slice());
}

#[test]
fn the_page_that_was_used_longest_ago_leaves(rt: HostRuntime) {
    let alloc = rt.alloc();
    let pages = vec![in alloc; 5; 1025 * 4096].expect(&rt, "memory");
    let mut machine = machine_with(&rt, alloc, pages, &[]);
    let mut cache = PageCache::new(alloc).expect(&rt, "memory");
    for first in 0..1024 {
        let read = u64::from(first).saturating_add(1);
        let _ = expect_read(&rt, alloc, &mut cache, &mut machine, (first, 1, read));
    }
    // Page 0 is used once more, so page 1 leaves for page 1,024.
    let asked = [
        (0, 1, 1024),
        (1024, 1, 1025),
        (0, 1, 1025),
        (2, 1, 1025),
        (1, 1, 1026),
    ];
    expect_reads(&rt, alloc, &mut cache, &mut machine, &asked);
    expect_same(&rt, cache.len(), 1024);
}
