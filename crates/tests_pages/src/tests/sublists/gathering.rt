//! Sublists that are gathered, or refused.
use super::given::{
    BOTH, FIRST, cuts, docs_of, gather_between, machine_with, no_sublists, pages_of, places_of,
    posting, refusal, store_between, time,
};
use crate::tests::given::{expect_same, expect_same_in};
use base_types::Time;
use journal_entries::{Layout, Place};
use machine_mem::MemMachine;
use machine_model::Area;
use pages_sublists::{Damage, FetchError, Sublists, Why};
use std::alloc::Global;
use std::process::Abort;

/// Windows: their ends, the documents that are found, the postings that are read, and the bytes in
/// blocks and flat.
const WINDOWS: [((u64, u64), &[u32], u64, u64, u64); 7] = [
    ((15, 35), &[1, 2], 4, 58, 96),
    ((10, 20), &[1], 1, 18, 24),
    ((20, 21), &[1, 2], 2, 22, 48),
    ((19, 21), &[1, 2], 3, 40, 72),
    ((25, 31), &[1, 2], 3, 40, 72),
    ((0, 10), &[], 0, 0, 0),
    ((40, 50), &[], 0, 0, 0),
];

/// The sublists of the two documents in places between cuts and 40.
#[derive(Drop)]
struct Stored<'c> {
    machine: MemMachine,
    layout: Layout,
    cuts: &'c [Time],
    places: Vec<Place>,
}

/// Stores them on a new machine.
fn make_stored<'c>(rt: &impl Abort, alloc: Global, layout: Layout, cuts: &'c [Time]) -> Stored<'c> {
    let mut machine = machine_with(rt, alloc, &[], &[]);
    let places = store_between(rt, alloc, &mut machine, layout, cuts).expect(rt, "written");
    Stored {
        machine,
        layout,
        cuts,
        places,
    }
}

/// What is gathered of them for a window has these documents, and so many postings are read.
fn expect_found(
    rt: &impl Abort,
    alloc: Global,
    sublists: &mut Sublists,
    stored: &mut Stored,
    (window, docs, read): ((u64, u64), &[u32], u64),
) {
    let Stored {
        machine,
        layout,
        cuts,
        places,
    } = stored;
    let gathered = gather_between(
        rt, alloc, sublists, machine, *layout, cuts, places, window,
    ).expect(rt, "they are read");
    expect_same_in(
        rt,
        window,
        docs_of(rt, alloc, &gathered.list).as_slice(),
        docs,
    );
    expect_same_in(rt, window, gathered.read, read);
}

/// What is gathered for a window, with none of the pages kept, has these documents and postings, and takes
/// so many bytes of Pages.
fn expect_window(
    rt: &impl Abort,
    alloc: Global,
    stored: &mut Stored,
    (window, docs, read, in_blocks, flat): ((u64, u64), &[u32], u64, u64, u64),
) {
    let before = stored.machine.read_of(Area::Pages);
    let mut sublists = no_sublists(rt, alloc);
    expect_found(rt, alloc, &mut sublists, stored, (window, docs, read));
    let bytes = match stored.layout {
        Layout::Blocks => in_blocks,
        Layout::Flat => flat,
    };
    let after = stored.machine.read_of(Area::Pages);
    expect_same_in(rt, window, after.saturating_sub(before), bytes);
}

/// Stores the sublists in a layout, and asks for each window.
fn expect_windows(rt: &impl Abort, alloc: Global, layout: Layout) {
    let cuts = cuts(rt);
    let mut stored = make_stored(rt, alloc, layout, &cuts);
    expect_same(rt, stored.machine.read_of(Area::Pages), 0);
    for window in &WINDOWS {
        expect_window(rt, alloc, &mut stored, *window);
    }
}

#[test]
fn a_window_reads_the_segments_that_it_overlaps(rt: HostRuntime) {
    expect_windows(&rt, rt.alloc(), Layout::Blocks);
    expect_windows(&rt, rt.alloc(), Layout::Flat);
}

/// Windows over 1, 2, 3 and 7 of seven segments: their ends, the documents that are found, and the
/// postings that are read.
const JOINED: [((u64, u64), &[u32], u64); 4] = [
    ((11, 12), &[1], 1),
    ((11, 16), &[1], 2),
    ((11, 21), &[1, 2], 4),
    ((11, 39), &[1, 2], 9),
];

/// The cuts at so many seconds.
fn cuts_at(rt: &impl Abort, alloc: Global, seconds: &[u64]) -> Vec<Time> {
    let mut cuts = Vec::new(alloc);
    for at in seconds {
        cuts.push(time(rt, *at)).expect(rt, "memory");
    }
    cuts
}

/// What is gathered for each of these windows is found, while pages are kept.
fn expect_joined(rt: &impl Abort, alloc: Global, stored: &mut Stored<'_>) {
    let mut sublists = no_sublists(rt, alloc);
    for row in &JOINED {
        expect_found(rt, alloc, &mut sublists, stored, *row);
    }
}

#[test]
fn the_lists_of_any_number_of_segments_are_joined(rt: HostRuntime) {
    let cuts = cuts_at(&rt, rt.alloc(), &[10, 15, 20, 25, 30, 35, 38]);
    let mut stored = make_stored(&rt, rt.alloc(), Layout::Flat, &cuts);
    expect_joined(&rt, rt.alloc(), &mut stored);
}

/// Why the bytes of three places are refused for a window.
fn refused(
    rt: &impl Abort,
    alloc: Global,
    pieces: &[&str],
    window: (u64, u64),
) -> Option<FetchError> {
    let mut machine = machine_with(rt, alloc, &pages_of(rt, alloc, pieces), &[]);
    refusal(
        rt,
        alloc,
        &mut machine,
        &places_of(rt, alloc, pieces),
        window,
    )
}

/// The bytes of three places are refused for a window: a page is told, and why.
fn expect_refused(
    rt: &impl Abort,
    alloc: Global,
    pieces: &[&str],
    window: (u64, u64),
    (page, why): (u32, Why),
) {
    let refused = refused(rt, alloc, pieces, window);
    expect_same(rt, refused, Some(FetchError::Damaged(Damage { page, why })));
}

/// The block of document 2 from 20 to 30.
const SECOND: &str = "01000300000001000000020000000201140a";

/// Document 1 from 10 to 50, from 10 to 30 and from 11 to 40, and with a frequency of 0.
const LONGER: &str = "010003000000010000000100000001010a28";

const SHORTER: &str = "010003000000010000000100000001010a14";

const LATER: &str = "010003000000010000000100000001010b1d";

const NO_FREQUENCY: &str = "010003000000010000000100000001000a1e";

/// A posting of a document from one time to another doesn't belong to its segment.
fn expect_astray(
    rt: &impl Abort,
    alloc: Global,
    pieces: &[&str],
    window: (u64, u64),
    (page, doc, from, to): (u32, u32, u64, u64),
) {
    let posting = posting(rt, doc, from, to);
    expect_refused(rt, alloc, pieces, window, (page, Why::Astray { posting }));
}

#[test]
fn a_posting_that_is_astray_is_told(rt: HostRuntime) {
    let alloc = rt.alloc();
    // one that begins behind its segment, and one that ends behind the horizon
    let early = [SECOND, BOTH, FIRST];
    expect_astray(&rt, alloc, &early, (10, 11), (0, 2, 20, 30));
    let late = [FIRST, BOTH, LONGER];
    expect_astray(&rt, alloc, &late, (35, 36), (2, 1, 10, 50));
}

#[test]
fn bytes_that_spell_no_list_are_told(rt: HostRuntime) {
    let alloc = rt.alloc();
    // a frequency of 0 in the second segment
    let form = Why::Form;
    let second = [FIRST, NO_FREQUENCY, FIRST];
    expect_refused(&rt, alloc, &second, (20, 21), (1, form));
    // a clash behind such
    let first = [NO_FREQUENCY, SHORTER, LATER];
    expect_refused(&rt, alloc, &first, (15, 35), (0, form));
}

#[test]
fn a_first_segment_without_a_posting_is_told(rt: HostRuntime) {
    let alloc = rt.alloc();
    let bare = ["", BOTH, FIRST];
    expect_refused(&rt, alloc, &bare, (10, 11), (0, Why::Bare));
    // A later segment may have none.
    expect_same(
        &rt,
        refused(&rt, alloc, &[FIRST, "", FIRST], (15, 25)),
        None,
    );
}

/// The first document from 10 to 40 clashes with another posting of it.
fn expect_clash(
    rt: &impl Abort,
    alloc: Global,
    pieces: &[&str],
    window: (u64, u64),
    (page, from, to): (u32, u64, u64),
) {
    let one = posting(rt, 1, 10, 40);
    let other = posting(rt, 1, from, to);
    expect_refused(rt, alloc, pieces, window, (page, Why::Clash { one, other }));
}

/// Blocks of three places, of which two have postings of one document that overlap; a window, the page that
/// is told, and where the second posting begins and ends.
const CLASHES: [([&str; 3], (u64, u64), (u32, u64, u64)); 4] = [
    // Two postings of a document from 10 on, in two segments.
    ([FIRST, SHORTER, FIRST], (15, 25), (1, 10, 30)),
    // Two clashes: the earlier one is told, although the other one is between the later two.
    ([FIRST, SHORTER, LATER], (15, 35), (1, 10, 30)),
    ([FIRST, FIRST, LATER], (15, 35), (2, 11, 40)),
    // A clash in front of bytes that spell no list.
    ([FIRST, SHORTER, NO_FREQUENCY], (15, 35), (1, 10, 30)),
];

#[test]
fn the_first_clash_is_told(rt: HostRuntime) {
    for (pieces, window, clash) in &CLASHES {
        expect_clash(&rt, rt.alloc(), pieces, *window, *clash);
    }
}
