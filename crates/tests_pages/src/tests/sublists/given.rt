//! Lists, machines and stores for the tests.
ghost use Rattle.std.specs.Prelude.{◌≡◌, [], ◌*◌, ◌+◌, ◌^◌, ◌≤◌, true, All, sum_by, length};
ghost use Rattle.journal_entries.specs.declared.place.Place.{Place as PlainPlace};
ghost use Rattle.lists_postings.specs.Lists.{IsList};
ghost use Rattle.pages_area.specs.Live.{IsInside};
ghost use Rattle.pages_area.specs.Taken.{HasTaken};
ghost use Rattle.pages_area.specs.CacheLaws.{LieIn};
ghost use Rattle.pages_sublists.specs.Preparing.{extents};

use crate::tests::given::{bytes_of, expect_same, listed, put_flat};
use base_types::{DocId, Extent, Posting, Span, Time};
use journal_entries::{Layout, Place};
use machine_mem::{Fault, MemMachine};
use machine_model::{Area, Disk, Failed, Image};
use pages_sublists::{FetchError, Gathered, Sublists};
use sha2::{Digest, Sha256};
use std::alloc::Global;
use std::process::Abort;

/// A posting of frequency 1.
pub(crate) fn posting(rt: &impl Abort, doc: u32, from: u64, to: u64) -> Posting {
    Posting {
        doc: DocId(doc),
        span: Span::new(from, to).expect(rt, "a span"),
        tf: 1,
    }
}

/// Document 1 from 10 to 40, and document 2 from 20 to 30.
pub(crate) fn two_documents(rt: &impl Abort, alloc: Global) -> Vec<Posting>
    ensures { IsList result.items }
{
    documents(rt, alloc, 1, 2)
}

/// One document from 10 to 40, and another one from 20 to 30.
pub(crate) fn documents(rt: &impl Abort, alloc: Global, one: u32, other: u32) -> Vec<Posting>
    ensures { IsList result.items }
{
    let mut bytes = Vec::new(alloc);
    put_flat(rt, &mut bytes, one, 10, 40);
    put_flat(rt, &mut bytes, other, 20, 30);
    listed(rt, alloc, &bytes)
}

/// So many seconds.
pub(crate) fn time(rt: &impl Abort, seconds: u64) -> Time {
    Time::new(seconds).expect(rt, "a time")
}

/// The cuts 10, 20 and 30.
pub(crate) fn cuts(rt: &impl Abort) -> [Time; 3] {
    [time(rt, 10), time(rt, 20), time(rt, 30)]
}

/// A machine without input, with these bytes in Pages.
pub(crate) fn machine_with(
    rt: &impl Abort,
    alloc: Global,
    pages: &[u8],
    faults: &[Fault],
) -> MemMachine {
    assert!(rt; pages.len() <= 1 << 40);
    let image = Image {
        journal: Vec::new(alloc),
        pages: Vec::from_slice(alloc, pages).expect(rt, "memory"),
    };
    let faults = Vec::from_slice(alloc, faults).expect(rt, "memory");
    MemMachine::new(alloc, Vec::new(alloc), image, faults).expect(rt, "memory")
}

/// What reads give of Pages.
pub(crate) fn read_pages(rt: &impl Abort, alloc: Global, machine: &mut MemMachine) -> Vec<u8> {
    let len = machine.length(Area::Pages).expect(rt, "a length");
    let mut bytes = vec![in alloc; 0; len as usize].expect(rt, "memory");
    machine
        .read(Area::Pages, 0, &mut bytes)
        .expect(rt, "they are read");
    bytes
}

/// Stores the sublists of the two documents between the cuts and 40 in an empty store, and gives their
/// places; or tells that a call of the disk failed.
pub(crate) fn store_all(
    rt: &impl Abort,
    alloc: Global,
    machine: &mut MemMachine,
    layout: Layout,
) -> Result<Vec<Place>, Failed> {
    store_between(rt, alloc, machine, layout, &cuts(rt))
}

/// The same between other cuts and 40.
pub(crate) fn store_between(
    rt: &impl Abort,
    alloc: Global,
    machine: &mut MemMachine,
    layout: Layout,
    cuts: &[Time],
) -> Result<Vec<Place>, Failed> {
    let list = two_documents(rt, alloc);
    let horizon = time(rt, 40);
    let mut sublists = no_sublists(rt, alloc);
    let prepared = sublists
        .prepare(alloc, layout, &list, cuts, horizon)
        .expect(rt, "they are prepared");
    match sublists.write(machine, &prepared) {
        Ok(()) => {
            let places = Vec::from_slice(alloc, prepared.places()).expect(rt, "memory");
            sublists.adopt(prepared, &[]);
            Ok(places)
        }
        Err(Failed) => {
            sublists.forget(prepared);
            Err(Failed)
        }
    }
}

/// Whether the places lie inside so many bytes, and have few enough.
pub(crate) fn fit(places: &[Place], reach: u64) -> bool
    ensures inside { result ≡ true → All (λ (p : PlainPlace). IsInside reach p.extent) places.now }
    ensures few { result ≡ true → sum_by (λ (p : PlainPlace). p.extent.bytes) places.now ≤ 2 ^ 40 }
{
    let mut total = 0;
    for place in places {
        let bytes = place.extent.bytes;
        if place.extent.first as u64 * 4096 + bytes > reach || bytes > (1 << 40) - total {
            return false;
        }
        total += bytes;
    }
    true
}

/// What is gathered from three places in blocks for a window, between the cuts and 40.
pub(crate) fn gather_blocks(
    rt: &impl Abort,
    alloc: Global,
    sublists: &mut Sublists,
    machine: &mut MemMachine,
    places: &[Place],
    window: (u64, u64),
) -> Result<Gathered, FetchError>
    ensures pages { sublists.new.pages ≡ sublists.old.pages }
    ensures lie { LieIn (extents places.now) sublists.old.cache → LieIn (extents places.now) sublists.new.cache }
{
    let cuts = cuts(rt);
    let layout = Layout::Blocks;
    gather_between(rt, alloc, sublists, machine, layout, &cuts, places, window)
}

/// The same from places in a layout, between other cuts and 40.
pub(crate) fn gather_between(
    rt: &impl Abort,
    alloc: Global,
    sublists: &mut Sublists,
    machine: &mut MemMachine,
    layout: Layout,
    cuts: &[Time],
    places: &[Place],
    window: (u64, u64),
) -> Result<Gathered, FetchError>
    ensures pages { sublists.new.pages ≡ sublists.old.pages }
    ensures lie { LieIn (extents places.now) sublists.old.cache → LieIn (extents places.now) sublists.new.cache }
{
    let horizon = time(rt, 40);
    let span = Span::new(window.0, window.1).expect(rt, "a window");
    let reach = machine.length(Area::Pages).expect(rt, "a length");
    assert!(rt; places.len() == cuts.len());
    assert!(rt; fit(places, reach));
    sublists.gather(alloc, machine, layout, cuts, horizon, places, span)
}

/// Why nothing is gathered from three places in blocks for a window, with none of the pages kept.
pub(crate) fn refusal(
    rt: &impl Abort,
    alloc: Global,
    machine: &mut MemMachine,
    places: &[Place],
    window: (u64, u64),
) -> Option<FetchError> {
    let mut sublists = no_sublists(rt, alloc);
    gather_blocks(rt, alloc, &mut sublists, machine, places, window).err()
}

/// The documents of a list, in order.
pub(crate) fn docs_of(rt: &impl Abort, alloc: Global, list: &[Posting]) -> Vec<u32> {
    let mut docs = Vec::new(alloc);
    for posting in list {
        docs.push(posting.doc.0).expect(rt, "memory");
    }
    docs
}

/// A store that has taken no page, and keeps none.
pub(crate) fn no_sublists(rt: &impl Abort, alloc: Global) -> Sublists
    ensures taken { HasTaken result.pages [] }
    ensures cache { result.cache ≡ [] }
{
    Sublists::from_live(alloc, &[], 0).expect(rt, "an empty store")
}

/// The block of document 1 from 10 to 40, and its SHA-256.
pub(crate) const FIRST: &str = "010003000000010000000100000001010a1e";

pub(crate) const FIRST_DIGEST: &str =
    "d4de2349f00d3a04d7012a5d52abe25a038b4d8fe68eb08a664fbf442d7e867e";

/// The block of both documents, and its SHA-256.
pub(crate) const BOTH: &str = "020007000000010000000100000002010a1e0101140a";

pub(crate) const BOTH_DIGEST: &str =
    "3e9ce0608f1e27488a5d35d6d9ceebc93f2efcc7c2bb9740acf693e348776026";

/// Adds what is missing of the pages before this one, and these bytes.
fn put_piece(rt: &impl Abort, alloc: Global, pages: &mut Vec<u8>, page: usize, piece: &str) {
    let start = page.saturating_mul(4096);
    pages.resize(start, 0).expect(rt, "memory");
    let bytes = bytes_of(rt, alloc, piece);
    pages.extend_from_slice(&bytes).expect(rt, "memory");
}

/// Pages that begin with these bytes, one behind the other.
pub(crate) fn pages_of(rt: &impl Abort, alloc: Global, pieces: &[&str]) -> Vec<u8> {
    let mut pages = Vec::new(alloc);
    for (page, piece) in pieces.iter().enumerate() {
        put_piece(rt, alloc, &mut pages, page, piece);
    }
    pages
}

/// Where these bytes lie, one page behind the other.
pub(crate) fn places_of(rt: &impl Abort, alloc: Global, pieces: &[&str]) -> Vec<Place> {
    let mut places = Vec::new(alloc);
    let mut first = 0;
    for piece in pieces {
        let bytes = bytes_of(rt, alloc, piece);
        let extent = Extent::new(first, bytes.len() as u64).expect(rt, "an extent");
        let digest = Sha256::digest(&bytes);
        places.push(Place { extent, digest }).expect(rt, "memory");
        first = first.saturating_add(1);
    }
    places
}

/// Places have these first pages and bytes.
pub(crate) fn expect_extents(rt: &impl Abort, places: &[Place], wanted: &[(u32, u64)]) {
    expect_same(rt, places.len(), wanted.len());
    for (place, row) in places.iter().zip(wanted) {
        expect_same(rt, (place.extent.first, place.extent.bytes), *row);
    }
}
