//! Pages that are kept, and bytes that were checked.
ghost use Rattle.std.specs.Prelude.{◌≡◌};
ghost use Rattle.pages_area.specs.Taken.{HasTaken};
ghost use Rattle.pages_area.specs.CacheLaws.{LieIn};
ghost use Rattle.pages_sublists.specs.Preparing.{extents};

use super::given::{
    BOTH, FIRST, cuts, docs_of, documents, expect_extents, gather_between, gather_blocks,
    machine_with, no_sublists, pages_of, places_of, time,
};
use crate::tests::given::{bytes_of, expect_same};
use base_types::Extent;
use journal_entries::{Layout, Place};
use machine_mem::MemMachine;
use machine_model::{Area, Disk};
use pages_sublists::{Damage, FetchError, Sublists, Why};
use sha2::{Digest, Sha256};
use std::alloc::Global;
use std::process::Abort;

/// A machine whose pages hold the block of document 1, that of both, and the first again.
fn machine_of_three(rt: &impl Abort, alloc: Global) -> MemMachine {
    machine_with(rt, alloc, &pages_of(rt, alloc, &[FIRST, BOTH, FIRST]), &[])
}

/// The block of both documents, with a frequency of 2.
const BOTH_CHANGED: &str = "020007000000010000000100000002020a1e0101140a";

/// Why a place is told apart whose bytes are those.
fn changed_digest(rt: &impl Abort, alloc: Global, place: &Place) -> Why {
    Why::Digest {
        stored: place.digest,
        got: Sha256::digest(&bytes_of(rt, alloc, BOTH_CHANGED)),
    }
}

#[test]
fn bytes_that_were_checked_are_compared_with_what_is_read(rt: HostRuntime) {
    let alloc = rt.alloc();
    let mut machine = machine_of_three(&rt, alloc);
    let places = places_of(&rt, alloc, &[FIRST, BOTH, FIRST]);
    let mut sublists = no_sublists(&rt, alloc);
    for _ in 0..2 {
        let gathered = gather_blocks(&rt, alloc, &mut sublists, &mut machine, &places, (15, 25));
        expect_same(&rt, gathered.expect(&rt, "they are read").read, 3);
    }
    // The frequency of document 1 in the second segment, which no one has given back. Another length is
    // asked for, so that its page is read anew after that.
    let written = machine.write(Area::Pages, 4096 + 15, &[2]);
    written.expect(&rt, "it is written");
    let second = *places.get(1).expect(&rt, "a second place");
    let shorter = Place {
        extent: Extent::new(1, 21).expect(&rt, "an extent"),
        digest: second.digest,
    };
    let refused = gather_between(
        &rt,
        alloc,
        &mut sublists,
        &mut machine,
        Layout::Blocks,
        &[time(&rt, 20)],
        &[shorter],
        (20, 30),
    );
    assert!(rt; refused.is_err());
    let refused = gather_blocks(&rt, alloc, &mut sublists, &mut machine, &places, (15, 25));
    let why = changed_digest(&rt, alloc, &second);
    expect_same(
        &rt,
        refused.err(),
        Some(FetchError::Damaged(Damage { page: 1, why })),
    );
}

#[test]
fn a_place_that_is_asked_for_again_is_read_once(rt: HostRuntime) {
    let alloc = rt.alloc();
    let mut machine = machine_of_three(&rt, alloc);
    let places = places_of(&rt, alloc, &[FIRST, BOTH, FIRST]);
    let mut sublists = no_sublists(&rt, alloc);
    for (window, postings, read) in [((10, 20), 1, 18), ((10, 20), 1, 18), ((20, 30), 2, 40)] {
        let gathered = gather_blocks(&rt, alloc, &mut sublists, &mut machine, &places, window);
        expect_same(
            &rt,
            gathered.expect(&rt, "it is gathered").list.len(),
            postings,
        );
        expect_same(&rt, machine.read_of(Area::Pages), read);
    }
}

/// Stores the sublists of one document from 10 to 40 and of the next one from 20 to 30, between the cuts and 40,
/// in place of those in other places.
fn replaced(
    rt: &impl Abort,
    alloc: Global,
    sublists: &mut Sublists,
    machine: &mut MemMachine,
    doc: u32,
    old: &[Place],
) -> Vec<Place>
    requires taken { HasTaken sublists.old.pages (extents old.now) }
    requires lie { LieIn (extents old.now) sublists.old.cache }
    ensures taken { HasTaken sublists.new.pages (extents result.items) }
    ensures lie { LieIn (extents result.items) sublists.new.cache }
{
    let list = documents(rt, alloc, doc, doc.wrapping_add(1));
    let cuts = cuts(rt);
    let horizon = time(rt, 40);
    let prepared = sublists
        .prepare(alloc, Layout::Blocks, &list, &cuts, horizon)
        .expect(rt, "they are prepared");
    sublists.write(machine, &prepared).expect(rt, "written");
    let places = Vec::from_slice(alloc, prepared.places()).expect(rt, "memory");
    sublists.adopt(prepared, old);
    places
}

#[test]
fn pages_that_are_written_anew_are_read_anew(rt: HostRuntime) {
    let alloc = rt.alloc();
    let mut machine = machine_with(&rt, alloc, &[], &[]);
    let mut sublists = no_sublists(&rt, alloc);
    let early = replaced(&rt, alloc, &mut sublists, &mut machine, 1, &[]);
    read_all(&rt, alloc, &mut sublists, &mut machine, &early, 1);
    let between = replaced(&rt, alloc, &mut sublists, &mut machine, 1, &early);
    // The pages of the first places are free, and taken again.
    let late = replaced(&rt, alloc, &mut sublists, &mut machine, 3, &between);
    expect_extents(&rt, &late, &[(0, 18), (1, 22), (2, 18)]);
    read_all(&rt, alloc, &mut sublists, &mut machine, &late, 3);
    expect_same(&rt, machine.read_of(Area::Pages), 116);
}

/// Reads the three places, in which a document and the next one lie.
fn read_all(
    rt: &impl Abort,
    alloc: Global,
    sublists: &mut Sublists,
    machine: &mut MemMachine,
    places: &[Place],
    doc: u32,
)
    ensures pages { sublists.new.pages ≡ sublists.old.pages }
    ensures lie { LieIn (extents places.now) sublists.old.cache → LieIn (extents places.now) sublists.new.cache }
{
    let gathered = gather_blocks(rt, alloc, sublists, machine, places, (15, 35)).expect(
        rt,
        "they are read",
    );
    let docs = docs_of(rt, alloc, &gathered.list);
    expect_same(rt, docs.as_slice(), [doc, doc.wrapping_add(1)].as_slice());
}
