//! Sublists that are prepared and written.
ghost use Rattle.std.specs.Prelude.{List};
ghost use Rattle.base_types.specs.declared.extent.Extent.{Extent as PlainExtent};
ghost use Rattle.pages_area.specs.Taken.{HasTaken};

use super::given::{
    BOTH, BOTH_DIGEST, FIRST, FIRST_DIGEST, expect_extents, machine_with, pages_of, read_pages,
    refusal, store_all, time, two_documents,
};
use crate::tests::given::{bytes_of, expect_same};
use base_types::Extent;
use journal_entries::{Layout, Place};
use machine_mem::{CallKind, Fault, MemMachine};
use machine_model::Failed;
use pages_area::{LiveError, TakeError};
use pages_sublists::{FetchError, Sublists};
use std::alloc::Global;
use std::process::Abort;

/// Pages have the bytes of these pieces, one page behind the other, and so many bytes in all.
fn expect_pages(
    rt: &impl Abort,
    alloc: Global,
    machine: &mut MemMachine,
    pieces: &[&str],
    bytes: usize,
) {
    let pages = read_pages(rt, alloc, machine);
    let wanted = pages_of(rt, alloc, pieces);
    expect_same(rt, pages.as_slice(), wanted.as_slice());
    expect_same(rt, pages.len(), bytes);
}

/// A place has this digest.
fn expect_digest(rt: &impl Abort, alloc: Global, place: &Place, digits: &str) {
    let wanted = bytes_of(rt, alloc, digits);
    expect_same(rt, place.digest.as_slice(), wanted.as_slice());
}

/// Places have these digests.
fn expect_digests(rt: &impl Abort, alloc: Global, places: &[Place], digests: &[&str]) {
    for (place, digest) in places.iter().zip(digests) {
        expect_digest(rt, alloc, place, digest);
    }
}

#[test]
fn the_sublists_of_two_documents_lie_in_three_pages(rt: HostRuntime) {
    let alloc = rt.alloc();
    let mut machine = machine_with(&rt, alloc, &[], &[]);
    let places = store_all(&rt, alloc, &mut machine, Layout::Blocks).expect(&rt, "written");
    let pieces = [FIRST, BOTH, FIRST];
    expect_pages(&rt, alloc, &mut machine, &pieces, 2 * 4096 + 18);
    expect_extents(&rt, &places, &[(0, 18), (1, 22), (2, 18)]);
    expect_digests(
        &rt,
        alloc,
        &places,
        &[FIRST_DIGEST, BOTH_DIGEST, FIRST_DIGEST],
    );
}

/// Where such a call fails, that is told.
fn expect_failed(rt: &impl Abort, alloc: Global, call: CallKind, nth: u64) {
    let fault = Fault {
        call,
        nth,
        landed: 0,
    };
    let mut machine = machine_with(rt, alloc, &[], &[fault]);
    let stored = store_all(rt, alloc, &mut machine, Layout::Blocks);
    expect_same(rt, stored.err(), Some(Failed));
}

#[test]
fn a_call_of_the_disk_that_fails_is_told(rt: HostRuntime) {
    expect_failed(&rt, rt.alloc(), CallKind::Write, 2);
    expect_failed(&rt, rt.alloc(), CallKind::Sync, 1);
}

#[test]
fn a_read_that_fails_is_told(rt: HostRuntime) {
    let fault = Fault {
        call: CallKind::Read,
        nth: 2,
        landed: 0,
    };
    let mut machine = machine_with(&rt, rt.alloc(), &[], &[fault]);
    let stored = store_all(&rt, rt.alloc(), &mut machine, Layout::Blocks);
    let places = stored.expect(&rt, "written");
    let why = refusal(&rt, rt.alloc(), &mut machine, &places, (15, 35));
    expect_same(&rt, why, Some(FetchError::Failed));
}

/// A store with one free page, the last.
fn one_free_page(rt: &impl Abort, alloc: Global) -> Sublists
    ensures { (taken : List PlainExtent) × HasTaken result.pages taken }
{
    let rest = Extent::new(0, (1 << 40) - 4096).expect(rt, "an extent");
    Sublists::from_live(alloc, &[rest], 1 << 40).expect(rt, "a store with one free page")
}

/// Where one page alone is free, two segments aren't prepared, and then one is, in that page.
fn expect_one_prepared(rt: &impl Abort, alloc: Global, sublists: &mut Sublists, page: u32)
    requires { (taken : List PlainExtent) × HasTaken sublists.old.pages taken }
{
    let list = two_documents(rt, alloc);
    let cuts = [time(rt, 10), time(rt, 20)];
    let horizon = time(rt, 40);
    match sublists.prepare(alloc, Layout::Blocks, &list, &cuts, horizon) {
        Ok(_) => assert!(rt; false, "two pages are free"),
        Err(error) => {
            expect_same(rt, error, TakeError::Full);
            let prepared = sublists
                .prepare(alloc, Layout::Blocks, &list, &cuts[..1], horizon)
                .expect(rt, "a page is free");
            let place = prepared.places().first().expect(rt, "a place");
            expect_same(rt, place.extent.first, page);
        }
    }
}

#[test]
fn no_page_stays_taken_where_one_segment_finds_none(rt: HostRuntime) {
    let mut sublists = one_free_page(&rt, rt.alloc());
    expect_one_prepared(&rt, rt.alloc(), &mut sublists, (1 << 28) - 1);
}

#[test]
fn an_extent_that_is_live_twice_is_refused(rt: HostRuntime) {
    let twice = Extent::new(0, 1).expect(&rt, "an extent");
    let refused = Sublists::from_live(rt.alloc(), &[twice, twice], 1).err();
    expect_same(&rt, refused, Some(LiveError::Clash { index: 1 }));
}
