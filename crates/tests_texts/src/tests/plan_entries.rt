//! Stored plans as bytes, and bytes that spell none.
use super::entries::named;
use crate::tests::given::{expect_same, expect_same_in};
use crate::tests::in_words::kind_in_words;
use journal_entries::{Entry, Layout, Place, PlanEntry, decode, encode_plan};
use std::alloc::Global;
use std::process::Abort;

/// A plan of the word `v`: guarantee 1/1, horizon 40, cuts 10, 20 and 30, in blocks of 18, 22 and 18
/// bytes.
const IN_BLOCKS: [&str; 4] = [
    "03020100000001000000010000000000000028017600000003",
    "000000000000000a000000000000000000000012a1a1a1a1a1a1a1a1a1a1a1a1a1a1a1a1a1a1a1a1a1a1a1a1a1a1a1a1a1a1a1a1",
    "0000000000000014000000010000000000000016b2b2b2b2b2b2b2b2b2b2b2b2b2b2b2b2b2b2b2b2b2b2b2b2b2b2b2b2b2b2b2b2",
    "000000000000001e000000020000000000000012c3c3c3c3c3c3c3c3c3c3c3c3c3c3c3c3c3c3c3c3c3c3c3c3c3c3c3c3c3c3c3c3",
];

/// The same plan as an archive stored it, with flat sublists of 24, 48 and 24 bytes.
const WITH_FLAT_LISTS: [&str; 4] = [
    "03010100000001000000010000000000000028017600000003",
    "000000000000000a000000000000000000000018713c5858835bfef5e179036b9757c8265872cca3294c9370120459ca084c3449",
    "00000000000000140000000100000000000000309e7b1995ab058b2026323f96cd0a8db4478114b14e82663ad26c1167dc590018",
    "000000000000001e000000020000000000000018713c5858835bfef5e179036b9757c8265872cca3294c9370120459ca084c3449",
];

/// A plan of the word `v` for the seconds from 5 on, of one segment.
const FROM_A_TIME_ON: [&str; 2] = [
    "030203000000000000000500000003000000020000000000000028017600000001",
    "000000000000000a000000000000000000000012a1a1a1a1a1a1a1a1a1a1a1a1a1a1a1a1a1a1a1a1a1a1a1a1a1a1a1a1a1a1a1a1",
];

/// The bytes of a plan in parts.
fn joined(rt: &impl Abort, alloc: Global, parts: &[&str]) -> Vec<u8> {
    let mut bytes = Vec::new(alloc);
    for part in parts {
        let more = hex::decode(alloc, *part).expect(rt, "bytes");
        bytes.extend_from_slice(&more).expect(rt, "memory");
    }
    bytes
}

/// The plan that bytes spell, which they also spell when it is written; None where they spell another entry.
fn plan_of(rt: &impl Abort, alloc: Global, body: &[u8]) -> Option<PlanEntry> {
    let Entry::Planned(plan) = decode(alloc, body).expect(rt, "an entry") else {
        return None;
    };
    let spelled = encode_plan(alloc, &plan).expect(rt, "memory");
    expect_same(rt, spelled.as_slice(), body);
    Some(plan)
}

/// A place begins with this page, and has so many bytes and a digest with this last byte.
fn expect_place(rt: &impl Abort, place: &Place, wanted: (u32, u64, u8)) {
    let found = (place.extent.first, place.extent.bytes, place.digest[31]);
    expect_same(rt, found, wanted);
}

/// A plan has these places, and is cut at 10, 20 and 30.
fn expect_segments(rt: &impl Abort, plan: &PlanEntry, places: &[(u32, u64, u8)]) {
    expect_same(rt, plan.cuts.as_slice().len(), 3);
    for (cut, second) in plan.cuts.as_slice().iter().zip(&[10, 20, 30]) {
        expect_same(rt, cut.seconds(), *second);
    }
    expect_same(rt, plan.places.as_slice().len(), places.len());
    for (place, wanted) in plan.places.as_slice().iter().zip(places) {
        expect_place(rt, place, *wanted);
    }
}

/// The word `v` is planned up to 40 by this kind and with this factor.
fn expect_head(rt: &impl Abort, alloc: Global, plan: &PlanEntry, kind: &str, factor: (u32, u32)) {
    expect_same(rt, plan.word.as_str(), "v");
    expect_same(rt, kind_in_words(rt, alloc, plan.kind).as_str(), kind);
    expect_same(rt, (plan.fraction.over(), plan.fraction.under()), factor);
    expect_same(rt, plan.horizon.seconds(), 40);
}

#[test]
fn a_plan_in_blocks_has_a_hundred_and_eighty_one_bytes(rt: HostRuntime) {
    let body = joined(&rt, rt.alloc(), &IN_BLOCKS);
    expect_same(&rt, body.len(), 181);
    let plan = plan_of(&rt, rt.alloc(), &body).expect(&rt, "a plan");
    expect_same(&rt, plan.layout, Layout::Blocks);
    expect_head(&rt, rt.alloc(), &plan, "guarantee", (1, 1));
    let places = [(0, 18, 161), (1, 22, 178), (2, 18, 195)];
    expect_segments(&rt, &plan, &places);
}

#[test]
fn a_plan_of_an_archive_with_flat_lists_is_read(rt: HostRuntime) {
    let body = joined(&rt, rt.alloc(), &WITH_FLAT_LISTS);
    let plan = plan_of(&rt, rt.alloc(), &body).expect(&rt, "a plan");
    expect_same(&rt, plan.layout, Layout::Flat);
    let places = [(0, 24, 0x49), (1, 48, 0x18), (2, 24, 0x49)];
    expect_segments(&rt, &plan, &places);
}

#[test]
fn a_plan_since_a_time_has_eight_bytes_more(rt: HostRuntime) {
    let body = joined(&rt, rt.alloc(), &FROM_A_TIME_ON);
    expect_same(&rt, body.len(), 85);
    let plan = plan_of(&rt, rt.alloc(), &body).expect(&rt, "a plan");
    expect_head(&rt, rt.alloc(), &plan, "since 5", (3, 2));
}

/// Places in the plan in blocks, a byte put there, and the place that is named.
const FAULTS: [(usize, u8, u64); 31] = [
    // A plan read as an arrival and as a batch, and a tag that none has.
    (0, 1, 5),
    (0, 4, 1),
    (0, 6, 0),
    // The layout and the kind.
    (1, 0, 1),
    (1, 3, 1),
    (2, 0, 2),
    (2, 4, 2),
    // The fraction is read as a time, and the horizon as a fraction.
    (2, 3, 11),
    // A fraction with a 0, and one below 1.
    (6, 0, 3),
    (10, 0, 7),
    (10, 2, 7),
    // A horizon above the last time, one at the last cut, and 0.
    (13, 1, 11),
    (18, 30, 129),
    (18, 0, 25),
    // A word of no byte, one that is cut short, and one that isn't UTF-8.
    (19, 0, 19),
    (19, 255, 20),
    (20, 255, 20),
    // No segment, too many of them, one fewer than there are, and one more.
    (24, 0, 21),
    (22, 16, 21),
    (24, 2, 129),
    (24, 4, 181),
    // A cut above the last time, cuts that don't ascend, and one at the horizon.
    (27, 1, 25),
    (84, 10, 77),
    (84, 9, 77),
    (136, 40, 129),
    // A page behind the last one, and bytes that pass its end.
    (33, 17, 33),
    (33, 16, 37),
    (37, 1, 37),
    (85, 32, 85),
    (89, 1, 89),
    (141, 1, 141),
];

/// The plan with another byte at a place names this one.
fn expect_fault(rt: &impl Abort, alloc: Global, body: &[u8], (place, byte, at): (usize, u8, u64)) {
    let mut changed = Vec::from_slice(alloc, body).expect(rt, "memory");
    if let Some(old) = changed.get_mut(place) {
        *old = byte;
    }
    expect_same_in(rt, (place, byte), named(alloc, &changed), Some(at));
}

#[test]
fn the_first_wrong_field_of_a_plan_is_named(rt: HostRuntime) {
    let body = joined(&rt, rt.alloc(), &IN_BLOCKS);
    for fault in &FAULTS {
        expect_fault(&rt, rt.alloc(), &body, *fault);
    }
}

/// Where the fields of the plan in blocks begin.
const FIELDS: [u64; 21] = [
    0, 1, 2, 3, 7, 11, 19, 20, 21, 25, 33, 37, 45, 77, 85, 89, 97, 129, 137, 141, 149,
];

/// The last of these fields that begins within so many bytes.
fn last_field(len: usize) -> u64 {
    let mut at = 0;
    for field in &FIELDS {
        if *field <= len as u64 {
            at = *field;
        }
    }
    at
}

/// So many bytes of the plan name the field that is cut short.
fn expect_cut_short(rt: &impl Abort, alloc: Global, body: &[u8], len: usize) {
    let mut short = Vec::from_slice(alloc, body).expect(rt, "memory");
    short.truncate(len);
    expect_same_in(rt, len, named(alloc, &short), Some(last_field(len)));
}

#[test]
fn a_field_of_a_plan_that_is_cut_short_is_named(rt: HostRuntime) {
    let body = joined(&rt, rt.alloc(), &IN_BLOCKS);
    for len in 0..body.len() {
        expect_cut_short(&rt, rt.alloc(), &body, len);
    }
}

#[test]
fn a_byte_behind_a_plan_is_named(rt: HostRuntime) {
    let mut body = joined(&rt, rt.alloc(), &IN_BLOCKS);
    body.push(0).expect(&rt, "memory");
    expect_same(&rt, named(rt.alloc(), &body), Some(181));
}
