//! Pages that are taken and given back, and extents that cannot be live.
use crate::tests::given::{expect_same, expect_same_in};
use base_types::Extent;
use pages_area::{LiveError, Pages, TakeError};
use std::alloc::Global;
use std::process::Abort;

/// The first pages that takes give, with one extent given back in between.
fn firsts(alloc: Global) -> Result<[u32; 5], TakeError> {
    let mut pages = match Pages::from_live(alloc, &[], 0) {
        Ok(pages) => pages,
        Err(_) => return Err(TakeError::Memory),
    };
    let one = pages.take(1)?;
    let two = pages.take(8192)?;
    pages.give_back(one);
    let three = pages.take(4097)?;
    let four = pages.take(4096)?;
    let none = pages.take(0)?;
    Ok([one.first, two.first, three.first, four.first, none.first])
}

#[test]
fn the_lowest_run_that_is_long_enough_is_taken(rt: HostRuntime) {
    expect_same(&rt, firsts(rt.alloc()), Ok([0, 1, 3, 0, 0]));
}

/// How many bytes Pages can have.
const WHOLE: u64 = 1 << 40;

/// How many bytes are asked for in turn, and what each take gives: a first page and bytes, or why none.
const TAKES: [(u64, Result<(u32, u64), TakeError>); 6] = [
    (WHOLE + 1, Err(TakeError::Full)),
    (1, Ok((0, 1))),
    (WHOLE, Err(TakeError::Full)),
    (WHOLE - 4096, Ok((1, WHOLE - 4096))),
    (1, Err(TakeError::Full)),
    (0, Ok((0, 0))),
];

/// What a take of so many bytes gives.
fn taken(pages: &mut Pages, bytes: u64) -> Result<(u32, u64), TakeError> {
    match pages.take(bytes) {
        Ok(extent) => Ok((extent.first, extent.bytes)),
        Err(error) => Err(error),
    }
}

#[test]
fn pages_end_at_2_to_the_28(rt: HostRuntime) {
    let mut pages = Pages::from_live(rt.alloc(), &[], 0).expect(&rt, "memory");
    for (bytes, wanted) in &TAKES {
        expect_same_in(&rt, *bytes, taken(&mut pages, *bytes), *wanted);
    }
}

/// Why these extents cannot be live in Pages of so many bytes.
fn refusal(rt: &impl Abort, alloc: Global, rows: &[(u32, u64)], reach: u64) -> Option<LiveError> {
    let mut live = Vec::new(alloc);
    for (first, bytes) in rows {
        let extent = Extent::new(*first, *bytes).expect(rt, "an extent");
        live.push(extent).expect(rt, "memory");
    }
    Pages::from_live(alloc, &live, reach).err()
}

/// Three extents, how many bytes Pages has, and why they cannot be live.
const LIVE: [([(u32, u64); 3], u64, Option<LiveError>); 9] = [
    ([(1, 4096), (0, 4096), (2, 1)], 8193, None),
    (
        [(1, 4096), (0, 4096), (2, 1)],
        8192,
        Some(LiveError::Outside { index: 2 }),
    ),
    // No bytes take no page, and lie inside or not.
    ([(0, 1), (0, 0), (2, 0)], 8192, None),
    (
        [(0, 1), (0, 0), (2, 0)],
        8191,
        Some(LiveError::Outside { index: 2 }),
    ),
    // The last page of one is the first of another, and the other way round.
    (
        [(0, 4097), (5, 1), (1, 1)],
        40_960,
        Some(LiveError::Clash { index: 2 }),
    ),
    (
        [(1, 1), (5, 1), (0, 4097)],
        40_960,
        Some(LiveError::Clash { index: 2 }),
    ),
    // One inside another.
    (
        [(0, 40_960), (3, 1), (20, 1)],
        40_960,
        Some(LiveError::Clash { index: 1 }),
    ),
    // The first that fails is named, and outside before a clash.
    (
        [(0, 1), (9, 1), (0, 1)],
        4096,
        Some(LiveError::Outside { index: 1 }),
    ),
    (
        [(0, 1), (0, 4097), (9, 1)],
        4096,
        Some(LiveError::Outside { index: 1 }),
    ),
];

/// These extents can be live in Pages of so many bytes, or cannot for this reason.
fn expect_live(
    rt: &impl Abort,
    alloc: Global,
    (rows, reach, why): ([(u32, u64); 3], u64, Option<LiveError>),
) {
    expect_same_in(rt, rows, refusal(rt, alloc, &rows, reach), why);
}

#[test]
fn the_first_extent_that_fails_is_named(rt: HostRuntime) {
    for row in &LIVE {
        expect_live(&rt, rt.alloc(), *row);
    }
}
