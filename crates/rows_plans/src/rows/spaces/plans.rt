//! Plans of the word `v` behind the four changes, as scripts and as entries.
//!
//! The word's list is document 1 in [10, 40) and document 2 in [20, 30), so the boundaries are 10, 20, 30 and
//! 40. A segment has 2 postings, but [10, 20) and [30, 40) have 1. So one segment takes 2, two take 3, and
//! three take 4.
use rows_rig::{BLOCKS, Plan, Segment};

/// What is asked of the word's list, before it, in it and behind it, at times and over windows.
pub(crate) const QUESTIONS: &[u8] =
    b"find 5 v\nfind 10 v\nfind 15 v\nfind 25 v\nfind 35 v\nfind 40 v\nbetween 5 10 v\nbetween 15 35 v\nbetween 30 41 v\n";

/// What is answered where there is no plan.
pub(crate) const WITHOUT_A_PLAN: &[u8] =
    b"end 0 read 2\nhit 1 1\nend 1 read 2\nhit 1 1\nend 1 read 2\nhit 1 1\nhit 2 1\nend 2 read 2\nhit 1 1\nend 1 read 2\nend 0 read 2\nend 0 read 2\nspan 1 15 35 1\nspan 2 20 30 1\nend 2 read 2\nspan 1 30 40 1\nend 1 read 2\n";

/// What is answered by one segment.
pub(crate) const BY_ONE: &[u8] =
    b"end 0 read 0\nhit 1 1\nend 1 read 2\nhit 1 1\nend 1 read 2\nhit 1 1\nhit 2 1\nend 2 read 2\nhit 1 1\nend 1 read 2\nend 0 read 0\nend 0 read 0\nspan 1 15 35 1\nspan 2 20 30 1\nend 2 read 2\nspan 1 30 40 1\nend 1 read 2\n";

/// What is answered by two segments that meet at 30.
pub(crate) const BY_TWO: &[u8] =
    b"end 0 read 0\nhit 1 1\nend 1 read 2\nhit 1 1\nend 1 read 2\nhit 1 1\nhit 2 1\nend 2 read 2\nhit 1 1\nend 1 read 1\nend 0 read 0\nend 0 read 0\nspan 1 15 35 1\nspan 2 20 30 1\nend 2 read 3\nspan 1 30 40 1\nend 1 read 1\n";

/// What is answered by three segments.
pub(crate) const BY_THREE: &[u8] =
    b"end 0 read 0\nhit 1 1\nend 1 read 1\nhit 1 1\nend 1 read 1\nhit 1 1\nhit 2 1\nend 2 read 2\nhit 1 1\nend 1 read 1\nend 0 read 0\nend 0 read 0\nspan 1 15 35 1\nspan 2 20 30 1\nend 2 read 4\nspan 1 30 40 1\nend 1 read 1\n";

/// A plan up to the last time as an entry, in blocks.
pub(crate) fn plan_of<'a>(
    kind: &'a [u8],
    over: u32,
    under: u32,
    segments: &'a [Segment<'a>],
) -> Plan<'a> {
    Plan {
        form: BLOCKS,
        kind,
        over,
        under,
        horizon: 40,
        word: b"v",
        segments,
    }
}
