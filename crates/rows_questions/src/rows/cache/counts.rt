//! How many bytes of Pages are read: those of a sublist once, until its pages are freed.
//!
//! The first plan's sublists have 18, 22 and 18 bytes in the pages 0, 1 and 2.
use crate::rows::cache::steps::{
    BOTH, ONE, Step, expect_questions, expect_steps, find_15, find_25, find_35, over, step_of,
};
use rows_rig::{FIRST_CERTIFICATE, RowError, first_disk, flat_disk};

#[test]
fn a_sublist_is_read_once(rt: HostRuntime) -> Result<(), RowError> {
    let alloc = rt.alloc();
    let disk = first_disk(alloc)?;
    let rows: [&[Step<'_>]; 4] = [
        &[find_15(18), find_15(0), find_25(22)],
        &[find_15(18), over(40), find_35(0)],
        &[over(58), over(0), find_35(0), find_25(0), find_15(0)],
        &[find_25(22), over(36), find_35(0), over(0)],
    ];
    expect_questions(alloc, &disk, &rows)
}

// A posting has 24 bytes.
#[test]
fn a_flat_sublist_is_read_once(rt: HostRuntime) -> Result<(), RowError> {
    let alloc = rt.alloc();
    let disk = flat_disk(alloc)?;
    let rows: [&[Step<'_>]; 3] = [
        &[find_15(24), find_15(0), find_25(48)],
        &[find_15(24), over(72), find_35(0)],
        &[over(96), over(0), find_25(0)],
    ];
    expect_questions(alloc, &disk, &rows)
}

// A word that stands twice in a query is read once, and a word without a plan not from Pages.
#[test]
fn a_query_asks_for_the_pages_of_each_planned_word(rt: HostRuntime) -> Result<(), RowError> {
    let alloc = rt.alloc();
    let disk = first_disk(alloc)?;
    let steps = [
        step_of(b"find 15 v v\n", ONE, 18),
        step_of(b"find 25 w or v\n", BOTH, 22),
        step_of(b"find 25 not v\n", b"end 0 read 2\n", 0),
    ];
    expect_questions(alloc, &disk, &[&steps])
}

// A rough answer asks for the pages of all segments, at whatever time, and an approximation for none.
#[test]
fn a_rough_answer_asks_for_all_pages_of_its_words(rt: HostRuntime) -> Result<(), RowError> {
    let alloc = rt.alloc();
    let disk = first_disk(alloc)?;
    let steps = [
        step_of(
            b"approx v 0/1\n",
            b"approx 1 10 40 1\napprox 2 20 30 1\nend 2 of 2\n",
            0,
        ),
        find_25(22),
        step_of(b"rough 1/4 15 v or w\n", b"near 1 1\nend 1 read 4\n", 36),
        step_of(b"rough 1/4 5 v v\n", b"end 0 read 4\n", 0),
        find_35(0),
    ];
    expect_questions(alloc, &disk, &[&steps])?;
    let flat = flat_disk(alloc)?;
    let steps = [
        step_of(
            b"rough 0/1 25 v\n",
            b"near 1 1\nnear 2 1\nend 2 read 4\n",
            96,
        ),
        find_15(0),
    ];
    expect_questions(alloc, &flat, &[&steps])
}

/// Before the first cut and from the horizon on, and of another word.
const OUTSIDE: Step<'static> = Step {
    script: b"find 5 v\nfind 40 v\nbetween 40 50 v\nfind 15 w\n",
    replies: b"end 0 read 0\nend 0 read 0\nend 0 read 0\nend 0 read 0\n",
    read: 0,
};

/// What is read of texts, and made of lists in memory.
const TEXTS: Step<'static> = Step {
    script: b"show 1 15\npropose v guarantee 2/1\n",
    replies: b"text 1\nv\nsegment 10 40 2\nnode 10 0\nnode 20 1\nnode 30 2\nnode 40 2\nend 1 space 2\n",
    read: 0,
};

const CERTIFICATE: Step<'static> = Step {
    script: b"certificate v\n",
    replies: FIRST_CERTIFICATE,
    read: 0,
};

/// What is refused.
const REFUSED: Step<'static> = Step {
    script: b"find 15 v or\nhello\nplan w guarantee 1/1\narrive 3 5 1\nv\ndelete 9 50\n",
    replies: b"no 11 BadQuery 4\nno 1 Line\nno 13 UnknownWord\nno 2 TimeBack 40\nno 4 NoDocument\n",
    read: 0,
};

#[test]
fn what_asks_for_no_page_lets_none_go(rt: HostRuntime) -> Result<(), RowError> {
    let alloc = rt.alloc();
    let disk = first_disk(alloc)?;
    let steps = [
        OUTSIDE,
        TEXTS,
        CERTIFICATE,
        REFUSED,
        over(58),
        OUTSIDE,
        TEXTS,
        CERTIFICATE,
        REFUSED,
        over(0),
    ];
    expect_questions(alloc, &disk, &[&steps])
}

// So do changes of documents, and a plan of another word, which lies in page 3.
#[test]
fn changes_leave_the_pages_of_live_plans(rt: HostRuntime) -> Result<(), RowError> {
    let alloc = rt.alloc();
    let disk = first_disk(alloc)?;
    let steps = [
        find_15(18),
        step_of(b"arrive 4 70 1\nw\n", b"ok 6\n", 0),
        find_15(0),
        step_of(b"delete 4 80\n", b"ok 7\n", 0),
        over(40),
        step_of(
            b"plan w guarantee 1/1\n",
            b"plan 8 segments 1 space 1 full 1 horizon 80\n",
            0,
        ),
        over(0),
        step_of(b"find 75 w\n", b"hit 4 1\nend 1 read 1\n", 18),
        over(0),
    ];
    expect_steps(alloc, &disk, &steps)?;
    Ok(())
}

/// The check of the first plan.
fn verify() -> Step<'static> {
    step_of(b"verify\n", b"sound 1 3\n", 58)
}

// It reads each byte, whatever is kept, and keeps none.
#[test]
fn a_check_reads_past_the_cache(rt: HostRuntime) -> Result<(), RowError> {
    let alloc = rt.alloc();
    let disk = first_disk(alloc)?;
    let rows: [&[Step<'_>]; 2] = [
        &[find_15(18), verify(), find_15(0), find_25(22), verify()],
        &[verify(), verify(), find_15(18), over(40), verify(), over(0)],
    ];
    expect_questions(alloc, &disk, &rows)
}
