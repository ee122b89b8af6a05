//! Disks with plans under a space bound that no archive wrote: which of them are an archive's, and the place
//! where it shows of the others.
use crate::rows::spaces::plans::{BY_ONE, BY_THREE, BY_TWO, QUESTIONS, plan_of};
use rows_rig::{
    CLIPPED_LIVES, FOUR_END, LIFE_OF_1, LIVES_OF_1_AND_2, NOTHING, Plan, Row, RowError, SINCE_30,
    Segment, UNIFORM, disk_with, expect_on, expect_status, first_segments, segment_at,
};
use run_script::Status;
use std::alloc::Global;

/// Disks with the four changes and one of these plans are no archive's, which shows at this place.
fn expect_refused(alloc: Global, plans: &[Plan<'_>], at: u64) -> Result<(), RowError> {
    for (row, plan) in plans.iter().enumerate() {
        let disk = disk_with(alloc, plan)?;
        expect_status(alloc, disk, row, Status::NotArchive { at })?;
    }
    Ok(())
}

/// Disks with the four changes and one of these plans are an archive's, which answers the questions so, and has no
/// certificate.
fn expect_taken(alloc: Global, plans: &[Plan<'_>], answers: &[u8]) -> Result<(), RowError> {
    let rows = [
        Row {
            script: QUESTIONS,
            replies: answers,
        },
        Row {
            script: b"certificate v\n",
            replies: b"no 14 NoPlan\n",
        },
    ];
    for plan in plans {
        let disk = disk_with(alloc, plan)?;
        expect_on(alloc, &disk, &rows)?;
    }
    Ok(())
}

/// Two segments that meet at 30, as document 1 has the word in both.
fn two_segments() -> [Segment<'static>; 2] {
    [
        segment_at(10, 0, LIVES_OF_1_AND_2),
        segment_at(30, 1, LIFE_OF_1),
    ]
}

// Three segments take 4 postings, two take 3, and one takes 2. The bound is the factor times 2, rounded down.
#[test]
fn a_plan_above_its_bound_is_refused(rt: HostRuntime) -> Result<(), RowError> {
    let three = first_segments();
    let two = two_segments();
    let plans = [
        plan_of(UNIFORM, 1, 1, &three),
        plan_of(UNIFORM, 3, 2, &three),
        plan_of(UNIFORM, 7, 4, &three),
        plan_of(UNIFORM, 999_999, 500_000, &three),
        plan_of(UNIFORM, 1, 1, &two),
        plan_of(UNIFORM, 4, 3, &two),
        plan_of(UNIFORM, 4_294_967_295, 4_294_967_295, &two),
        plan_of(SINCE_30, 1, 1, &three),
        plan_of(SINCE_30, 3, 2, &three),
        plan_of(SINCE_30, 7, 4, &three),
        plan_of(SINCE_30, 999_999, 500_000, &three),
        plan_of(SINCE_30, 1, 1, &two),
        plan_of(SINCE_30, 4, 3, &two),
        plan_of(SINCE_30, 4_294_967_295, 4_294_967_295, &two),
    ];
    expect_refused(rt.alloc(), &plans, FOUR_END)
}

#[test]
fn a_plan_of_three_segments_at_its_bound_is_taken(rt: HostRuntime) -> Result<(), RowError> {
    let three = first_segments();
    let plans = [
        plan_of(UNIFORM, 2, 1, &three),
        plan_of(UNIFORM, 9, 4, &three),
        plan_of(UNIFORM, 4_294_967_295, 1, &three),
        plan_of(SINCE_30, 2, 1, &three),
        plan_of(SINCE_30, 9, 4, &three),
        plan_of(SINCE_30, 4_294_967_295, 1, &three),
    ];
    expect_taken(rt.alloc(), &plans, BY_THREE)
}

#[test]
fn a_plan_of_two_segments_at_its_bound_is_taken(rt: HostRuntime) -> Result<(), RowError> {
    let two = two_segments();
    let plans = [
        plan_of(UNIFORM, 3, 2, &two),
        plan_of(UNIFORM, 5, 3, &two),
        plan_of(SINCE_30, 3, 2, &two),
        plan_of(SINCE_30, 5, 3, &two),
    ];
    expect_taken(rt.alloc(), &plans, BY_TWO)
}

// It need not be best.
#[test]
fn a_plan_of_one_segment_is_taken_by_any_bound(rt: HostRuntime) -> Result<(), RowError> {
    let one = [segment_at(10, 0, LIVES_OF_1_AND_2)];
    let plans = [
        plan_of(UNIFORM, 1, 1, &one),
        plan_of(UNIFORM, 4, 1, &one),
        plan_of(SINCE_30, 1, 1, &one),
        plan_of(SINCE_30, 4, 1, &one),
    ];
    expect_taken(rt.alloc(), &plans, BY_ONE)
}

/// Segments that meet at 15: [10, 15) has 1 posting and [15, 40) has 2.
fn early_segments() -> [Segment<'static>; 2] {
    [
        segment_at(10, 0, LIFE_OF_1),
        segment_at(15, 1, LIVES_OF_1_AND_2),
    ]
}

/// Segments that meet at 25, and have 2 postings each.
fn middle_segments() -> [Segment<'static>; 2] {
    [
        segment_at(10, 0, LIVES_OF_1_AND_2),
        segment_at(25, 1, LIVES_OF_1_AND_2),
    ]
}

/// On a disk with this plan behind the four changes a script has its replies.
fn expect_answers(alloc: Global, plan: &Plan<'_>, row: Row<'_>) -> Result<(), RowError> {
    let disk = disk_with(alloc, plan)?;
    expect_on(alloc, &disk, &[row])
}

// Nor cut at boundaries.
#[test]
fn a_plan_that_keeps_its_bound_may_cut_anywhere(rt: HostRuntime) -> Result<(), RowError> {
    let alloc = rt.alloc();
    let early = early_segments();
    let first = Row {
        script: b"find 14 v\nfind 15 v\nfind 25 v\nfind 35 v\nbetween 14 16 v\n",
        replies: b"hit 1 1\nend 1 read 1\nhit 1 1\nend 1 read 2\nhit 1 1\nhit 2 1\nend 2 read 2\nhit 1 1\nend 1 read 2\nspan 1 14 16 1\nend 1 read 3\n",
    };
    expect_answers(alloc, &plan_of(SINCE_30, 3, 2, &early), first)?;
    let middle = middle_segments();
    let second = Row {
        script: b"find 14 v\nfind 15 v\nfind 25 v\nfind 35 v\nbetween 14 16 v\n",
        replies: b"hit 1 1\nend 1 read 2\nhit 1 1\nend 1 read 2\nhit 1 1\nhit 2 1\nend 2 read 2\nhit 1 1\nend 1 read 2\nspan 1 14 16 1\nend 1 read 2\n",
    };
    expect_answers(alloc, &plan_of(UNIFORM, 2, 1, &middle), second)
}

#[test]
fn a_plan_that_is_not_of_its_words_list_is_refused_at_its_gate(
    rt: HostRuntime,
) -> Result<(), RowError> {
    let early = early_segments();
    let middle = middle_segments();
    let whole = [segment_at(10, 0, LIVES_OF_1_AND_2)];
    // below the first boundary, above it, and at the second one
    let below = [segment_at(9, 0, LIVES_OF_1_AND_2)];
    let above = [segment_at(11, 0, LIVES_OF_1_AND_2)];
    let second = [segment_at(20, 0, LIVES_OF_1_AND_2)];
    // a list without postings
    let bare = [segment_at(5, 0, NOTHING)];
    let uniform = plan_of(UNIFORM, 4, 1, &whole);
    let since_30 = plan_of(SINCE_30, 4, 1, &whole);
    let plans = [
        // above their bounds
        plan_of(SINCE_30, 1, 1, &early),
        plan_of(UNIFORM, 3, 2, &middle),
        plan_of(UNIFORM, 4, 1, &below),
        plan_of(UNIFORM, 4, 1, &above),
        plan_of(UNIFORM, 4, 1, &second),
        Plan {
            horizon: 10,
            ..plan_of(UNIFORM, 4, 1, &bare)
        },
        // the last time is 40
        Plan {
            horizon: 41,
            ..uniform
        },
        // no text has these
        Plan {
            word: b"w",
            ..uniform
        },
        Plan {
            word: b"V",
            ..uniform
        },
        // and the same of the other kind
        plan_of(SINCE_30, 4, 1, &below),
        plan_of(SINCE_30, 4, 1, &above),
        plan_of(SINCE_30, 4, 1, &second),
        Plan {
            horizon: 10,
            ..plan_of(SINCE_30, 4, 1, &bare)
        },
        Plan {
            horizon: 41,
            ..since_30
        },
        Plan {
            word: b"w",
            ..since_30
        },
        Plan {
            word: b"V",
            ..since_30
        },
    ];
    expect_refused(rt.alloc(), &plans, FOUR_END)
}

#[test]
fn a_plan_of_a_kind_that_none_has_is_refused_at_that_field(
    rt: HostRuntime,
) -> Result<(), RowError> {
    let whole = [segment_at(10, 0, LIVES_OF_1_AND_2)];
    let plans = [
        plan_of(b"\x00", 4, 1, &whole),
        plan_of(b"\x04", 4, 1, &whole),
        plan_of(b"\xff", 4, 1, &whole),
    ];
    expect_refused(rt.alloc(), &plans, FOUR_END + 7)
}

// The one place needs 22 bytes.
#[test]
fn pages_that_are_cut_are_refused_at_the_gate_of_the_plan(rt: HostRuntime) -> Result<(), RowError> {
    let alloc = rt.alloc();
    let whole = [segment_at(10, 0, LIVES_OF_1_AND_2)];
    let mut disk = disk_with(alloc, &plan_of(UNIFORM, 1, 1, &whole))?;
    if disk.pages.len() != 22 {
        return Err(RowError::Changed { row: 0 });
    }
    disk.pages.truncate(21);
    expect_status(alloc, disk, 0, Status::NotArchive { at: FOUR_END })
}

// The list is clipped at the plan's horizon, and what is behind it is read as it is without a plan.
#[test]
fn a_horizon_may_lie_before_the_last_time(rt: HostRuntime) -> Result<(), RowError> {
    let clipped = [segment_at(10, 0, CLIPPED_LIVES)];
    let plan = Plan {
        horizon: 30,
        ..plan_of(UNIFORM, 1, 1, &clipped)
    };
    let row = Row {
        script: b"find 15 v\nfind 25 v\nfind 35 v\nbetween 15 41 v\nplan v space 1/1 uniform\n",
        replies: b"hit 1 1\nend 1 read 2\nhit 1 1\nhit 2 1\nend 2 read 2\nhit 1 1\nend 1 read 1\nspan 1 15 40 1\nspan 2 20 30 1\nend 2 read 3\nplan 6 segments 1 space 2 full 2 horizon 40 cost 60\n",
    };
    expect_answers(rt.alloc(), &plan, row)
}
