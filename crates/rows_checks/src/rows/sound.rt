//! Archives whose plans are as they should be.
use rows_rig::{
    FIRST_PLAN, FOUR_CHANGES, Row, RowError, expect_check, expect_in_order, expect_rows, new_disk,
    verify,
};

#[test]
fn without_plans_there_is_nothing_to_check(rt: HostRuntime) -> Result<(), RowError> {
    let alloc = rt.alloc();
    expect_check(alloc, new_disk(alloc), 0, b"sound 0 0\n")?;
    expect_in_order(alloc, &[FOUR_CHANGES, verify(b"sound 0 0\n")])
}

/// The first plan with a check behind questions, and a check of what that run leaves.
const FIRST_PLAN_CHECKED: [Row<'static>; 2] = [
    Row {
        script: b"arrive 1 10 1\nv\narrive 2 20 1\nv\ndelete 2 30\ndelete 1 40\nplan v guarantee 1/1\nfind 15 v\nfind 25 v\nfind 40 v\nfind 5 v\ncertificate v\nverify\n",
        replies: b"ok 1\nok 2\nok 3\nok 4\nplan 5 segments 3 space 4 full 2 horizon 40\nhit 1 1\nend 1 read 1\nhit 1 1\nhit 2 1\nend 2 read 2\nend 0 read 0\nend 0 read 0\nsegment 10 20 1\nsegment 20 30 2\nsegment 30 40 1\nnode 10 0\nnode 20 1\nnode 30 3\nnode 40 4\nend 3 space 4\nsound 1 3\n",
    },
    Row {
        script: b"verify\n",
        replies: b"sound 1 3\n",
    },
];

// Also in the run that stores the plan, behind questions.
#[test]
fn a_plan_of_three_segments_is_sound(rt: HostRuntime) -> Result<(), RowError> {
    expect_in_order(rt.alloc(), &FIRST_PLAN_CHECKED)
}

/// A plan with a segment without postings, which takes no bytes, and is a segment.
const WITH_A_GAP: Row<'static> = Row {
    script: b"arrive 1 10 1\nv\ndelete 1 20\narrive 1 30 1\nv\ndelete 1 40\nplan v guarantee 100/1\nverify\n",
    replies: b"ok 1\nok 2\nok 3\nok 4\nplan 5 segments 3 space 2 full 2 horizon 40\nsound 1 3\n",
};

#[test]
fn a_segment_without_postings_counts(rt: HostRuntime) -> Result<(), RowError> {
    expect_rows(rt.alloc(), b"", &[WITH_A_GAP])
}

/// The first plan, and how it goes on.
const GOES_ON: [Row<'static>; 4] = [
    FOUR_CHANGES,
    FIRST_PLAN,
    // a plan's list ends at its horizon, so what comes later is none of its check
    Row {
        script: b"arrive 3 40 1\nv\nverify\n",
        replies: b"ok 6\nsound 1 3\n",
    },
    // a plan that was replaced isn't checked
    Row {
        script: b"delete 3 60\nplan v guarantee 1/1\nverify\nfind 45 v\n",
        replies: b"ok 7\nplan 8 segments 4 space 5 full 3 horizon 60\nsound 1 4\nhit 3 1\nend 1 read 1\n",
    },
];

#[test]
fn later_versions_and_a_new_plan_leave_it_sound(rt: HostRuntime) -> Result<(), RowError> {
    expect_in_order(rt.alloc(), &GOES_ON)
}

/// A plan under a space bound, which is checked without a certificate.
const BY_SPACE: [Row<'static>; 3] = [
    FOUR_CHANGES,
    Row {
        script: b"plan v space 1/1 uniform\n",
        replies: b"plan 5 segments 1 space 2 full 2 horizon 40 cost 60\n",
    },
    Row {
        script: b"certificate v\nverify\n",
        replies: b"no 14 NoPlan\nsound 1 1\n",
    },
];

#[test]
fn a_plan_under_a_space_bound_is_checked_without_a_certificate(
    rt: HostRuntime,
) -> Result<(), RowError> {
    expect_in_order(rt.alloc(), &BY_SPACE)
}
