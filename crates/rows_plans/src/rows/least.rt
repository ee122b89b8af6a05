//! Plans that take more space than they have to.
use rows_rig::{
    LIFE_OF_1, LIVES_OF_1_AND_2, Plan, Row, RowError, UNIFORM, disk_with, disk_with_bytes,
    expect_check, expect_planned, first_segments, plan_of_v, segment_at, verify,
};

/// The certificate shows the cuts that are stored, their space, and the least spaces beside them.
const CERTIFICATE: Row<'static> = Row {
    script: b"certificate v\n",
    replies: b"segment 10 20 1\nsegment 20 30 2\nsegment 30 40 1\nnode 10 0\nnode 20 1\nnode 30 2\nnode 40 2\nend 3 space 4\n",
};

// With the factor 2 one segment of 2 postings keeps the guarantee. The load asks only that a plan keeps it.
#[test]
fn a_plan_that_takes_too_much_is_told_with_both_spaces(rt: HostRuntime) -> Result<(), RowError> {
    let three = first_segments();
    let two = [
        segment_at(10, 0, LIVES_OF_1_AND_2),
        segment_at(30, 1, LIFE_OF_1),
    ];
    let one = [segment_at(10, 0, LIVES_OF_1_AND_2)];
    let by_three = plan_of_v(40, &three);
    let by_one = plan_of_v(40, &one);
    let twice = Plan {
        over: 2,
        ..by_three
    };
    let rows = [
        (twice, verify(b"notleast v 4 2\n")),
        (twice, CERTIFICATE),
        (
            Plan {
                over: 2,
                ..plan_of_v(40, &two)
            },
            verify(b"notleast v 3 2\n"),
        ),
        (Plan { over: 2, ..by_one }, verify(b"sound 1 1\n")),
        (
            Plan {
                over: 3,
                under: 2,
                ..by_three
            },
            verify(b"sound 1 3\n"),
        ),
        // under the bound of 4 postings three segments are best; that a plan under a space bound is best isn't asked
        (
            Plan {
                kind: UNIFORM,
                over: 2,
                ..by_one
            },
            verify(b"sound 1 1\n"),
        ),
    ];
    expect_planned(rt.alloc(), &rows)
}

#[test]
fn a_byte_that_differs_is_told_before_a_space(rt: HostRuntime) -> Result<(), RowError> {
    let alloc = rt.alloc();
    let segments = first_segments();
    let plan = Plan {
        over: 2,
        ..plan_of_v(40, &segments)
    };
    let disk = disk_with(alloc, &plan)?;
    let changed = disk_with_bytes(alloc, &disk, &[(8192, 0x0f)])?;
    expect_check(alloc, changed, 0, b"differs v 2 0 0f 01\n")
}
