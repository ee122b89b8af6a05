//! Plans that take the place of plans of another kind, and lists that go on.
use crate::rows::spaces::plans::{BY_ONE, QUESTIONS};
use rows_rig::{FOUR_CHANGES, Row, RowError, expect_behind, expect_in_order};

/// A plan with the bound 1/1 behind the four changes.
const ONE_SEGMENT: Row<'static> = Row {
    script: b"plan v space 1/1 uniform\n",
    replies: b"plan 5 segments 1 space 2 full 2 horizon 40 cost 60\n",
};

// Each plan in a run of its own, which begins with the one before it. What is proposed doesn't go by what is stored.
#[test]
fn each_kind_takes_the_place_of_each_other(rt: HostRuntime) -> Result<(), RowError> {
    let rows = [
        FOUR_CHANGES,
        Row {
            script: b"plan v guarantee 1/1\nfind 15 v\n",
            replies: b"plan 5 segments 3 space 4 full 2 horizon 40\nhit 1 1\nend 1 read 1\n",
        },
        Row {
            script: b"find 15 v\nplan v space 1/1 uniform\ncertificate v\nfind 15 v\n",
            replies: b"hit 1 1\nend 1 read 1\nplan 6 segments 1 space 2 full 2 horizon 40 cost 60\nno 14 NoPlan\nhit 1 1\nend 1 read 2\n",
        },
        Row {
            script: b"find 35 v\nplan v space 3/2 since 30\ncertificate v\nfind 15 v\nfind 35 v\n",
            replies: b"hit 1 1\nend 1 read 2\nplan 7 segments 2 space 3 full 2 horizon 40 cost 10\nno 14 NoPlan\nhit 1 1\nend 1 read 2\nhit 1 1\nend 1 read 1\n",
        },
        Row {
            script: b"plan v space 2/1 uniform\ncertificate v\nfind 15 v\n",
            replies: b"plan 8 segments 3 space 4 full 2 horizon 40 cost 40\nno 14 NoPlan\nhit 1 1\nend 1 read 1\n",
        },
        Row {
            script: b"plan v guarantee 2/1\ncertificate v\nfind 15 v\n",
            replies: b"plan 9 segments 1 space 2 full 2 horizon 40\nsegment 10 40 2\nnode 10 0\nnode 20 1\nnode 30 2\nnode 40 2\nend 1 space 2\nhit 1 1\nend 1 read 2\n",
        },
        Row {
            script: b"plan v space 1/1 since 30\ncertificate v\npropose v guarantee 2/1\n",
            replies: b"plan 10 segments 1 space 2 full 2 horizon 40 cost 20\nno 14 NoPlan\nsegment 10 40 2\nnode 10 0\nnode 20 1\nnode 30 2\nnode 40 2\nend 1 space 2\n",
        },
        Row {
            script: QUESTIONS,
            replies: BY_ONE,
        },
    ];
    expect_in_order(rt.alloc(), &rows)
}

#[test]
fn the_same_comes_of_it_in_one_run(rt: HostRuntime) -> Result<(), RowError> {
    let rows = [Row {
        script: b"plan v space 1/1 uniform\nplan v guarantee 1/1\ncertificate v\nfind 15 v\nplan v space 3/2 since 30\nfind 15 v\nfind 35 v\nplan v space 1/1 uniform\nfind 35 v\ncertificate v\n",
        replies: b"plan 5 segments 1 space 2 full 2 horizon 40 cost 60\nplan 6 segments 3 space 4 full 2 horizon 40\nsegment 10 20 1\nsegment 20 30 2\nsegment 30 40 1\nnode 10 0\nnode 20 1\nnode 30 3\nnode 40 4\nend 3 space 4\nhit 1 1\nend 1 read 1\nplan 7 segments 2 space 3 full 2 horizon 40 cost 10\nhit 1 1\nend 1 read 2\nhit 1 1\nend 1 read 1\nplan 8 segments 1 space 2 full 2 horizon 40 cost 60\nhit 1 1\nend 1 read 2\nno 14 NoPlan\n",
    }];
    expect_behind(rt.alloc(), &[FOUR_CHANGES], &rows)
}

// Document 3 has the word in [40, 60). What lies behind the horizon is read beside the segment, and the next plan has
// two segments, which meet where no life is cut.
#[test]
fn a_list_goes_on_behind_the_horizon(rt: HostRuntime) -> Result<(), RowError> {
    let rows = [
        FOUR_CHANGES,
        ONE_SEGMENT,
        Row {
            script: b"arrive 3 40 1\nv\nfind 39 v\nfind 40 v\nbetween 35 45 v\ndelete 3 60\n",
            replies: b"ok 6\nhit 1 1\nend 1 read 2\nhit 3 1\nend 1 read 1\nspan 1 35 40 1\nspan 3 40 45 1\nend 2 read 3\nok 7\n",
        },
        Row {
            script: b"find 39 v\nfind 45 v\nplan v space 1/1 uniform\nfind 15 v\nfind 45 v\n",
            replies: b"hit 1 1\nend 1 read 2\nhit 3 1\nend 1 read 1\nplan 8 segments 2 space 3 full 3 horizon 60 cost 80\nhit 1 1\nend 1 read 2\nhit 3 1\nend 1 read 1\n",
        },
        Row {
            script: b"plan v space 1/1 since 40\nfind 15 v\nbetween 35 45 v\nfind 60 v\n",
            replies: b"plan 9 segments 2 space 3 full 3 horizon 60 cost 20\nhit 1 1\nend 1 read 2\nspan 1 35 40 1\nspan 3 40 45 1\nend 2 read 3\nend 0 read 0\n",
        },
    ];
    expect_in_order(rt.alloc(), &rows)
}

// Document 1 has the word in [10, ..), and the plan's list is clipped at its horizon.
#[test]
fn what_is_open_at_the_horizon_goes_on(rt: HostRuntime) -> Result<(), RowError> {
    let rows = [
        Row {
            script: b"arrive 1 10 1\nv\narrive 2 20 1\nw\nplan v space 1/1 uniform\nbetween 15 25 v\n",
            replies: b"ok 1\nok 2\nplan 3 segments 1 space 1 full 1 horizon 20 cost 10\nspan 1 15 25 1\nend 1 read 2\n",
        },
        Row {
            script: b"find 19 v\nfind 20 v\ndelete 1 30\nplan v space 1/1 uniform\n",
            replies: b"hit 1 1\nend 1 read 1\nhit 1 1\nend 1 read 1\nok 4\nplan 5 segments 1 space 1 full 1 horizon 30 cost 20\n",
        },
    ];
    expect_in_order(rt.alloc(), &rows)
}
