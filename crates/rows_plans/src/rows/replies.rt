//! What is answered: plans, their certificates, and questions of planned words.
use rows_rig::{
    FIRST_CERTIFICATE, FIRST_PLAN, FOUR_CHANGES, Row, RowError, expect_behind, expect_in_order,
    expect_rows,
};

/// Plans in the runs that store them, on a new archive.
const STORED: [Row<'static>; 2] = [
    // a planned word is found and its plan is certified
    Row {
        script: b"arrive 1 10 1\nv\narrive 2 20 1\nv\ndelete 2 30\ndelete 1 40\nplan v guarantee 1/1\nfind 15 v\nfind 25 v\nfind 40 v\nfind 5 v\ncertificate v\n",
        replies: b"ok 1\nok 2\nok 3\nok 4\nplan 5 segments 3 space 4 full 2 horizon 40\nhit 1 1\nend 1 read 1\nhit 1 1\nhit 2 1\nend 2 read 2\nend 0 read 0\nend 0 read 0\nsegment 10 20 1\nsegment 20 30 2\nsegment 30 40 1\nnode 10 0\nnode 20 1\nnode 30 3\nnode 40 4\nend 3 space 4\n",
    },
    // a gap is a segment without postings
    Row {
        script: b"arrive 1 10 1\nv\ndelete 1 20\narrive 1 30 1\nv\ndelete 1 40\nplan v guarantee 100/1\nfind 25 v\nfind 30 v\ncertificate v\n",
        replies: b"ok 1\nok 2\nok 3\nok 4\nplan 5 segments 3 space 2 full 2 horizon 40\nend 0 read 0\nhit 1 1\nend 1 read 1\nsegment 10 20 1\nsegment 20 30 0\nsegment 30 40 1\nnode 10 0\nnode 20 1\nnode 30 1\nnode 40 2\nend 3 space 2\n",
    },
];

#[test]
fn a_plan_is_answered_from_in_the_run_that_stores_it(rt: HostRuntime) -> Result<(), RowError> {
    expect_rows(rt.alloc(), b"", &STORED)
}

#[test]
fn the_same_is_answered_when_it_is_loaded(rt: HostRuntime) -> Result<(), RowError> {
    let front = [FOUR_CHANGES, FIRST_PLAN];
    let rows = [
        Row {
            script: b"find 15 v\nfind 25 v\nfind 40 v\nfind 5 v\nfind 39 v\n",
            replies: b"hit 1 1\nend 1 read 1\nhit 1 1\nhit 2 1\nend 2 read 2\nend 0 read 0\nend 0 read 0\nhit 1 1\nend 1 read 1\n",
        },
        Row {
            script: b"certificate v\n",
            replies: FIRST_CERTIFICATE,
        },
        // a word in any case
        Row {
            script: b"certificate V\n",
            replies: FIRST_CERTIFICATE,
        },
        Row {
            script: b"plan V guarantee 1/1\n",
            replies: b"plan 6 segments 3 space 4 full 2 horizon 40\n",
        },
        Row {
            script: b"between 15 35 v\nbetween 30 41 v\nbetween 41 30 v\n",
            replies: b"span 1 15 35 1\nspan 2 20 30 1\nend 2 read 4\nspan 1 30 40 1\nend 1 read 1\nno 1 Line\n",
        },
        // what is proposed is of the whole list
        Row {
            script: b"propose v guarantee 2/1\n",
            replies: b"segment 10 40 2\nnode 10 0\nnode 20 1\nnode 30 2\nnode 40 2\nend 1 space 2\n",
        },
        // a span goes on over the horizon
        Row {
            script: b"arrive 3 40 1\nv\nbetween 35 45 v\n",
            replies: b"ok 6\nspan 1 35 40 1\nspan 3 40 45 1\nend 2 read 2\n",
        },
    ];
    expect_behind(rt.alloc(), &front, &rows)
}

#[test]
fn the_factor_decides_what_is_least(rt: HostRuntime) -> Result<(), RowError> {
    let front = [FOUR_CHANGES];
    let rows = [
        // the boundaries shown are those of the list
        Row {
            script: b"plan v guarantee 2/1\nfind 15 v\ncertificate v\n",
            replies: b"plan 5 segments 1 space 2 full 2 horizon 40\nhit 1 1\nend 1 read 2\nsegment 10 40 2\nnode 10 0\nnode 20 1\nnode 30 2\nnode 40 2\nend 1 space 2\n",
        },
        Row {
            script: b"plan v guarantee 3/2\ncertificate v\n",
            replies: b"plan 5 segments 3 space 4 full 2 horizon 40\nsegment 10 20 1\nsegment 20 30 2\nsegment 30 40 1\nnode 10 0\nnode 20 1\nnode 30 3\nnode 40 4\nend 3 space 4\n",
        },
        // nothing is stored of what is proposed
        Row {
            script: b"propose v guarantee 2/1\ncertificate v\nplan v guarantee 4/2\npropose v guarantee 1/1\ncertificate v\n",
            replies: b"segment 10 40 2\nnode 10 0\nnode 20 1\nnode 30 2\nnode 40 2\nend 1 space 2\nno 14 NoPlan\nplan 5 segments 1 space 2 full 2 horizon 40\nsegment 10 20 1\nsegment 20 30 2\nsegment 30 40 1\nnode 10 0\nnode 20 1\nnode 30 3\nnode 40 4\nend 3 space 4\nsegment 10 40 2\nnode 10 0\nnode 20 1\nnode 30 2\nnode 40 2\nend 1 space 2\n",
        },
    ];
    expect_behind(rt.alloc(), &front, &rows)
}

#[test]
fn a_plan_is_replaced_by_later_ones(rt: HostRuntime) -> Result<(), RowError> {
    let rows = [
        FOUR_CHANGES,
        FIRST_PLAN,
        Row {
            script: b"arrive 3 40 1\nv\nfind 39 v\nfind 40 v\ndelete 3 60\nplan v guarantee 1/1\nfind 45 v\n",
            replies: b"ok 6\nhit 1 1\nend 1 read 1\nhit 3 1\nend 1 read 1\nok 7\nplan 8 segments 4 space 5 full 3 horizon 60\nhit 3 1\nend 1 read 1\n",
        },
        Row {
            script: b"arrive 4 70 1\nv\nplan v guarantee 1/1\n",
            replies: b"ok 9\nplan 10 segments 5 space 5 full 3 horizon 70\n",
        },
        Row {
            script: b"certificate v\nfind 15 v\nfind 45 v\nfind 65 v\nfind 70 v\nbetween 25 71 v\n",
            replies: b"segment 10 20 1\nsegment 20 30 2\nsegment 30 40 1\nsegment 40 60 1\nsegment 60 70 0\nnode 10 0\nnode 20 1\nnode 30 3\nnode 40 4\nnode 60 5\nnode 70 5\nend 5 space 5\nhit 1 1\nend 1 read 1\nhit 3 1\nend 1 read 1\nend 0 read 0\nhit 4 1\nend 1 read 1\nspan 1 25 40 1\nspan 2 25 30 1\nspan 3 40 60 1\nspan 4 70 71 1\nend 4 read 5\n",
        },
    ];
    expect_in_order(rt.alloc(), &rows)
}

#[test]
fn a_certificate_stays_as_it_was_while_documents_change(rt: HostRuntime) -> Result<(), RowError> {
    let rows = [
        FOUR_CHANGES,
        FIRST_PLAN,
        Row {
            script: b"arrive 3 40 1\nv\narrive 1 50 1\nv\ndelete 3 60\n",
            replies: b"ok 6\nok 7\nok 8\n",
        },
        Row {
            script: b"certificate v\n",
            replies: FIRST_CERTIFICATE,
        },
    ];
    expect_in_order(rt.alloc(), &rows)
}

// Document 1 has the word in [10, ..), and the plan's list is clipped at its horizon.
#[test]
fn what_is_open_at_the_horizon_goes_on(rt: HostRuntime) -> Result<(), RowError> {
    let rows = [
        Row {
            script: b"arrive 1 10 1\nv\narrive 2 20 1\nw\nplan v guarantee 1/1\nbetween 15 25 v\n",
            replies: b"ok 1\nok 2\nplan 3 segments 1 space 1 full 1 horizon 20\nspan 1 15 25 1\nend 1 read 2\n",
        },
        Row {
            script: b"certificate v\nfind 19 v\nfind 20 v\n",
            replies: b"segment 10 20 1\nnode 10 0\nnode 20 1\nend 1 space 1\nhit 1 1\nend 1 read 1\nhit 1 1\nend 1 read 1\n",
        },
        // one posting in two parts is one
        Row {
            script: b"propose v guarantee 1/1\ndelete 1 30\nplan v guarantee 1/1\ncertificate v\n",
            replies: b"segment 10 20 1\nnode 10 0\nnode 20 1\nend 1 space 1\nok 4\nplan 5 segments 1 space 1 full 1 horizon 30\nsegment 10 30 1\nnode 10 0\nnode 30 1\nend 1 space 1\n",
        },
    ];
    expect_in_order(rt.alloc(), &rows)
}

#[test]
fn each_word_has_a_plan_of_its_own(rt: HostRuntime) -> Result<(), RowError> {
    let rows = [
        Row {
            script: b"arrive 1 10 3\nv w\narrive 2 20 1\nw\ndelete 1 30\nplan v guarantee 1/1\ncertificate w\nplan w guarantee 2/1\n",
            replies: b"ok 1\nok 2\nok 3\nplan 4 segments 1 space 1 full 1 horizon 30\nno 14 NoPlan\nplan 5 segments 1 space 2 full 2 horizon 30\n",
        },
        Row {
            script: b"certificate v\ncertificate w\nfind 25 v\nfind 25 w\nfind 25 v w\n",
            replies: b"segment 10 30 1\nnode 10 0\nnode 30 1\nend 1 space 1\nsegment 10 30 2\nnode 10 0\nnode 20 1\nnode 30 2\nend 1 space 2\nhit 1 1\nend 1 read 1\nhit 1 1\nhit 2 1\nend 2 read 2\nhit 1 2\nend 1 read 3\n",
        },
    ];
    expect_in_order(rt.alloc(), &rows)
}

// The same in one run, and each change in a run of its own.
#[test]
fn runs_may_end_between_any_two_commands(rt: HostRuntime) -> Result<(), RowError> {
    let rows = [
        FOUR_CHANGES,
        FIRST_PLAN,
        Row {
            script: b"arrive 3 40 1\nv\n",
            replies: b"ok 6\n",
        },
        Row {
            script: b"delete 3 60\n",
            replies: b"ok 7\n",
        },
        Row {
            script: b"plan v guarantee 1/1\n",
            replies: b"plan 8 segments 4 space 5 full 3 horizon 60\n",
        },
        Row {
            script: b"plan v guarantee 1/1\n",
            replies: b"plan 9 segments 4 space 5 full 3 horizon 60\n",
        },
        Row {
            script: b"arrive 4 70 1\nv\n",
            replies: b"ok 10\n",
        },
        Row {
            script: b"plan v guarantee 1/1\nfind 15 v\n",
            replies: b"plan 11 segments 5 space 5 full 3 horizon 70\nhit 1 1\nend 1 read 1\n",
        },
    ];
    expect_in_order(rt.alloc(), &rows)
}
