//! What can't be planned under a space bound, and why.
use rows_rig::{FOUR_CHANGES, Row, RowError, expect_behind, expect_kept, expect_rows, first_disk};

#[test]
fn what_can_not_be_planned_is_refused_in_order(rt: HostRuntime) -> Result<(), RowError> {
    let rows = [
        // an archive without entries
        Row {
            script: b"plan x-y space 1/1 uniform\nplan x-y space 1/1 since 10\nplan ( space 2/1 uniform\nplan v space 1/1 uniform\nplan v space 1/1 since 10\n",
            replies: b"no 7 NotOneTerm\nno 7 NotOneTerm\nno 7 NotOneTerm\nno 13 UnknownWord\nno 13 UnknownWord\n",
        },
        // the one text of the word arrives at the last time
        Row {
            script: b"arrive 1 10 1\nv\nplan v space 1/1 uniform\nplan v space 4/1 since 0\nplan w space 1/1 uniform\nplan x-y space 1/1 uniform\n",
            replies: b"ok 1\nno 8 NothingSealed\nno 8 NothingSealed\nno 13 UnknownWord\nno 7 NotOneTerm\n",
        },
        // a posting before the last time is enough
        Row {
            script: b"arrive 1 0 1\nv\nplan v space 1/1 uniform\narrive 2 1 1\nw\nplan v space 1/1 uniform\nplan w space 1/1 uniform\n",
            replies: b"ok 1\nno 8 NothingSealed\nok 2\nplan 3 segments 1 space 1 full 1 horizon 1 cost 1\nno 8 NothingSealed\n",
        },
        // a word of which no document has a text any more is known, and has postings
        Row {
            script: b"arrive 1 10 1\nv\ndelete 1 20\narrive 2 40 1\nw\nplan v space 1/1 uniform\nplan w space 1/1 since 5\n",
            replies: b"ok 1\nok 2\nok 3\nplan 4 segments 2 space 1 full 1 horizon 40 cost 10\nno 8 NothingSealed\n",
        },
    ];
    expect_rows(rt.alloc(), b"", &rows)
}

#[test]
fn a_line_that_is_no_plan_is_no_command(rt: HostRuntime) -> Result<(), RowError> {
    let rows = [
        // no factor
        Row {
            script: b"plan v space 1/2 uniform\nplan v space 0/0 uniform\nplan v space 1/0 uniform\nplan v space 1 uniform\nplan v space 1 / 1 uniform\nplan v space 4294967296/1 uniform\nplan v space -1/1 uniform\n",
            replies: b"no 1 Line\nno 1 Line\nno 1 Line\nno 1 Line\nno 1 Line\nno 1 Line\nno 1 Line\n",
        },
        // no load
        Row {
            script: b"plan v space 1/1\nplan v space uniform\nplan v space 1/1 since\nplan v space 1/1 since x\nplan v space 1/1 since 1099511627776\nplan v space 1/1 uniform 10\nplan v space 1/1 since 10 20\nplan v space 1/1 Uniform\n",
            replies: b"no 1 Line\nno 1 Line\nno 1 Line\nno 1 Line\nno 1 Line\nno 1 Line\nno 1 Line\nno 1 Line\n",
        },
        // no word, or two
        Row {
            script: b"plan space 1/1 uniform\nplan v w space 1/1 uniform\n",
            replies: b"no 1 Line\nno 1 Line\n",
        },
        // a guarantee has no load, and what is proposed keeps to one
        Row {
            script: b"plan v guarantee 1/1 uniform\nplan v guarantee 1/1 since 10\npropose v space 1/1 uniform\n",
            replies: b"no 1 Line\nno 1 Line\nno 1 Line\n",
        },
    ];
    expect_behind(rt.alloc(), &[FOUR_CHANGES], &rows)
}

#[test]
fn a_refused_plan_leaves_the_disk_as_it_is(rt: HostRuntime) -> Result<(), RowError> {
    let alloc = rt.alloc();
    let disk = first_disk(alloc)?;
    let row = Row {
        script: b"plan x-y space 1/1 uniform\nplan moon space 1/1 since 30\nplan v space 1/2 uniform\n",
        replies: b"no 7 NotOneTerm\nno 13 UnknownWord\nno 1 Line\n",
    };
    expect_kept(alloc, &disk, &row)
}
