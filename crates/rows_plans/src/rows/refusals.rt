//! What can't be planned or certified, and why.
use machine_model::Image;
use rows_rig::{
    FIRST_JOURNAL, FIRST_PLAN, FOUR_CHANGES, Row, RowError, expect_behind, expect_kept,
    expect_rows, first_disk,
};

// The word of the one text arrived at the last time.
#[test]
fn a_refused_plan_leaves_the_disk_as_it_is(rt: HostRuntime) -> Result<(), RowError> {
    let alloc = rt.alloc();
    let disk = Image {
        journal: Vec::from_slice(alloc, FIRST_JOURNAL)?,
        pages: Vec::new(alloc),
    };
    let row = Row {
        script: b"plan red guarantee 1/1\nplan moon guarantee 1/1\nplan e-mail guarantee 1/1\nplan red guarantee 1/2\ncertificate red\ncertificate moon\ncertificate e-mail\nhello\n",
        replies: b"no 8 NothingSealed\nno 13 UnknownWord\nno 7 NotOneTerm\nno 1 Line\nno 14 NoPlan\nno 13 UnknownWord\nno 7 NotOneTerm\nno 1 Line\n",
    };
    expect_kept(alloc, &disk, &row)
}

#[test]
fn a_factor_is_a_fraction_of_at_least_one(rt: HostRuntime) -> Result<(), RowError> {
    let alloc = rt.alloc();
    let disk = first_disk(alloc)?;
    let row = Row {
        script: b"plan v guarantee 1/2\nplan v guarantee 0/0\nplan v guarantee 1/0\nplan v guarantee 1\nplan v guarantee 1 / 1\nplan v guarantee 4294967296/1\nplan v guarantee -1/1\nplan v 1/1\nplan v guarantee\nplan guarantee 1/1\nplan v w guarantee 1/1\nplan\ncertificate\ncertificate v w\n",
        replies: b"no 1 Line\nno 1 Line\nno 1 Line\nno 1 Line\nno 1 Line\nno 1 Line\nno 1 Line\nno 1 Line\nno 1 Line\nno 1 Line\nno 1 Line\nno 1 Line\nno 1 Line\nno 1 Line\n",
    };
    expect_kept(alloc, &disk, &row)
}

/// The greatest factors.
const FACTORS: Row<'static> = Row {
    script: b"plan v guarantee 4294967295/4294967295\nplan v guarantee 4294967295/1\n",
    replies: b"plan 6 segments 3 space 4 full 2 horizon 40\nplan 7 segments 1 space 2 full 2 horizon 40\n",
};

#[test]
fn a_factor_may_have_the_greatest_numbers(rt: HostRuntime) -> Result<(), RowError> {
    expect_behind(rt.alloc(), &[FOUR_CHANGES, FIRST_PLAN], &[FACTORS])
}

#[test]
fn what_can_not_be_planned_is_refused_in_order(rt: HostRuntime) -> Result<(), RowError> {
    let rows = [
        // an archive without entries
        Row {
            script: b"plan v guarantee 1/1\nplan ( guarantee 1/1\ncertificate v\ncertificate (\n",
            replies: b"no 13 UnknownWord\nno 7 NotOneTerm\nno 13 UnknownWord\nno 7 NotOneTerm\n",
        },
        // a posting before the last time is enough
        Row {
            script: b"arrive 1 0 1\nv\nplan v guarantee 1/1\narrive 2 1 1\nv\nplan v guarantee 1/1\ncertificate v\n",
            replies: b"ok 1\nno 8 NothingSealed\nok 2\nplan 3 segments 1 space 1 full 1 horizon 1\nsegment 0 1 1\nnode 0 0\nnode 1 1\nend 1 space 1\n",
        },
        // a word of which no document has a text any more is known, and has postings
        Row {
            script: b"arrive 1 10 1\nv\ndelete 1 20\narrive 2 40 1\nw\nplan v guarantee 1/1\nplan w guarantee 1/1\ncertificate w\ncertificate v\n",
            replies: b"ok 1\nok 2\nok 3\nplan 4 segments 2 space 1 full 1 horizon 40\nno 8 NothingSealed\nno 14 NoPlan\nsegment 10 20 1\nsegment 20 40 0\nnode 10 0\nnode 20 1\nnode 40 1\nend 2 space 1\n",
        },
    ];
    expect_rows(rt.alloc(), b"", &rows)
}
