//! The mark of a journal that may have batches.
use rows_rig::{
    FIRST_JOURNAL, MARKED_JOURNAL, Row, RowError, Run, expect_in_pieces, expect_runs, expect_shown,
    machine_after, new_disk,
};
use run_script::Status;

/// The mark, and the one arrival behind it.
const MARKED_FIRST: &[u8] = b"TIMETRAVELTEXT\x00\x01\
    \xa5\x00\x00\x00\x03\x05\x00\x02\
    \xa5\x00\x00\x00\x12\x01\x00\x00\x00\x07\x00\x00\x00\x00\x00\x00\x00\x0ared a\
    \x00";

/// Runs that come to their end.
const RUNS: [Run<'static>; 4] = [
    Run {
        before: FIRST_JOURNAL,
        script: b"format 2\n",
        status: Status::Done,
        replies: b"ok 2\n",
        after: MARKED_JOURNAL,
    },
    // there is one mark
    Run {
        before: MARKED_JOURNAL,
        script: b"format 2\n format  2 \n",
        status: Status::Done,
        replies: b"no 19 HasFormat\nno 19 HasFormat\n",
        after: MARKED_JOURNAL,
    },
    // the mark changes no document
    Run {
        before: b"",
        script: b"format 2\nfind 10 red\narrive 7 10 5\nred a\nformat 2\nfind 10 red\n",
        status: Status::Done,
        replies: b"ok 1\nend 0 read 0\nok 2\nno 19 HasFormat\nhit 7 1\nend 1 read 1\n",
        after: MARKED_FIRST,
    },
    // the number is spelled as it is
    Run {
        before: FIRST_JOURNAL,
        script: b"format 02\nformat 1\nformat\nformat 2 2\n",
        status: Status::Done,
        replies: b"no 1 Line\nno 1 Line\nno 1 Line\nno 1 Line\n",
        after: FIRST_JOURNAL,
    },
];

#[test]
fn a_journal_is_marked_once(rt: HostRuntime) -> Result<(), RowError> {
    expect_in_pieces(rt.alloc(), &RUNS)
}

/// Two marks.
const MARKED_TWICE: &[u8] = b"TIMETRAVELTEXT\x00\x01\
    \xa5\x00\x00\x00\x12\x01\x00\x00\x00\x07\x00\x00\x00\x00\x00\x00\x00\x0ared a\
    \xa5\x00\x00\x00\x03\x05\x00\x02\
    \xa5\x00\x00\x00\x03\x05\x00\x02\
    \x00";

/// A mark of another format.
const MARKED_OTHERWISE: &[u8] = b"TIMETRAVELTEXT\x00\x01\
    \xa5\x00\x00\x00\x12\x01\x00\x00\x00\x07\x00\x00\x00\x00\x00\x00\x00\x0ared a\
    \xa5\x00\x00\x00\x03\x05\x00\x03\
    \x00";

/// A mark whose number is cut short.
const MARKED_IN_PART: &[u8] = b"TIMETRAVELTEXT\x00\x01\
    \xa5\x00\x00\x00\x12\x01\x00\x00\x00\x07\x00\x00\x00\x00\x00\x00\x00\x0ared a\
    \xa5\x00\x00\x00\x02\x05\x00\
    \x00";

/// A mark with a byte behind its number.
const MARKED_WITH_MORE: &[u8] = b"TIMETRAVELTEXT\x00\x01\
    \xa5\x00\x00\x00\x12\x01\x00\x00\x00\x07\x00\x00\x00\x00\x00\x00\x00\x0ared a\
    \xa5\x00\x00\x00\x04\x05\x00\x02\x00\
    \x00";

/// A mark with the tag of a batch, which then is cut short in its number of acts.
const TAGGED_FOUR: &[u8] = b"TIMETRAVELTEXT\x00\x01\
    \xa5\x00\x00\x00\x12\x01\x00\x00\x00\x07\x00\x00\x00\x00\x00\x00\x00\x0ared a\
    \xa5\x00\x00\x00\x03\x04\x00\x02\
    \x00";

// A second mark shows at its gate, a mark that is misspelled at the field.
#[test]
fn a_mark_that_is_none_is_refused(rt: HostRuntime) -> Result<(), RowError> {
    let runs = [
        Run::untouched(MARKED_TWICE, Status::NotArchive { at: 47 }),
        Run::untouched(MARKED_OTHERWISE, Status::NotArchive { at: 45 }),
        Run::untouched(MARKED_IN_PART, Status::NotArchive { at: 45 }),
        Run::untouched(MARKED_WITH_MORE, Status::NotArchive { at: 47 }),
        Run::untouched(TAGGED_FOUR, Status::NotArchive { at: 45 }),
    ];
    expect_runs(rt.alloc(), &runs)
}

/// The mark among changes.
const AMONG_CHANGES: Row<'static> = Row {
    script: b"arrive 7 10 5\nred a\nformat 2\ndelete 7 20\n",
    replies: b"ok 1\nok 2\nok 3\n",
};

#[test]
fn a_stop_leaves_the_mark_where_it_was_acknowledged(rt: HostRuntime) -> Result<(), RowError> {
    let alloc = rt.alloc();
    let machine = machine_after(alloc, new_disk(alloc), &AMONG_CHANGES)?;
    expect_shown(alloc, &machine, 0)
}
