//! What is found over a window of time.
use rows_rig::{Row, RowError, expect_rows};

/// Questions over windows, on a new archive.
const WINDOWS: [Row<'static>; 7] = [
    // what is found over a window is its longest spans there
    Row {
        script: b"arrive 1 10 1\nv\narrive 2 20 1\nv\ndelete 2 30\ndelete 1 40\nbetween 15 35 v\nbetween 30 41 v\nbetween 41 30 v\nbetween 30 30 v\nbetween 10 20 red or\n",
        replies: b"ok 1\nok 2\nok 3\nok 4\nspan 1 15 35 1\nspan 2 20 30 1\nend 2 read 2\nspan 1 30 40 1\nend 1 read 2\nno 1 Line\nno 1 Line\nno 11 BadQuery 6\n",
    },
    // a version of the same score goes on, one of another score begins a span
    Row {
        script: b"arrive 7 10 5\nred a\narrive 7 20 7\nred bee\narrive 7 30 7\nred red\nbetween 0 40 red\nbetween 15 25 RED\nbetween 0 10 red\nbetween 0 40 moon\n",
        replies: b"ok 1\nok 2\nok 3\nspan 7 10 30 1\nspan 7 30 40 2\nend 2 read 2\nspan 7 15 25 1\nend 1 read 2\nend 0 read 2\nend 0 read 0\n",
    },
    // also where it has the score by another word
    Row {
        script: b"arrive 7 10 3\nred\narrive 7 20 4\nblue\nbetween 0 30 red or blue\n",
        replies: b"ok 1\nok 2\nspan 7 10 30 1\nend 1 read 2\n",
    },
    // a gap parts two; a window may be one second
    Row {
        script: b"arrive 7 10 3\nred\ndelete 7 20\narrive 7 30 3\nred\nbetween 0 40 red\nbetween 19 31 red\nbetween 19 20 red\nbetween 20 21 red\nbetween 29 30 red\nbetween 30 31 red\n",
        replies: b"ok 1\nok 2\nok 3\nspan 7 10 20 1\nspan 7 30 40 1\nend 2 read 2\nspan 7 19 20 1\nspan 7 30 31 1\nend 2 read 2\nspan 7 19 20 1\nend 1 read 2\nend 0 read 2\nend 0 read 2\nspan 7 30 31 1\nend 1 read 2\n",
    },
    // the last time ends the last window
    Row {
        script: b"arrive 7 10 3\nred\nbetween 0 1099511627775 red\nbetween 1099511627774 1099511627775 red\nbetween 0 1099511627776 red\nbetween 1970-01-01 1970-01-02 red\n",
        replies: b"ok 1\nspan 7 10 1099511627775 1\nend 1 read 1\nspan 7 1099511627774 1099511627775 1\nend 1 read 1\nno 1 Line\nspan 7 10 86400 1\nend 1 read 1\n",
    },
    // a whole query may be asked over a window
    // by document, and then by start
    Row {
        script: b"arrive 2 10 8\nred blue\narrive 1 20 3\nred\narrive 2 30 3\nred\nbetween 0 40 red or blue\nbetween 0 40 red blue\nbetween 0 40 red red\n",
        replies: b"ok 1\nok 2\nok 3\nspan 1 20 40 1\nspan 2 10 30 2\nspan 2 30 40 1\nend 3 read 3\nspan 2 10 30 2\nend 1 read 3\nspan 1 20 40 1\nspan 2 10 40 1\nend 2 read 2\n",
    },
    // what lacks a word is found while it is alive
    Row {
        script: b"arrive 1 10 4\nblue\narrive 2 20 3\nred\ndelete 1 30\narrive 2 40 5\ngreen\nbetween 0 50 not red\nbetween 0 50 not red blue\nbetween 0 50 red or blue\nbetween 20 40 not blue\n",
        replies: b"ok 1\nok 2\nok 3\nok 4\nspan 1 10 30 0\nspan 2 40 50 0\nend 2 read 1\nspan 1 10 30 1\nend 1 read 2\nspan 1 10 30 1\nspan 2 20 40 1\nend 2 read 2\nspan 2 20 40 0\nend 1 read 1\n",
    },
];

#[test]
fn what_is_found_over_a_window_is_its_longest_spans_there(rt: HostRuntime) -> Result<(), RowError> {
    expect_rows(rt.alloc(), b"", &WINDOWS)
}
