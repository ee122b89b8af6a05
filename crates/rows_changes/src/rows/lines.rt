//! Lines of the input: what is skipped, what is no command, dates, and texts of any bytes.
use rows_rig::{Row, RowError, expect_rows, join};

/// Scripts with their replies on a new archive.
const LINES: [Row<'static>; 9] = [
    // a line that is no command is refused, and the run goes on
    Row {
        script: b"arrive 7 10 5\nred a\nhello\nArrive 7 10 5\ndelete 7\ndelete 7 20 0\ndelete\t7 20\nfind 10\nfind 10 \xc3\x28\nshow 7 10 5\n # no comment\nfind 10 red",
        replies: b"ok 1\nno 1 Line\nno 1 Line\nno 1 Line\nno 1 Line\nno 1 Line\nno 1 Line\nno 1 Line\nno 1 Line\nno 1 Line\nhit 7 1\nend 1 read 1\n",
    },
    // the batch has the next line, and is one item
    Row {
        script: b"arrive 7 10 5\nred a\nbegin red guarantee 1/1\nformat 2\nbatch 1\ntop 1 10 red\nfind 10 red",
        replies: b"ok 1\nno 8 NothingSealed\nok 2\nno 16 BatchLine 1\nhit 7 1\nend 1 read 1\n",
    },
    // comments, blank lines, spaces and line ends
    Row {
        script: b"# note\n\narrive 7 2007-07-23 3\nred\nfind 1185148800 red\n",
        replies: b"ok 1\nhit 7 1\nend 1 read 1\n",
    },
    Row {
        script: b"#\r\n   \r\n  arrive  007   0010 05  \r\nred a\r\n find  10   red \r\nshow 7 10\r\n",
        replies: b"ok 1\nhit 7 1\nend 1 read 1\ntext 5\nred a\n",
    },
    // lines within a text are no lines
    Row {
        script: b"arrive 7 10 15\nred\n# a\nhello\r\n\nfind 10 hello",
        replies: b"ok 1\nhit 7 1\nend 1 read 1\n",
    },
    // a date is a day of the calendar from 1970 on
    Row {
        script: b"arrive 7 1970-01-02 3\nred\nfind 86400 red\nfind 86399 red\nfind 1969-12-31 red\nfind 2007-02-30 red\nfind 2100-02-29 red\nfind 2000-02-29 red\nfind 2000-2-29 red\n",
        replies: b"ok 1\nhit 7 1\nend 1 read 1\nend 0 read 1\nno 1 Line\nno 1 Line\nno 1 Line\nhit 7 1\nend 1 read 1\nno 1 Line\n",
    },
    // 29 February 2000 is day 11,016
    Row {
        script: b"arrive 7 2000-02-29 1\nx\narrive 7 951782400 1\nx\n",
        replies: b"ok 1\nno 3 SameTime\n",
    },
    // texts of any bytes are refused by the first cause
    Row {
        script: b"arrive 7 10 3\nred\narrive 8 5 3\nred\narrive 7 10 3\nred\narrive 9 5 2\n\xc3\x28\ndelete 8 10\ndelete 7 10\ndelete 7 9\n",
        replies: b"ok 1\nno 2 TimeBack 10\nno 3 SameTime\nno 6 BadText 0\nno 4 NoDocument\nno 3 SameTime\nno 2 TimeBack 10\n",
    },
    // a word is found in a text of any script: these are Straße and é
    Row {
        script: b"arrive 1 10 7\nStra\xc3\x9fe\narrive 2 10 2\n\xc3\xa9\nfind 10 STRASSE\nshow 2 10\n",
        replies: b"ok 1\nok 2\nhit 1 1\nend 1 read 1\ntext 2\n\xc3\xa9\n",
    },
];

#[test]
fn each_line_is_skipped_refused_or_carried_out(rt: HostRuntime) -> Result<(), RowError> {
    expect_rows(rt.alloc(), b"", &LINES)
}

#[test]
fn a_text_above_the_limit_is_passed_over(rt: HostRuntime) -> Result<(), RowError> {
    let alloc = rt.alloc();
    let text = vec![in alloc; b'x'; 4_194_305]?;
    let script = join(alloc, &[b"arrive 7 9 4194305\n", &text, b"\nhello\n"])?;
    let row = Row {
        script: &script,
        replies: b"no 5 TooLong 4194304\nno 1 Line\n",
    };
    expect_rows(alloc, b"", &[row])
}
