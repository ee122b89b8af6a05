//! The first rows of what is found as of a time.
use rows_rig::{Row, RowError, expect_rows};

/// Changes and questions on a new archive.
const TOPS: [Row<'static>; 5] = [
    // a word may have a weight, and the rows with the highest scores are the first
    Row {
        script: b"arrive 1 10 8\nred blue\narrive 2 10 7\nred red\narrive 3 10 5\ngreen\nfind 10 red^3 blue\ntop 1 10 red or green^5\nfind 10 red^1001\nfind 10 red^0\n",
        replies: b"ok 1\nok 2\nok 3\nhit 1 4\nend 1 read 3\nhit 3 5\nend 1 read 3\nno 11 BadQuery 0\nno 11 BadQuery 0\n",
    },
    // one row, all rows, and more than there are; the postings read are those for all
    Row {
        script: b"arrive 1 10 8\nred blue\narrive 2 10 7\nred red\narrive 3 10 5\ngreen\ntop 1 10 red\ntop 2 10 red\ntop 3 10 red\ntop 1000000 10 red\ntop 1 9 red\ntop 1 10 moon\n",
        replies: b"ok 1\nok 2\nok 3\nhit 2 2\nend 1 read 2\nhit 2 2\nhit 1 1\nend 2 read 2\nhit 2 2\nhit 1 1\nend 2 read 2\nhit 2 2\nhit 1 1\nend 2 read 2\nend 0 read 2\nend 0 read 0\n",
    },
    // of one score the earlier document comes first, also without any word
    Row {
        script: b"arrive 9 10 3\nred\narrive 5 10 7\nred red\narrive 3 10 3\nred\narrive 4 10 4\nblue\ntop 1 10 red\ntop 2 10 red\ntop 1 10 not moon\ntop 3 10 not red^7\n",
        replies: b"ok 1\nok 2\nok 3\nok 4\nhit 5 2\nend 1 read 3\nhit 5 2\nhit 3 1\nend 2 read 3\nhit 3 0\nend 1 read 0\nhit 4 0\nend 1 read 3\n",
    },
    // a text that is no query is refused, and a line with another count is none
    Row {
        script: b"arrive 1 10 3\nred\ntop 1 10 red or\ntop 7 10 red )\ntop 7 10 e-mail\ntop 0 10 red\ntop 1000001 10 red\ntop 10 red\n",
        replies: b"ok 1\nno 11 BadQuery 6\nno 11 BadQuery 4\nno 11 BadQuery 0\nno 1 Line\nno 1 Line\nno 1 Line\n",
    },
    // of a planned word the postings read are those of its segment
    Row {
        script: b"arrive 1 10 1\nv\narrive 2 20 1\nv\ndelete 2 30\ndelete 1 40\ntop 1 15 v\nplan v guarantee 1/1\ntop 1 15 v\ntop 1 25 v\ntop 2 25 v\ntop 1 40 v\n",
        replies: b"ok 1\nok 2\nok 3\nok 4\nhit 1 1\nend 1 read 2\nplan 5 segments 3 space 4 full 2 horizon 40\nhit 1 1\nend 1 read 1\nhit 1 1\nend 1 read 2\nhit 1 1\nhit 2 1\nend 2 read 2\nend 0 read 0\n",
    },
];

#[test]
fn the_first_rows_are_those_with_the_highest_scores(rt: HostRuntime) -> Result<(), RowError> {
    expect_rows(rt.alloc(), b"", &TOPS)
}
