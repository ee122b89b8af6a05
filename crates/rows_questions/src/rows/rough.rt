//! What is told approximately: of a word's list, and of what is found as of a time.
use rows_rig::{Row, RowError, expect_rows};

/// Changes and questions on a new archive.
const ROUGH: [Row<'static>; 12] = [
    // neighbours are joined where one frequency is near all of them, and the least such one is told
    Row {
        script: b"arrive 1 10 7\nv v v v\narrive 1 20 9\nv v v v v\narrive 1 30 11\nv v v v v v\ndelete 1 40\napprox v 1/4\napprox v 1/5\n",
        replies: b"ok 1\nok 2\nok 3\nok 4\napprox 1 10 40 5\nend 1 of 3\napprox 1 10 30 4\napprox 1 30 40 5\nend 2 of 3\n",
    },
    // a score by these is near the true one; the whole of it is no tolerance
    Row {
        script: b"arrive 1 10 7\nv v v v\narrive 1 20 9\nv v v v v\narrive 1 30 11\nv v v v v v\ndelete 1 40\nrough 1/4 15 v\nfind 15 v\napprox v 1/1\n",
        replies: b"ok 1\nok 2\nok 3\nok 4\nnear 1 5\nend 1 read 3\nhit 1 4\nend 1 read 3\nno 1 Line\n",
    },
    // within a tolerance of 0 the list is the word's own, and the rows are those of find
    Row {
        script: b"arrive 1 10 7\nv v v v\narrive 1 20 9\nv v v v v\narrive 1 30 11\nv v v v v v\ndelete 1 40\napprox v 0/1\nrough 0/7 15 v\nrough 0/7 35 v\nrough 0/1 40 v\n",
        replies: b"ok 1\nok 2\nok 3\nok 4\napprox 1 10 20 4\napprox 1 20 30 5\napprox 1 30 40 6\nend 3 of 3\nnear 1 4\nend 1 read 3\nnear 1 6\nend 1 read 3\nend 0 read 3\n",
    },
    // nothing is joined over a time at which the document isn't there, or with another document
    Row {
        script: b"arrive 1 10 7\nv v v v\ndelete 1 20\narrive 1 30 7\nv v v v\narrive 2 30 7\nv v v v\napprox v 9/10\nrough 9/10 25 v\nrough 9/10 30 v\n",
        replies: b"ok 1\nok 2\nok 3\nok 4\napprox 1 10 20 1\napprox 1 30 1099511627776 1\napprox 2 30 1099511627776 1\nend 3 of 3\nend 0 read 3\nnear 1 1\nnear 2 1\nend 2 read 3\n",
    },
    // what is refused
    Row {
        script: b"approx v 1/4\nrough 1/4 10 v\narrive 1 10 1\nv\napprox e-mail 1/4\napprox moon 1/4\napprox v 4/4\napprox v 1\napprox 1/4\nrough 1/4 10 v or\nrough 1/4 10 e-mail\nrough 4/4 10 v\nrough 10 v\nrough 1/4 v\n",
        replies: b"no 13 UnknownWord\nend 0 read 0\nok 1\nno 7 NotOneTerm\nno 13 UnknownWord\nno 1 Line\nno 1 Line\nno 1 Line\nno 11 BadQuery 4\nno 11 BadQuery 0\nno 1 Line\nno 1 Line\nno 1 Line\n",
    },
    // rows stand in the order of the scores that are told
    Row {
        script: b"arrive 1 10 5\nv v v\narrive 2 10 7\nv v v v\narrive 3 10 1\nx\nfind 10 v\nrough 1/4 10 v\n",
        replies: b"ok 1\nok 2\nok 3\nhit 2 4\nhit 1 3\nend 2 read 2\nnear 1 3\nnear 2 3\nend 2 read 2\n",
    },
    // weights are of the frequencies that are told, and what a query lacks is what it lacks
    Row {
        script: b"arrive 1 10 5\nv v v\narrive 2 10 7\nv v v v\narrive 3 10 1\nx\nrough 1/4 10 v^2 or x^9\nrough 1/4 10 not v\nrough 1/4 10 not v^5 or x\nrough 1/4 10 v not x\nrough 1/4 10 moon\nrough 1/4 9 not moon\n",
        replies: b"ok 1\nok 2\nok 3\nnear 3 9\nnear 1 6\nnear 2 6\nend 3 read 3\nnear 3 0\nend 1 read 2\nnear 3 1\nend 1 read 3\nnear 1 3\nnear 2 3\nend 2 read 3\nend 0 read 0\nend 0 read 0\n",
    },
    // of a planned word all its segments are read, at whatever time
    Row {
        script: b"arrive 1 10 1\nv\narrive 2 20 1\nv\ndelete 2 30\ndelete 1 40\nrough 0/1 15 v\nplan v guarantee 1/1\nrough 0/1 15 v\nrough 0/1 25 v\nrough 0/1 5 v\nfind 15 v\napprox v 0/1\n",
        replies: b"ok 1\nok 2\nok 3\nok 4\nnear 1 1\nend 1 read 2\nplan 5 segments 3 space 4 full 2 horizon 40\nnear 1 1\nend 1 read 4\nnear 1 1\nnear 2 1\nend 2 read 4\nend 0 read 4\nhit 1 1\nend 1 read 1\napprox 1 10 40 1\napprox 2 20 30 1\nend 2 of 2\n",
    },
    // and what it has in memory from the horizon on
    Row {
        script: b"arrive 1 10 1\nv\narrive 2 20 1\nv\ndelete 2 30\ndelete 1 40\nplan v guarantee 1/1\narrive 3 50 1\nv\nrough 0/1 15 v\nrough 0/1 50 v\nrough 0/1 15 v or moon\napprox v 0/1\n",
        replies: b"ok 1\nok 2\nok 3\nok 4\nplan 5 segments 3 space 4 full 2 horizon 40\nok 6\nnear 1 1\nend 1 read 5\nnear 3 1\nend 1 read 5\nnear 1 1\nend 1 read 5\napprox 1 10 40 1\napprox 2 20 30 1\napprox 3 50 1099511627776 1\nend 3 of 3\n",
    },
    // postings are joined over the horizon
    Row {
        script: b"arrive 1 10 7\nv v v v\narrive 1 20 9\nv v v v v\narrive 2 30 1\nx\nplan v guarantee 1/1\narrive 1 40 11\nv v v v v v\nrough 1/4 15 v\nrough 1/4 45 v\nrough 1/5 15 v\nrough 1/5 35 v\nrough 1/5 45 v\nrough 0/1 35 v\n",
        replies: b"ok 1\nok 2\nok 3\nplan 4 segments 2 space 2 full 2 horizon 30\nok 5\nnear 1 5\nend 1 read 4\nnear 1 5\nend 1 read 4\nnear 1 4\nend 1 read 4\nnear 1 4\nend 1 read 4\nnear 1 5\nend 1 read 4\nnear 1 5\nend 1 read 4\n",
    },
    // a document whose postings lie behind the horizon may stand before one of the segments
    Row {
        script: b"arrive 5 10 1\nv\narrive 9 20 1\nx\nplan v guarantee 1/1\narrive 2 30 3\nv v\nrough 0/1 15 v\nrough 0/1 30 v\nrough 0/1 30 v not x\n",
        replies: b"ok 1\nok 2\nplan 3 segments 1 space 1 full 1 horizon 20\nok 4\nnear 5 1\nend 1 read 3\nnear 2 2\nnear 5 1\nend 2 read 3\nnear 2 2\nnear 5 1\nend 2 read 4\n",
    },
    // a plan under a space bound too
    Row {
        script: b"arrive 1 10 1\nv\narrive 2 20 1\nv\ndelete 2 30\ndelete 1 40\nplan v space 1/1 uniform\nrough 1/2 15 v\nrough 1/2 25 v\n",
        replies: b"ok 1\nok 2\nok 3\nok 4\nplan 5 segments 1 space 2 full 2 horizon 40 cost 60\nnear 1 1\nend 1 read 2\nnear 1 1\nnear 2 1\nend 2 read 2\n",
    },
];

#[test]
fn what_is_told_approximately_is_near(rt: HostRuntime) -> Result<(), RowError> {
    expect_rows(rt.alloc(), b"", &ROUGH)
}
