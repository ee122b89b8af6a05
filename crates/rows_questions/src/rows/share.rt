//! How a budget is shared among words, by the times that were asked for them in this run.
use rows_rig::{Row, RowError, expect_in_order, expect_rows};

/// Budgets for one word and for several, on a new archive.
const SHARES: [Row<'static>; 6] = [
    // three questions for one word: with twice its size it is cut at 20
    Row {
        script: b"arrive 1 10 1\nv\narrive 2 20 1\nv\ndelete 2 30\ndelete 1 40\nfind 25 v\nfind 15 v\nfind 15 v\nshare 2/1 v\n",
        replies: b"ok 1\nok 2\nok 3\nok 4\nhit 1 1\nhit 2 1\nend 2 read 2\nhit 1 1\nend 1 read 2\nhit 1 1\nend 1 read 2\nshare v 3 4\nend 1 unit 1 budget 4 cost 4\n",
    },
    // a word counts once, and the first that is refused is told by its place on the line
    Row {
        script: b"arrive 1 10 1\nv\narrive 2 20 1\nv\ndelete 2 30\ndelete 1 40\nfind 25 v\nfind 15 v\nfind 15 v\nshare 1/1 v V\nshare 2/1 v moon\nshare 17/1 v\nshare 1/1 v v v v v v v v v v v v v v v v\nshare 1/1 v v v v v v v v v v v v v v v v v\nshare 1/1\n",
        replies: b"ok 1\nok 2\nok 3\nok 4\nhit 1 1\nhit 2 1\nend 2 read 2\nhit 1 1\nend 1 read 2\nhit 1 1\nend 1 read 2\nshare v 2 6\nend 1 unit 1 budget 2 cost 6\nno 13 UnknownWord in 2\nno 1 Line\nshare v 2 6\nend 1 unit 1 budget 2 cost 6\nno 1 Line\nno 1 Line\n",
    },
    // the budget isn't filled word by word: the one unit more goes to the word that was asked for more often
    Row {
        script: b"arrive 1 10 1\na\narrive 3 10 1\nb\narrive 2 20 1\na\narrive 4 20 1\nb\ndelete 2 30\ndelete 4 30\ndelete 1 40\ndelete 3 40\nfind 15 a\nfind 15 b\nfind 15 b not moon\nfind 15 b\nshare 5/4 a b\nshare 3/2 b a B\n",
        replies: b"ok 1\nok 2\nok 3\nok 4\nok 5\nok 6\nok 7\nok 8\nhit 1 1\nend 1 read 2\nhit 3 1\nend 1 read 2\nhit 3 1\nend 1 read 2\nhit 3 1\nend 1 read 2\nshare a 2 2\nshare b 3 3\nend 2 unit 1 budget 5 cost 5\nshare b 3 3\nshare a 3 1\nend 2 unit 1 budget 6 cost 4\n",
    },
    // a question that is refused isn't noted, nor is another than find; each word of a query is, also one that it lacks
    Row {
        script: b"arrive 1 10 1\nv\narrive 2 20 1\nv\ndelete 2 30\ndelete 1 40\nshare 2/1 v\nfind 15 v or\ntop 1 15 v\nbetween 10 20 v\nshare 2/1 v\nfind 15 not v\nshare 2/1 v\n",
        replies: b"ok 1\nok 2\nok 3\nok 4\nshare v 2 0\nend 1 unit 1 budget 4 cost 0\nno 11 BadQuery 4\nhit 1 1\nend 1 read 2\nspan 1 10 20 1\nend 1 read 2\nshare v 2 0\nend 1 unit 1 budget 4 cost 0\nend 0 read 2\nshare v 3 1\nend 1 unit 1 budget 4 cost 1\n",
    },
    // no term, and no posting before the last time
    Row {
        script: b"arrive 1 10 1\nv\ndelete 1 20\narrive 2 30 1\nw\nshare 1/1 x-y v\nshare 1/1 v x-y moon\nshare 1/1 v v w\nshare 1/1 moon w\nshare 1/1 v\n",
        replies: b"ok 1\nok 2\nok 3\nno 7 NotOneTerm in 1\nno 7 NotOneTerm in 2\nno 8 NothingSealed in 3\nno 13 UnknownWord in 1\nshare v 1 0\nend 1 unit 1 budget 1 cost 0\n",
    },
    // nothing is stored
    Row {
        script: b"arrive 1 10 1\nv\ndelete 1 20\nshare 16/1 v\ncertificate v\n",
        replies: b"ok 1\nok 2\nshare v 1 0\nend 1 unit 1 budget 16 cost 0\nno 14 NoPlan\n",
    },
];

#[test]
fn a_budget_is_shared_by_the_times_that_were_asked(rt: HostRuntime) -> Result<(), RowError> {
    expect_rows(rt.alloc(), b"", &SHARES)
}

/// Two runs over one archive.
const RUNS: [Row<'static>; 2] = [
    Row {
        script: b"arrive 1 10 1\nv\narrive 2 20 1\nv\ndelete 2 30\ndelete 1 40\nfind 15 v\nshare 2/1 v\n",
        replies: b"ok 1\nok 2\nok 3\nok 4\nhit 1 1\nend 1 read 2\nshare v 3 1\nend 1 unit 1 budget 4 cost 1\n",
    },
    // what another run was asked doesn't count
    Row {
        script: b"share 2/1 v\nfind 35 v\nshare 2/1 v\n",
        replies: b"share v 2 0\nend 1 unit 1 budget 4 cost 0\nhit 1 1\nend 1 read 2\nshare v 3 1\nend 1 unit 1 budget 4 cost 1\n",
    },
];

#[test]
fn a_run_begins_with_nothing_asked(rt: HostRuntime) -> Result<(), RowError> {
    expect_in_order(rt.alloc(), &RUNS)
}
