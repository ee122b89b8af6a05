//! Batches that are refused: the first cause in order, and that nothing comes of them.
use rows_rig::{BATCHED_JOURNAL, FIRST_JOURNAL, MARKED_JOURNAL, Row, RowError, Run, expect_run};
use std::alloc::Global;

/// Each of these scripts comes to its end on this journal with these replies, and leaves it as it is.
fn expect_kept(alloc: Global, journal: &[u8], rows: &[Row<'_>]) -> Result<(), RowError> {
    for (row, wanted) in rows.iter().enumerate() {
        expect_run(
            alloc,
            row,
            &Run::kept(journal, wanted.script, wanted.replies),
        )?;
    }
    Ok(())
}

/// Scripts behind the mark.
const LINES: [Row<'static>; 7] = [
    // a number that no batch has makes no command, and the line takes no items
    Row {
        script: b"batch 1001\nbatch 0\nbatch\nbatch x\nbatch 1 1\nbatch 18446744073709551617\nBatch 1\nbatch +1\nshow 7 10\n",
        replies: b"no 1 Line\nno 1 Line\nno 1 Line\nno 1 Line\nno 1 Line\nno 1 Line\nno 1 Line\nno 1 Line\ntext 5\nred a\n",
    },
    Row {
        script: b"batch 1001\narrive 7 10 1\nx\n",
        replies: b"no 1 Line\nno 3 SameTime\n",
    },
    // an item is an arrival or a deletion
    Row {
        script: b"batch 1\nhello\nbatch 1\nformat 2\nbatch 1\nverify\nbatch 1\nfind 10 red\nbatch 1\nplan red guarantee 1/1\nbatch 1\ndelete 7\nbatch 1\nbegin red guarantee 1/1\nbatch 1\n\xc3\x28\n",
        replies: b"no 16 BatchLine 1\nno 16 BatchLine 1\nno 16 BatchLine 1\nno 16 BatchLine 1\nno 16 BatchLine 1\nno 16 BatchLine 1\nno 16 BatchLine 1\nno 16 BatchLine 1\n",
    },
    // the first that is neither
    Row {
        script: b"batch 4\narrive 8 20 1\nx\nverify\ndelete 8 30\nhello\n",
        replies: b"no 16 BatchLine 2\n",
    },
    // a batch in a batch is one line
    Row {
        script: b"batch 2\narrive 9 30 1\nx\nbatch 1\ndelete 7 9\n",
        replies: b"no 16 BatchLine 2\nno 2 TimeBack 10\n",
    },
    Row {
        script: b"batch 1\nbatch 2\nbatch 2\nbatch 1001\nbatch 2\nhello\n",
        replies: b"no 16 BatchLine 1\nno 16 BatchLine 1\nno 1 Line\n",
    },
    // the line comes before an item that may not come
    Row {
        script: b"batch 3\ndelete 5 9\narrive 9 30 2\n\xc3\x28\nhello\n",
        replies: b"no 16 BatchLine 3\n",
    },
];

#[test]
fn a_batch_has_arrivals_and_deletions(rt: HostRuntime) -> Result<(), RowError> {
    expect_kept(rt.alloc(), MARKED_JOURNAL, &LINES)
}

/// Scripts behind the mark.
const ITEMS: [Row<'static>; 12] = [
    // by what is there
    Row {
        script: b"batch 1\narrive 7 10 1\nx\nbatch 1\ndelete 7 9\nbatch 1\ndelete 5 20\n",
        replies: b"no 3 SameTime in 1\nno 2 TimeBack 10 in 1\nno 4 NoDocument in 1\n",
    },
    Row {
        script: b"batch 3\narrive 8 20 1\nx\narrive 9 20 1\nx\narrive 7 10 1\nx\n",
        replies: b"no 2 TimeBack 20 in 3\n",
    },
    // by the items before it
    Row {
        script: b"batch 2\narrive 9 30 1\nx\narrive 9 30 1\ny\n",
        replies: b"no 3 SameTime in 2\n",
    },
    Row {
        script: b"batch 2\narrive 9 30 1\nx\ndelete 9 30\n",
        replies: b"no 3 SameTime in 2\n",
    },
    Row {
        script: b"batch 2\ndelete 7 30\narrive 7 30 1\nx\n",
        replies: b"no 3 SameTime in 2\n",
    },
    Row {
        script: b"batch 2\narrive 9 30 1\nx\narrive 8 29 1\nx\n",
        replies: b"no 2 TimeBack 30 in 2\n",
    },
    Row {
        script: b"batch 2\ndelete 7 30\ndelete 7 31\n",
        replies: b"no 4 NoDocument in 2\n",
    },
    Row {
        script: b"batch 3\narrive 9 30 1\nx\ndelete 9 31\ndelete 9 31\n",
        replies: b"no 4 NoDocument in 3\n",
    },
    // the first of two, whatever their causes
    Row {
        script: b"batch 2\ndelete 5 20\narrive 8 9 2\n\xc3\x28\n",
        replies: b"no 4 NoDocument in 1\n",
    },
    Row {
        script: b"batch 4\narrive 8 20 1\nx\ndelete 5 20\narrive 8 20 1\nx\ndelete 7 9\n",
        replies: b"no 4 NoDocument in 2\n",
    },
    // each item by its own order: the text comes before the time, and the time before the document
    Row {
        script: b"batch 2\narrive 7 9 3\nx\xc3\x28\ndelete 7 20\n",
        replies: b"no 6 BadText 1 in 1\n",
    },
    Row {
        script: b"batch 2\narrive 9 30 1\nx\ndelete 5 29\n",
        replies: b"no 2 TimeBack 30 in 2\n",
    },
];

#[test]
fn an_item_is_refused_behind_those_before_it(rt: HostRuntime) -> Result<(), RowError> {
    expect_kept(rt.alloc(), MARKED_JOURNAL, &ITEMS)
}

/// Scripts without the mark.
const OLD: [Row<'static>; 3] = [
    // that it isn't there comes before the line and the item
    Row {
        script: b"batch 2\nhello\ndelete 5 9\n",
        replies: b"no 18 OldFormat\n",
    },
    Row {
        script: b"batch 1\nbatch 1\nbatch 1\ndelete 7 9\n",
        replies: b"no 18 OldFormat\nno 18 OldFormat\n",
    },
    Row {
        script: b"batch 1001\nbatch 1\nformat 2\n",
        replies: b"no 1 Line\nno 18 OldFormat\n",
    },
];

#[test]
fn without_the_mark_each_batch_is_refused_for_that(rt: HostRuntime) -> Result<(), RowError> {
    expect_kept(rt.alloc(), FIRST_JOURNAL, &OLD)
}

/// Batches that are refused, and what is answered then: their documents, texts, words and times are none.
const NOTHING: [Row<'static>; 3] = [
    Row {
        script: b"batch 2\narrive 9 30 5\nlight\ndelete 5 30\nfind 30 light\nbetween 0 40 light\nshow 9 30\npropose light guarantee 1/1\nplan light guarantee 1/1\ncertificate light\nverify\n",
        replies: b"no 4 NoDocument in 2\nend 0 read 0\nend 0 read 0\nnone\nno 13 UnknownWord\nno 13 UnknownWord\nno 13 UnknownWord\nsound 0 0\n",
    },
    // the postings of a word that was there are as before
    Row {
        script: b"batch 3\narrive 7 30 9\nred light\narrive 8 30 3\nred\narrive 7 30 0\n\nfind 30 red\nshow 7 30\nshow 8 30\nbetween 0 40 red\npropose red guarantee 1/1\n",
        replies: b"no 3 SameTime in 3\nhit 8 1\nend 1 read 2\ntext 4\nblue\ntext 3\nred\nspan 7 10 20 1\nspan 8 20 40 1\nend 2 read 2\nsegment 10 20 1\nnode 10 0\nnode 20 1\nend 1 space 1\n",
    },
    // and so is what a document's last change is
    Row {
        script: b"batch 2\ndelete 7 30\nhello\nbatch 2\ndelete 7 30\ndelete 7 31\nfind 30 blue\ndelete 7 20\ndelete 9 20\n",
        replies: b"no 16 BatchLine 2\nno 4 NoDocument in 2\nhit 7 1\nend 1 read 1\nno 3 SameTime\nno 4 NoDocument\n",
    },
];

#[test]
fn nothing_comes_of_a_batch_that_is_refused(rt: HostRuntime) -> Result<(), RowError> {
    expect_kept(rt.alloc(), BATCHED_JOURNAL, &NOTHING)
}
