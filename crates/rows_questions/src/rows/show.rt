//! Texts that are shown, and what a question leaves.
use rows_rig::{FIRST_JOURNAL, Row, RowError, Run, expect_rows, expect_runs};
use run_script::Status;

/// A document that was deleted.
const DELETED: Row<'static> = Row {
    script: b"arrive 7 10 5\nred a\ndelete 7 20\nshow 7 19\nshow 7 20\nshow 8 19\nfind 19 a\nfind 20 a\n",
    replies: b"ok 1\nok 2\ntext 5\nred a\nnone\nnone\nhit 7 1\nend 1 read 1\nend 0 read 1\n",
};

#[test]
fn a_deleted_document_has_no_text_and_no_words(rt: HostRuntime) -> Result<(), RowError> {
    expect_rows(rt.alloc(), b"", &[DELETED])
}

/// Questions of the archive of one arrival.
const QUESTIONS: Run<'static> = Run {
    before: FIRST_JOURNAL,
    script: b"find 10 red\nfind 10 and\nbetween 5 15 red\nshow 7 10\nshow 7 9\n",
    status: Status::Done,
    replies: b"hit 7 1\nend 1 read 1\nno 11 BadQuery 0\nspan 7 10 15 1\nend 1 read 1\ntext 5\nred a\nnone\n",
    after: FIRST_JOURNAL,
};

#[test]
fn a_question_leaves_the_journal_as_it_is(rt: HostRuntime) -> Result<(), RowError> {
    expect_runs(rt.alloc(), &[QUESTIONS])
}
