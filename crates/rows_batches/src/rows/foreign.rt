//! Journals with batches that no archive writes: the place where it shows.
use rows_rig::{
    BATCHED_JOURNAL, MARKED_JOURNAL, RowError, Run, expect_counts, expect_run, foreign_batches,
};
use run_script::Status;

#[test]
fn a_batch_that_is_none_is_refused_at_its_place(rt: HostRuntime) -> Result<(), RowError> {
    let alloc = rt.alloc();
    let journals = foreign_batches(alloc)?;
    for (row, (journal, at)) in journals.iter().enumerate() {
        let run = Run::untouched(journal, Status::NotArchive { at: *at });
        expect_run(alloc, row, &run)?;
    }
    Ok(())
}

#[test]
fn a_batch_counts_as_one_entry(rt: HostRuntime) -> Result<(), RowError> {
    expect_counts(rt.alloc(), &[(MARKED_JOURNAL, 2), (BATCHED_JOURNAL, 3)])
}
