//! Journals that are no archive's, and journals that are new whatever their bytes are.
use rows_rig::{
    FIRST_JOURNAL, NEW_JOURNAL, RowError, Run, expect_counts, expect_run, expect_runs, put_byte,
};
use run_script::Status;
use std::alloc::Global;

/// The journal of the one arrival with another byte at a place.
fn altered(alloc: Global, place: usize, byte: u8) -> Result<Vec<u8>, RowError> {
    let mut journal = Vec::from_slice(alloc, FIRST_JOURNAL)?;
    put_byte(&mut journal, place, byte)?;
    Ok(journal)
}

/// With this byte at a place of that journal the run ends so, shows nothing and leaves the journal.
fn expect_altered(alloc: Global, place: usize, byte: u8, status: Status) -> Result<(), RowError> {
    let journal = altered(alloc, place, byte)?;
    expect_run(alloc, place, &Run::untouched(&journal, status))
}

#[test]
fn another_header_is_refused_at_its_first_byte(rt: HostRuntime) -> Result<(), RowError> {
    for place in 0..16 {
        let status = Status::NotArchive { at: place as u64 };
        expect_altered(rt.alloc(), place, b'?', status)?;
    }
    Ok(())
}

#[test]
fn an_altered_record_is_refused_at_its_place(rt: HostRuntime) -> Result<(), RowError> {
    let rows = [
        (5, b'X', 5),
        // the record would pass the end
        (20, 0x13, 16),
        // a deletion has no text
        (21, 0x02, 34),
        // no such tag
        (21, 0x09, 21),
        // a time has 40 bits
        (26, 0xff, 26),
        // no UTF-8
        (34, 0xff, 34),
    ];
    for (place, byte, at) in &rows {
        let status = Status::NotArchive { at: *at };
        expect_altered(rt.alloc(), *place, *byte, status)?;
    }
    Ok(())
}

#[test]
fn a_closed_gate_ends_the_journal(rt: HostRuntime) -> Result<(), RowError> {
    let alloc = rt.alloc();
    for byte in [0x00, 0xa4, 0xff] {
        expect_altered(alloc, 16, byte, Status::Done)?;
        let journal = altered(alloc, 16, byte)?;
        expect_counts(alloc, &[(&journal, 0)])?;
    }
    Ok(())
}

/// The journal of the one arrival with its record twice.
const TWICE: &[u8] =
    b"TIMETRAVELTEXT\x00\x01\xa5\x00\x00\x00\x12\x01\x00\x00\x00\x07\x00\x00\x00\x00\x00\x00\x00\x0ared a\xa5\x00\x00\x00\x12\x01\x00\x00\x00\x07\x00\x00\x00\x00\x00\x00\x00\x0ared a\x00";

#[test]
fn a_stranger_and_an_entry_that_may_not_come_are_refused(rt: HostRuntime) -> Result<(), RowError> {
    let runs = [
        Run::untouched(b"xxxxxxxxxxxxxxxxxx", Status::NotArchive { at: 0 }),
        // with a byte less it is new
        made_new(b"xxxxxxxxxxxxxxxxx"),
        // at the gate of the entry
        Run::untouched(TWICE, Status::NotArchive { at: 39 }),
    ];
    expect_runs(rt.alloc(), &runs)
}

/// A run without a command on a journal that is taken for a new one.
fn made_new(journal: &[u8]) -> Run<'_> {
    Run {
        before: journal,
        script: b"",
        status: Status::Done,
        replies: b"",
        after: NEW_JOURNAL,
    }
}

#[test]
fn a_journal_cut_short_is_new_or_refused_at_its_gate(rt: HostRuntime) -> Result<(), RowError> {
    for len in 0..FIRST_JOURNAL.len() {
        let journal = &FIRST_JOURNAL[..len];
        let run = if len <= 17 {
            made_new(journal)
        } else {
            Run::untouched(journal, Status::NotArchive { at: 16 })
        };
        expect_run(rt.alloc(), len, &run)?;
    }
    Ok(())
}
