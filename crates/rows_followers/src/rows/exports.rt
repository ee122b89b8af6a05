//! What `--export FROM` shows.
use super::packets::packets_of;
use machine_mem::{CallKind, Fault, MemMachine};
use machine_model::Image;
use rows_rig::{
    RowError, copy_image, expect_same, first_disk, machine_on, new_disk, put_byte, read_image,
    run_with, whole_images,
};
use run_script::Status;
use std::alloc::Global;

/// A run with these words on a disk, with some calls that fail: how it ends, and the machine behind it.
fn run_words(
    alloc: Global,
    disk: &Image,
    words: &[&str],
    faults: &[Fault],
) -> Result<(Status, MemMachine), RowError> {
    let mut machine = machine_on(alloc, b"find 10 red\n", copy_image(alloc, disk)?, faults)?;
    let status = run_with(alloc, words, &mut machine)?;
    Ok((status, machine))
}

/// Each image that a stop may leave at any moment of a run is the disk as it was.
fn expect_kept(
    alloc: Global,
    row: usize,
    machine: &MemMachine,
    disk: &Image,
) -> Result<(), RowError> {
    for image in &whole_images(alloc, machine)? {
        expect_same(row, image, disk)?;
    }
    Ok(())
}

/// With these words a run on a disk ends well, shows this, and leaves the disk as it was.
fn expect_export(
    alloc: Global,
    row: usize,
    disk: &Image,
    words: &[&str],
    packets: &[u8],
) -> Result<(), RowError> {
    let (status, mut machine) = run_words(alloc, disk, words, &[])?;
    if status != Status::Done {
        return Err(RowError::Status { row, status });
    }
    if machine.shown() != packets {
        let shown = Vec::from_slice(alloc, machine.shown())?;
        return Err(RowError::Replies { row, shown });
    }
    expect_kept(alloc, row, &machine, disk)?;
    expect_same(row, &read_image(alloc, &mut machine)?, disk)
}

// Four changes and a plan of three segments: 14 + 14 + 13 + 13 + 181 bytes, and 12 in front of each.
#[test]
fn an_export_shows_each_entry_from_a_number_on(rt: HostRuntime) -> Result<(), RowError> {
    let alloc = rt.alloc();
    let disk = first_disk(alloc)?;
    let all = packets_of(alloc, &disk.journal, 1)?;
    assert_eq!(rt; all.len(), 295);
    assert!(rt; all.starts_with(b"\0\0\0\0\0\0\0\x01\0\0\0\x0e\x01\0\0\0\x01\0\0\0\0\0\0\0\x0av"));
    let rows = [
        ("1", 1),
        ("2", 2),
        ("3", 3),
        ("4", 4),
        ("5", 5),
        ("6", 6),
        ("05", 5),
        ("9999999999999999999", u64::MAX),
    ];
    for (row, (word, from)) in rows.iter().enumerate() {
        let packets = packets_of(alloc, &disk.journal, *from)?;
        expect_export(alloc, row, &disk, &["--export", *word], &packets)?;
    }
    expect_export(alloc, rows.len(), &disk, &["--export=1"], &all)
}

// The journal of an archive without entries is written, as by each run.
#[test]
fn an_archive_without_entries_shows_nothing(rt: HostRuntime) -> Result<(), RowError> {
    let alloc = rt.alloc();
    let (status, mut machine) = run_words(alloc, &new_disk(alloc), &["--export", "1"], &[])?;
    let begun = read_image(alloc, &mut machine)?;
    assert_eq!(rt; status, Status::Done);
    assert!(rt; machine.shown().is_empty());
    assert!(rt; begun.journal.as_slice() == b"TIMETRAVELTEXT\0\x01\0".as_slice());
    assert!(rt; begun.pages.is_empty());
    let (status, mut machine) = run_words(alloc, &begun, &["--export", "1"], &[])?;
    assert_eq!(rt; status, Status::Done);
    assert!(rt; machine.shown().is_empty());
    expect_same(0, &read_image(alloc, &mut machine)?, &begun)
}

#[test]
fn words_that_ask_for_no_export_touch_nothing(rt: HostRuntime) -> Result<(), RowError> {
    let alloc = rt.alloc();
    let rows: [&[&str]; 7] = [
        &["--export"],
        &["--export", "0"],
        &["--export", "x"],
        &["--export", "-1"],
        &["--export", "10000000000000000000"],
        &["--export", "1", "--export", "2"],
        &["--export", "1", "--generate", "1", "--count", "1"],
    ];
    for (row, words) in rows.iter().enumerate() {
        let (status, mut machine) = run_words(alloc, &new_disk(alloc), words, &[])?;
        if status != Status::Usage {
            return Err(RowError::Status { row, status });
        }
        let left = read_image(alloc, &mut machine)?;
        if !machine.shown().is_empty() || !left.journal.is_empty() {
            return Err(RowError::Touched { row });
        }
    }
    Ok(())
}

#[test]
fn a_journal_that_is_no_archives_is_told(rt: HostRuntime) -> Result<(), RowError> {
    let alloc = rt.alloc();
    let mut disk = first_disk(alloc)?;
    put_byte(&mut disk.journal, 3, b'x')?;
    let (status, machine) = run_words(alloc, &disk, &["--export", "1"], &[])?;
    assert_eq!(rt; status, Status::NotArchive { at: 3 });
    assert!(rt; machine.shown().is_empty());
    expect_kept(alloc, 0, &machine, &disk)
}

/// How an export ends where a call of this kind fails.
fn status_of(call: CallKind) -> Status {
    match call {
        CallKind::Length | CallKind::Read | CallKind::Write | CallKind::Sync => Status::Disk,
        CallKind::Pull => Status::Source,
        CallKind::Push => Status::Sink,
    }
}

/// Lets each call of this kind fail in turn: a front of the packets is shown, and the disk stays at each
/// moment. It answers how many such calls there are.
fn fail_each(alloc: Global, disk: &Image, packets: &[u8], call: CallKind) -> Result<u64, RowError> {
    for nth in 1..100 {
        let fault = Fault {
            call,
            nth,
            landed: 0,
        };
        let row = nth as usize;
        let (status, machine) = run_words(alloc, disk, &["--export", "1"], &[fault])?;
        expect_kept(alloc, row, &machine, disk)?;
        if status == Status::Done {
            return Ok(nth - 1);
        }
        if status != status_of(call) {
            return Err(RowError::Status { row, status });
        }
        if !packets.starts_with(machine.shown()) || machine.shown() == packets {
            let shown = Vec::from_slice(alloc, machine.shown())?;
            return Err(RowError::Replies { row, shown });
        }
    }
    Ok(100)
}

// Each packet is pushed at once; nothing is pulled, and nothing written.
#[test]
fn a_call_that_fails_ends_an_export(rt: HostRuntime) -> Result<(), RowError> {
    let alloc = rt.alloc();
    let disk = first_disk(alloc)?;
    let packets = packets_of(alloc, &disk.journal, 1)?;
    assert_eq!(rt; fail_each(alloc, &disk, &packets, CallKind::Push)?, 5);
    assert_eq!(rt; fail_each(alloc, &disk, &packets, CallKind::Sync)?, 1);
    assert_eq!(rt; fail_each(alloc, &disk, &packets, CallKind::Pull)?, 0);
    assert_eq!(rt; fail_each(alloc, &disk, &packets, CallKind::Write)?, 0);
    assert!(rt; fail_each(alloc, &disk, &packets, CallKind::Read)? >= 2);
    Ok(())
}
