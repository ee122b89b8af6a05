//! What `--follow` takes and tells.
use super::packets::{RECORDS, packets_of, put_packet};
use machine_mem::MemMachine;
use machine_model::Image;
use rows_rig::{
    FIRST_JOURNAL, NEW_JOURNAL, RowError, copy_image, expect_replies, expect_same, first_disk,
    join, machine_on, new_disk, read_image, run_with,
};
use run_script::Status;
use std::alloc::Global;

/// The lines that tell the five entries, first where each is taken and then where each is there.
pub(super) const ALL_TAKEN: &[u8] = b"took 1\ntook 2\ntook 3\ntook 4\ntook 5\nend 5\n";

const ALL_HAD: &[u8] = b"had 1\nhad 2\nhad 3\nhad 4\nhad 5\nend 5\n";

/// A run that takes packets, and how it is to end.
#[derive(Clone, Copy, Debug)]
struct Taking<'a> {
    packets: &'a [u8],
    status: Status,
    lines: &'a [u8],
}

/// The disk with this journal and no pages.
fn disk_of(alloc: Global, journal: &[u8]) -> Result<Image, RowError> {
    let mut disk = new_disk(alloc);
    disk.journal.extend_from_slice(journal)?;
    Ok(disk)
}

/// Takes packets on a machine, which ends so and shows these lines. In its table it is this row.
fn expect_taken(
    alloc: Global,
    row: usize,
    mut machine: MemMachine,
    status: Status,
    lines: &[u8],
) -> Result<Image, RowError> {
    let ended = run_with(alloc, &["--follow"], &mut machine)?;
    if ended != status {
        return Err(RowError::Status { row, status: ended });
    }
    expect_replies(alloc, &machine, row, lines)?;
    read_image(alloc, &mut machine)
}

/// On a disk, packets are taken so. It answers what the disk has then.
fn take_on(
    alloc: Global,
    row: usize,
    disk: &Image,
    taking: &Taking<'_>,
) -> Result<Image, RowError> {
    let machine = machine_on(alloc, taking.packets, copy_image(alloc, disk)?, &[])?;
    expect_taken(alloc, row, machine, taking.status, taking.lines)
}

// The bytes of an export make of a new disk the leader's, journal and Pages; and they change nothing there.
#[test]
fn a_whole_export_makes_a_copy(rt: HostRuntime) -> Result<(), RowError> {
    let alloc = rt.alloc();
    let leader = first_disk(alloc)?;
    let packets = packets_of(alloc, &leader.journal, 1)?;
    let taking = Taking {
        packets: &packets,
        status: Status::Done,
        lines: ALL_TAKEN,
    };
    let copy = take_on(alloc, 0, &new_disk(alloc), &taking)?;
    expect_same(0, &copy, &leader)?;
    let again = Taking {
        packets: &packets,
        status: Status::Done,
        lines: ALL_HAD,
    };
    let kept = take_on(alloc, 1, &copy, &again)?;
    expect_same(1, &kept, &leader)
}

// Two packets of 26 bytes and two of 25: the last one begins at 102.
#[test]
fn what_ends_a_run_is_told_with_its_place(rt: HostRuntime) -> Result<(), RowError> {
    let alloc = rt.alloc();
    let leader = first_disk(alloc)?;
    let all = packets_of(alloc, &leader.journal, 1)?;
    let late = packets_of(alloc, &leader.journal, 3)?;
    let Some(cut) = all.get(..all.len().saturating_sub(1)) else {
        return Err(RowError::NoByte { at: 0 });
    };
    let rows = [
        // nothing, and entries that are missing
        (
            NEW_JOURNAL,
            b"".as_slice(),
            Status::Done,
            b"end 0\n".as_slice(),
        ),
        (
            NEW_JOURNAL,
            late.as_slice(),
            Status::Gap { have: 0, got: 3 },
            b"".as_slice(),
        ),
        // another history: its first entry is of document 7, the leader's of document 1
        (
            FIRST_JOURNAL,
            all.as_slice(),
            Status::Conflict {
                number: 1,
                place: 4,
                kept: Some(7),
                got: Some(1),
            },
            b"".as_slice(),
        ),
        // the last packet without its last byte
        (
            NEW_JOURNAL,
            cut,
            Status::Packet { at: 102 },
            b"took 1\ntook 2\ntook 3\ntook 4\n".as_slice(),
        ),
    ];
    for (row, (journal, packets, status, lines)) in rows.iter().enumerate() {
        let disk = disk_of(alloc, journal)?;
        let taking = Taking {
            packets,
            status: *status,
            lines,
        };
        take_on(alloc, row, &disk, &taking)?;
    }
    Ok(())
}

/// The packets of some of the leader's entries, one behind another.
fn stream_of(alloc: Global, journal: &[u8], numbers: &[u64]) -> Result<Vec<u8>, RowError> {
    let mut packets = Vec::new(alloc);
    for number in numbers {
        for record in &RECORDS {
            if record.0 == *number {
                put_packet(&mut packets, journal, *record)?;
            }
        }
    }
    Ok(packets)
}

// Repeats are told as had; behind a gap the run ends, whatever comes.
#[test]
fn repeats_and_gaps_in_a_stream(rt: HostRuntime) -> Result<(), RowError> {
    let alloc = rt.alloc();
    let leader = first_disk(alloc)?;
    let rows: [(&[u64], Status, &[u8]); 5] = [
        (
            &[1, 1, 2, 1, 2, 3],
            Status::Done,
            b"took 1\nhad 1\ntook 2\nhad 1\nhad 2\ntook 3\nend 3\n",
        ),
        (&[2], Status::Gap { have: 0, got: 2 }, b""),
        (&[1, 3, 2], Status::Gap { have: 1, got: 3 }, b"took 1\n"),
        (
            &[1, 2, 3, 4, 5, 5, 4],
            Status::Done,
            b"took 1\ntook 2\ntook 3\ntook 4\ntook 5\nhad 5\nhad 4\nend 5\n",
        ),
        (
            &[1, 2, 5],
            Status::Gap { have: 2, got: 5 },
            b"took 1\ntook 2\n",
        ),
    ];
    for (row, (numbers, status, lines)) in rows.iter().enumerate() {
        let packets = stream_of(alloc, &leader.journal, numbers)?;
        let taking = Taking {
            packets: &packets,
            status: *status,
            lines,
        };
        take_on(alloc, row, &new_disk(alloc), &taking)?;
    }
    Ok(())
}

#[test]
fn packets_in_pieces_are_taken_alike(rt: HostRuntime) -> Result<(), RowError> {
    let alloc = rt.alloc();
    let leader = first_disk(alloc)?;
    let packets = packets_of(alloc, &leader.journal, 1)?;
    for piece in [1, 2, 3, 7, 4096] {
        let machine = machine_on(alloc, &packets, new_disk(alloc), &[])?.with_pulls_of(piece);
        let copy = expect_taken(alloc, piece, machine, Status::Done, ALL_TAKEN)?;
        expect_same(piece, &copy, &leader)?;
    }
    Ok(())
}

/// Behind packets of the first two entries, bytes that are no packet are told with their place.
fn expect_told(alloc: Global, row: usize, front: &[u8], bad: &[u8]) -> Result<(), RowError> {
    let packets = join(alloc, &[front, bad])?;
    let taking = Taking {
        packets: &packets,
        status: Status::Packet { at: 52 },
        lines: b"took 1\ntook 2\n",
    };
    take_on(alloc, row, &new_disk(alloc), &taking)?;
    Ok(())
}

/// Bytes that are no packet: a number 0, a length of 67,108,865 bytes, no length, an entry of no byte, and one of an unknown kind. A
/// packet begins with its number in 8 bytes and its length in 4.
const NO_PACKETS: [&[u8]; 5] = [
    b"\0\0\0\0\0\0\0\0\0\0\0\x01\x01",
    b"\0\0\0\0\0\0\0\x03\x04\0\0\x01",
    b"\0\0\0\0\0\0\0\x03\0",
    b"\0\0\0\0\0\0\0\x03\0\0\0\0",
    b"\0\0\0\0\0\0\0\x03\0\0\0\x01\xff",
];

#[test]
fn packets_that_cannot_be_are_told(rt: HostRuntime) -> Result<(), RowError> {
    let alloc = rt.alloc();
    let leader = first_disk(alloc)?;
    let front = stream_of(alloc, &leader.journal, &[1, 2])?;
    for (row, bad) in NO_PACKETS.iter().enumerate() {
        expect_told(alloc, row, &front, bad)?;
    }
    Ok(())
}

#[test]
fn words_that_ask_for_no_following_touch_nothing(rt: HostRuntime) -> Result<(), RowError> {
    let alloc = rt.alloc();
    let rows: [&[&str]; 5] = [
        &["--follow", "--follow"],
        &["--follow", "1"],
        &["--follow=1"],
        &["--follow", "--export", "1"],
        &["--follow", "--generate", "1", "--count", "1"],
    ];
    for (row, words) in rows.iter().enumerate() {
        let mut machine = machine_on(alloc, b"", new_disk(alloc), &[])?;
        let status = run_with(alloc, words, &mut machine)?;
        if status != Status::Usage {
            return Err(RowError::Status { row, status });
        }
        let left = read_image(alloc, &mut machine)?;
        if !machine.shown().is_empty() || !left.journal.is_empty() {
            return Err(RowError::Touched { row });
        }
    }
    Ok(())
}
