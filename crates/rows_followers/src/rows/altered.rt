//! Streams of which one byte is altered.
use super::packets::{expect_copied, packets_of};
use machine_model::Image;
use rows_rig::{RowError, first_disk, machine_on, new_disk, put_byte, read_image, run_with};
use run_script::Status;
use std::alloc::Global;

/// The places at which the packets begin, and where the last one ends.
const PLACES: [usize; 6] = [0, 26, 52, 77, 102, 295];

/// The place of the packet that has a byte.
fn packet_at(byte: usize) -> usize {
    let mut place = 0;
    for start in PLACES {
        if start <= byte {
            place = start;
        }
    }
    place
}

/// Takes packets on a disk: how that ends, and what the disk has then.
fn take(alloc: Global, packets: &[u8], disk: Image) -> Result<(Status, Image), RowError> {
    let mut machine = machine_on(alloc, packets, disk, &[])?;
    let status = run_with(alloc, &["--follow"], &mut machine)?;
    let left = read_image(alloc, &mut machine)?;
    Ok((status, left))
}

/// The leader's own stream behind an altered one: it leads to the leader's archive, or is in conflict with what was taken.
fn expect_told(
    alloc: Global,
    row: usize,
    left: Image,
    packets: &[u8],
    leader: &Image,
) -> Result<(), RowError> {
    match take(alloc, packets, left)? {
        (Status::Done, left) => expect_copied(alloc, row, left, leader),
        (Status::Conflict { .. }, _) => Ok(()),
        (status, _) => Err(RowError::Status { row, status }),
    }
}

/// With one byte altered, the run ends at the packet that has it, or behind it where that spells another entry.
fn expect_altered(
    alloc: Global,
    at: usize,
    byte: u8,
    packets: &[u8],
    leader: &Image,
) -> Result<(), RowError> {
    let mut altered = Vec::from_slice(alloc, packets)?;
    put_byte(&mut altered, at, byte)?;
    let (status, left) = take(alloc, &altered, new_disk(alloc))?;
    let is_well = match status {
        // its packet can't be, or the entry behind an entry that was taken can't follow it
        Status::Packet { at: place } => place as usize >= packet_at(at),
        // its number is another one
        Status::Gap { .. } | Status::Conflict { .. } => true,
        // its bytes spell another entry
        Status::Done => true,
        _ => false,
    };
    if !is_well {
        return Err(RowError::Status { row: at, status });
    }
    expect_told(alloc, at, left, packets, leader)
}

/// Whether a byte is one of the upper three of the page of a place: a machine in memory can't hold as many pages as another one there would
/// ask for.
fn is_far(at: usize) -> bool {
    matches!(at, 147..=149 | 199..=201 | 251..=253)
}

// The packet of the plan begins at 102, its body at 114, and its segments there at 139, 191 and 243, each with its page behind a cut of 8
// bytes.
#[test]
fn each_byte_of_a_stream_altered(rt: HostRuntime) -> Result<(), RowError> {
    let alloc = rt.alloc();
    let leader = first_disk(alloc)?;
    let packets = packets_of(alloc, &leader.journal, 1)?;
    for (at, byte) in packets.iter().enumerate() {
        if !is_far(at) {
            expect_altered(alloc, at, *byte ^ 1, &packets, &leader)?;
            expect_altered(alloc, at, *byte ^ 0xff, &packets, &leader)?;
        }
    }
    Ok(())
}
