//! The packets of a disk's journal.
use machine_model::Image;
use rows_rig::{RowError, expect_check};
use std::alloc::Global;

/// The numbers of the five records of the disk's journal, and where they lie in it, from behind their gate to the next
/// one: four bytes for the length, and 14, 14, 13, 13 and 181 bytes.
pub(super) const RECORDS: [(u64, usize, usize); 5] = [
    (1, 17, 35),
    (2, 36, 54),
    (3, 55, 72),
    (4, 73, 90),
    (5, 91, 276),
];

/// Puts the packet of a record behind others: its number in 8 bytes, and its bytes.
pub(super) fn put_packet(
    packets: &mut Vec<u8>,
    journal: &[u8],
    (number, start, end): (u64, usize, usize),
) -> Result<(), RowError> {
    let Some(record) = journal.get(start..end) else {
        return Err(RowError::NoByte { at: end });
    };
    packets.extend_from_slice(&number.to_be_bytes())?;
    packets.extend_from_slice(record)?;
    Ok(())
}

/// The packets of the journal's records from a number on.
pub(super) fn packets_of(alloc: Global, journal: &[u8], from: u64) -> Result<Vec<u8>, RowError> {
    let mut packets = Vec::new(alloc);
    for record in &RECORDS {
        if record.0 >= from {
            put_packet(&mut packets, journal, *record)?;
        }
    }
    Ok(packets)
}

/// A follower's disk has the leader's journal, and the sublists of the plan in it. (Between the places of a plan, a stop may
/// leave any bytes in Pages.)
pub(super) fn expect_copied(
    alloc: Global,
    row: usize,
    copy: Image,
    leader: &Image,
) -> Result<(), RowError> {
    if copy.journal.as_slice() != leader.journal.as_slice() {
        return Err(RowError::Changed { row });
    }
    expect_check(alloc, copy, row, b"sound 1 3\n")
}
