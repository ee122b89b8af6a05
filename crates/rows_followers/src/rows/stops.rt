//! What a stop or a fault leaves of an archive that follows another one.
use super::follows::ALL_TAKEN;
use super::packets::{expect_copied, packets_of};
use machine_mem::{CallKind, Fault, MemMachine};
use machine_model::Image;
use rows_rig::{
    RowError, TAILS, expect_entries, expect_replies, expect_shown, first_disk, machine_on,
    new_disk, pick_image, read_image, run_with,
};
use run_script::Status;
use std::alloc::Global;

/// A machine on which an export of the leader was taken, with some calls that fail; and how that ended.
fn followed(
    alloc: Global,
    packets: &[u8],
    disk: Image,
    faults: &[Fault],
) -> Result<(Status, MemMachine), RowError> {
    let mut machine = machine_on(alloc, packets, disk, faults)?;
    let status = run_with(alloc, &["--follow"], &mut machine)?;
    Ok((status, machine))
}

/// On an image that a stop left, the same packets lead to the leader's history and its plan.
fn expect_caught_up(
    alloc: Global,
    moment: usize,
    left: Image,
    packets: &[u8],
    leader: &Image,
) -> Result<(), RowError> {
    let (status, mut machine) = followed(alloc, packets, left, &[])?;
    if status != Status::Done {
        return Err(RowError::Status {
            row: moment,
            status,
        });
    }
    let copy = read_image(alloc, &mut machine)?;
    expect_copied(alloc, moment, copy, leader)
}

/// The same of each image that a stop may leave at a moment.
fn expect_all_caught_up(
    alloc: Global,
    machine: &MemMachine,
    moment: usize,
    packets: &[u8],
    leader: &Image,
) -> Result<(), RowError> {
    for tail in &TAILS {
        let picked = pick_image(alloc, machine, moment, *tail)?;
        expect_caught_up(alloc, moment, picked.image, packets, leader)?;
    }
    Ok(())
}

// Each line is one entry's, but for the last.
#[test]
fn each_line_acknowledges_an_entry(rt: HostRuntime) -> Result<(), RowError> {
    let alloc = rt.alloc();
    let leader = first_disk(alloc)?;
    let packets = packets_of(alloc, &leader.journal, 1)?;
    let cut = packets.len().saturating_sub(1);
    let Some(front) = packets.get(..cut) else {
        return Err(RowError::NoByte { at: cut });
    };
    let (status, machine) = followed(alloc, front, new_disk(alloc), &[])?;
    assert_eq!(rt; status, Status::Packet { at: 102 });
    expect_shown(alloc, &machine, 0)
}

#[test]
fn what_a_stop_leaves_catches_up(rt: HostRuntime) -> Result<(), RowError> {
    let alloc = rt.alloc();
    let leader = first_disk(alloc)?;
    let packets = packets_of(alloc, &leader.journal, 1)?;
    let (status, machine) = followed(alloc, &packets, new_disk(alloc), &[])?;
    assert_eq!(rt; status, Status::Done);
    expect_replies(alloc, &machine, 0, ALL_TAKEN)?;
    for moment in 0..machine.moments() {
        expect_all_caught_up(alloc, &machine, moment, &packets, &leader)?;
    }
    Ok(())
}

/// How a run ends where a call of this kind fails.
fn status_of(call: CallKind) -> Status {
    match call {
        CallKind::Length | CallKind::Read | CallKind::Write | CallKind::Sync => Status::Disk,
        CallKind::Pull => Status::Source,
        CallKind::Push => Status::Sink,
    }
}

/// How many lines stand in what was shown.
fn lines_in(shown: &[u8]) -> u64 {
    let mut lines = 0u64;
    for byte in shown {
        if *byte == b'\n' {
            lines = lines.saturating_add(1);
        }
    }
    lines
}

/// What a run with a fault left: a front of the lines, and as many entries as these tell or one more, which catch up.
fn expect_front(
    alloc: Global,
    row: usize,
    machine: &MemMachine,
    packets: &[u8],
    leader: &Image,
) -> Result<(), RowError> {
    if !ALL_TAKEN.starts_with(machine.shown()) {
        let shown = Vec::from_slice(alloc, machine.shown())?;
        return Err(RowError::Replies { row, shown });
    }
    let last = machine.moments().saturating_sub(1);
    let taken = lines_in(machine.shown()).min(5);
    expect_entries(alloc, machine, last, taken, taken.saturating_add(1).min(5))?;
    expect_all_caught_up(alloc, machine, last, packets, leader)
}

/// Lets each call of this kind fail in turn, and answers how many there are.
fn fail_each(
    alloc: Global,
    packets: &[u8],
    leader: &Image,
    call: CallKind,
    landed: u64,
) -> Result<u64, RowError> {
    for nth in 1..100 {
        let fault = Fault { call, nth, landed };
        let row = nth as usize;
        let (status, machine) = followed(alloc, packets, new_disk(alloc), &[fault])?;
        expect_front(alloc, row, &machine, packets, leader)?;
        if status == Status::Done {
            return Ok(nth - 1);
        }
        if status != status_of(call) {
            return Err(RowError::Status { row, status });
        }
    }
    Ok(100)
}

// Each line is pushed at once, the last one too. An entry makes two writes and two syncs, and the plan writes its
// two places that have bytes and syncs them before; the load of a new disk writes the journal's first bytes and syncs.
#[test]
fn a_call_that_fails_ends_the_run(rt: HostRuntime) -> Result<(), RowError> {
    let alloc = rt.alloc();
    let leader = first_disk(alloc)?;
    let packets = packets_of(alloc, &leader.journal, 1)?;
    assert_eq!(rt; fail_each(alloc, &packets, &leader, CallKind::Push, 0)?, 6);
    assert!(rt; fail_each(alloc, &packets, &leader, CallKind::Sync, 0)? >= 11);
    assert!(rt; fail_each(alloc, &packets, &leader, CallKind::Write, 0)? >= 12);
    assert!(rt; fail_each(alloc, &packets, &leader, CallKind::Write, 3)? >= 12);
    assert!(rt; fail_each(alloc, &packets, &leader, CallKind::Pull, 0)? >= 2);
    Ok(())
}
