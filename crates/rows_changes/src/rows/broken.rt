//! Scripts that are broken: the place, and what was carried out before it.
use rows_rig::{FIRST_JOURNAL, FIRST_SCRIPT, NEW_JOURNAL, RowError, Run, expect_run, join};
use run_script::Status;
use std::alloc::{AllocError, Global};

/// A second arrival.
const SECOND_ITEM: &[u8] = b"arrive 7 70 4\nblue\n";

/// These bytes break a script at a place in them, where they stand first in it and where they stand
/// behind one arrival, which is then carried out. In their table they are this row, counted from 0.
fn expect_broken(alloc: Global, row: usize, bytes: &[u8], place: u64) -> Result<(), RowError> {
    let first = Run {
        before: b"",
        script: bytes,
        status: Status::Script { at: place },
        replies: b"",
        after: NEW_JOURNAL,
    };
    expect_run(alloc, row, &first)?;
    let script = join(alloc, &[FIRST_SCRIPT, bytes])?;
    let behind = Run {
        before: b"",
        script: &script,
        status: Status::Script {
            at: place.saturating_add(FIRST_SCRIPT.len() as u64),
        },
        replies: b"ok 1\n",
        after: FIRST_JOURNAL,
    };
    expect_run(alloc, row, &behind)
}

/// Items, and the place where each of them breaks a script with another item behind it.
const ITEMS: [(&[u8], u64); 16] = [
    // an arrival that is none breaks it at its first byte
    (b"arrive 4294967296 10 5\nred a\n", 0),
    (b"arrive 7 1099511627776 5\nred a\n", 0),
    (b"arrive 7 10 1099511627776\nred a\n", 0),
    (b"arrive 7 10 18446744073709551621\nred a\n", 0),
    (b"arrive 7 2007-02-30 5\nred a\n", 0),
    (b"arrive 7 1969-12-31 5\nred a\n", 0),
    (b"arrive 10 5\nred a\n", 0),
    (b"arrive 7 10\nred a\n", 0),
    (b"  arrive 7 10\nred a\n", 0),
    (b"arrive 7 +10 5\nred a\n", 0),
    (b"arrive 7 10 5 5\nred a\n", 0),
    (b"arrive\n", 0),
    // and what stands in the place of a line end there
    (b"arrive 7 10 5\nred ab\n", 19),
    (b"arrive 7 10 4\nred a\n", 18),
    (b"arrive 7 10 5\nred a\rb\n", 19),
    (b"arrive 7 10 5\r\nred a\r\r\n", 20),
];

#[test]
fn an_item_that_is_none_breaks_the_script_at_its_place(rt: HostRuntime) -> Result<(), RowError> {
    let alloc = rt.alloc();
    for (row, (item, at)) in ITEMS.iter().enumerate() {
        let script = join(alloc, &[item, SECOND_ITEM])?;
        expect_broken(alloc, row, &script, *at)?;
    }
    Ok(())
}

/// Arrivals that are cut short, and the place.
const CUT_SHORT: [(&[u8], u64); 15] = [
    // up to its LF the line is no arrival
    (b"arrive", 0),
    (b"arrive ", 0),
    (b"arrive 7", 0),
    (b"arrive 7 ", 0),
    (b"arrive 7 7", 0),
    (b"arrive 7 70", 0),
    (b"arrive 7 70 ", 0),
    (b"arrive 7 70 4", 0),
    // behind it the text or its line end is missing at the input's end
    (b"arrive 7 70 4\n", 14),
    (b"arrive 7 70 4\nb", 15),
    (b"arrive 7 70 4\nbl", 16),
    (b"arrive 7 70 4\nblu", 17),
    (b"arrive 7 70 4\nblue", 18),
    (b"arrive 7 70 9\nblue", 18),
    (b"arrive 7 10 3\nred\r", 18),
];

#[test]
fn an_arrival_cut_short_breaks_the_script(rt: HostRuntime) -> Result<(), RowError> {
    for (row, (bytes, at)) in CUT_SHORT.iter().enumerate() {
        expect_broken(rt.alloc(), row, bytes, *at)?;
    }
    Ok(())
}

/// A script of one arrival whose line has so many bytes, most of them leading zeros, and this end.
fn long_line(alloc: Global, bytes: usize, end: &[u8]) -> Result<Vec<u8>, AllocError> {
    let mut script = Vec::from_slice(alloc, b"arrive 7 10 ")?;
    script.resize(bytes.saturating_sub(1), b'0')?;
    script.push(b'5')?;
    script.extend_from_slice(end)?;
    script.extend_from_slice(b"red a\n")?;
    Ok(script)
}

/// The run of this script, which is the first one in other words, or is broken at its first byte.
fn expect_line(alloc: Global, row: usize, script: &[u8], status: Status) -> Result<(), RowError> {
    let (replies, after): (&[u8], &[u8]) = match status {
        Status::Done => (b"ok 1\n", FIRST_JOURNAL),
        _ => (b"", NEW_JOURNAL),
    };
    let run = Run {
        before: b"",
        script,
        status,
        replies,
        after,
    };
    expect_run(alloc, row, &run)
}

#[test]
fn a_line_has_at_most_4096_bytes(rt: HostRuntime) -> Result<(), RowError> {
    let alloc = rt.alloc();
    let rows = [
        (4096, b"\n".as_slice(), Status::Done),
        (4096, b"\r\n".as_slice(), Status::Done),
        (4097, b"\n".as_slice(), Status::Script { at: 0 }),
        (4097, b"\r\n".as_slice(), Status::Script { at: 0 }),
    ];
    for (row, (bytes, end, status)) in rows.iter().enumerate() {
        let script = long_line(alloc, *bytes, end)?;
        expect_line(alloc, row, &script, *status)?;
    }
    Ok(())
}
