//! The program's exit statuses and the lines that it prints of them.
use pages_sublists::{Damage, Why};
use rows_rig::{RowError, expect_line};
use run_script::Status;

#[test]
fn each_status_has_its_code_and_its_line(rt: HostRuntime) -> Result<(), RowError> {
    let bare = Damage {
        page: 7,
        why: Why::Bare,
    };
    let rows = [
        (Status::Done, 0, "tt_archive: done"),
        (
            Status::Usage,
            2,
            "tt_archive: usage: tt_archive [--generate SEED --count COUNT | --export FROM | --follow]",
        ),
        (
            Status::NotArchive { at: 16 },
            3,
            "tt_archive: not an archive at byte 16 of the journal",
        ),
        (Status::Disk, 4, "tt_archive: disk fault"),
        (Status::Source, 5, "tt_archive: source fault"),
        (Status::Sink, 6, "tt_archive: sink fault"),
        (
            Status::Script { at: 20 },
            7,
            "tt_archive: script fault at byte 20",
        ),
        (
            Status::Damaged(bare),
            8,
            "tt_archive: damaged sublist at page 7: bare",
        ),
        (
            Status::Budget,
            9,
            "tt_archive: no end after 1099511627776 bytes",
        ),
        (
            Status::NotEmpty { length: 7 },
            10,
            "tt_archive: the archive has 7 entries",
        ),
        (Status::Memory, 12, "tt_archive: no memory"),
        (
            Status::Gap { have: 2, got: 5 },
            13,
            "tt_archive: have 2 entries, got number 5",
        ),
        (
            Status::Conflict {
                number: 1,
                place: 4,
                kept: Some(7),
                got: None,
            },
            14,
            "tt_archive: entry 1 differs at byte 4",
        ),
        (
            Status::Packet { at: 102 },
            15,
            "tt_archive: bad packet at byte 102",
        ),
    ];
    for (row, (status, code, line)) in rows.iter().enumerate() {
        expect_line(rt.alloc(), row, *status, *code, line)?;
    }
    Ok(())
}
