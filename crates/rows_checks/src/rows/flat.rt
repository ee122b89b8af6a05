//! Flat sublists are checked too, by the 24 bytes of each posting.
use rows_rig::{RowError, expect_told, flat_disk};

#[test]
fn flat_sublists_are_checked_by_their_layout(rt: HostRuntime) -> Result<(), RowError> {
    let alloc = rt.alloc();
    let disk = flat_disk(alloc)?;
    let rows: [(&[(usize, u8)], &[u8]); 3] = [
        (&[], b"sound 1 3\n"),
        (&[(4096 + 47, 0x1f)], b"differs v 1 47 1f 1e\n"),
        (&[(4096 + 47, 0x1f), (3, 2)], b"differs v 0 3 02 01\n"),
    ];
    expect_told(alloc, &disk, &rows)
}
