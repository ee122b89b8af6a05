//! Sublists that aren't what the entries of their plans say, and the run's end where one is read.
use machine_mem::MemMachine;
use machine_model::Image;
use pages_sublists::{Damage, Why};
use rows_rig::{
    CLIPPED_LIVES, Damaged, FIRST_CERTIFICATE, FIRST_LIFE, GAP_RECORDS, LIFE_OF_1, LIFE_OF_3,
    NOTHING, Row, RowError, Segment, Sublist, disk_with, disk_with_bytes, expect_damaged,
    expect_on, expect_planned, first_disk, first_segments, journal_of, machine_on, pages_of,
    plan_of_v, plan_record, run_on, segment_at,
};
use run_script::Status;
use std::alloc::Global;

/// What the first sublist has when its byte 3 is 01.
const DIGEST_OF_CHANGED: &[u8] = b"\x85\xb1\x24\x22\x89\x5c\x18\x80\xce\x78\x26\x98\xd4\xbd\x51\x6a\
    \xc4\x8d\x72\x9f\x37\x00\xe8\x84\x57\x4d\x2a\xd7\x8e\x7f\x5c\x2f";

/// A byte that spells no list.
const FORMLESS: Sublist<'static> = Sublist {
    bytes: b"\x05",
    digest: b"\xe7\x7b\x9a\x9a\xe9\xe3\x0b\x0d\xbd\xb6\xf5\x10\xa2\x64\xef\x9d\
        \xe7\x81\x50\x1d\x7b\x6b\x92\xae\x89\xeb\x05\x9c\x5a\xb7\x43\xdb",
};

/// Document 9, which never arrives, has the word once in [10, 40).
const LIFE_OF_9: Sublist<'static> = Sublist {
    bytes: b"\x01\x00\x03\x00\x00\x00\x01\x00\x00\x00\x09\x00\x00\x00\x09\x01\x0a\x1e",
    digest: b"\x87\xd0\xd4\x01\x6b\x76\xcc\x42\x34\xec\x5b\x61\xc1\x6b\x0f\xd3\
        \x59\x19\x70\xc8\x97\x73\x90\xb0\x77\x8d\xa5\xfe\x67\xbb\x52\x59",
};

/// Document 1 has the word once in [10, 40), and document 2 in [20, 40), which is deleted at 30.
const LATE_LIVES: Sublist<'static> = Sublist {
    bytes: b"\x02\x00\x07\x00\x00\x00\x01\x00\x00\x00\x01\x00\x00\x00\x02\x01\x0a\x1e\x01\x01\x14\x14",
    digest: b"\x9c\x2e\x97\x53\x1a\x6c\x89\xca\x9c\x43\x17\xc2\xbe\x92\x01\xb4\
        \xbc\x3d\xc6\x5c\x41\xbf\x3a\x62\x8c\x21\xec\x17\x71\xa8\xa2\x58",
};

/// The disk of the first plan, with another byte 3 of Pages.
fn changed_disk(alloc: Global) -> Result<Image, RowError> {
    let disk = first_disk(alloc)?;
    disk_with_bytes(alloc, &disk, &[(3, 1)])
}

/// A run on this disk ends at its first sublist, with both digests.
fn expect_digests(alloc: Global, machine: &mut MemMachine) -> Result<(), RowError> {
    let status = run_on(alloc, machine)?;
    let Status::Damaged(damage) = status else {
        return Err(RowError::Status { row: 0, status });
    };
    if damage.page != 0 || !has_digests(&damage) || !machine.shown().is_empty() {
        return Err(RowError::Status { row: 0, status });
    }
    Ok(())
}

/// The damage is that the first sublist has the digest of its bytes with another byte 3.
fn has_digests(damage: &Damage) -> bool {
    match &damage.why {
        Why::Digest { stored, got } => {
            stored.as_slice() == LIFE_OF_1.digest && got.as_slice() == DIGEST_OF_CHANGED
        }
        _ => false,
    }
}

#[test]
fn a_byte_that_changed_is_told_by_both_digests(rt: HostRuntime) -> Result<(), RowError> {
    let alloc = rt.alloc();
    let disk = changed_disk(alloc)?;
    let mut machine = machine_on(alloc, b"find 15 v\n", disk, &[])?;
    expect_digests(alloc, &mut machine)
}

/// Scripts on that disk. The line of the end names the page. What comes behind the question isn't carried out.
const CHANGED: [Damaged<'static>; 5] = [
    Damaged {
        script: b"find 15 v\n",
        replies: b"",
        line: "tt_archive: damaged sublist at page 0: digest",
    },
    Damaged {
        script: b"find 10 v\narrive 3 40 1\nv\n",
        replies: b"",
        line: "tt_archive: damaged sublist at page 0: digest",
    },
    Damaged {
        script: b"find 25 v\nfind 19 v\n",
        replies: b"hit 1 1\nhit 2 1\nend 2 read 2\n",
        line: "tt_archive: damaged sublist at page 0: digest",
    },
    Damaged {
        script: b"between 20 21 v\nbetween 19 21 v\n",
        replies: b"span 1 20 21 1\nspan 2 20 21 1\nend 2 read 2\n",
        line: "tt_archive: damaged sublist at page 0: digest",
    },
    Damaged {
        script: b"find 15 w v\n",
        replies: b"",
        line: "tt_archive: damaged sublist at page 0: digest",
    },
];

#[test]
fn the_run_ends_where_the_changed_sublist_is_read(rt: HostRuntime) -> Result<(), RowError> {
    let alloc = rt.alloc();
    let disk = changed_disk(alloc)?;
    expect_damaged(alloc, &disk, &CHANGED)
}

// The byte is the last of Pages.
#[test]
fn the_last_sublist_is_read_like_the_first(rt: HostRuntime) -> Result<(), RowError> {
    let alloc = rt.alloc();
    let first = first_disk(alloc)?;
    let disk = disk_with_bytes(alloc, &first, &[(8209, 0)])?;
    let row = Damaged {
        script: b"find 15 v\nfind 35 v\n",
        replies: b"hit 1 1\nend 1 read 1\n",
        line: "tt_archive: damaged sublist at page 2: digest",
    };
    expect_damaged(alloc, &disk, &[row])
}

/// What reads other sublists of the changed disk, or none, is answered.
const ANSWERED: [Row<'static>; 4] = [
    Row {
        script: b"find 9 v\nfind 20 v\nfind 39 v\nfind 40 v\nfind 15 w\nbetween 20 35 v\n",
        replies: b"end 0 read 0\nhit 1 1\nhit 2 1\nend 2 read 2\nhit 1 1\nend 1 read 1\nend 0 read 0\nend 0 read 0\nspan 1 20 35 1\nspan 2 20 30 1\nend 2 read 3\n",
    },
    Row {
        script: b"certificate v\n",
        replies: FIRST_CERTIFICATE,
    },
    Row {
        script: b"propose v guarantee 2/1\nshow 1 15\n",
        replies: b"segment 10 40 2\nnode 10 0\nnode 20 1\nnode 30 2\nnode 40 2\nend 1 space 2\ntext 1\nv\n",
    },
    // a new plan is made of the list in memory, and takes other pages
    Row {
        script: b"plan v guarantee 1/1\nfind 15 v\n",
        replies: b"plan 6 segments 3 space 4 full 2 horizon 40\nhit 1 1\nend 1 read 1\n",
    },
];

#[test]
fn what_reads_other_sublists_or_none_is_answered(rt: HostRuntime) -> Result<(), RowError> {
    let alloc = rt.alloc();
    let disk = changed_disk(alloc)?;
    expect_on(alloc, &disk, &ANSWERED)
}

/// On a disk with a plan of these segments the run of a script ends so.
fn expect_segments(alloc: Global, rows: &[(&[Segment<'_>], Damaged<'_>)]) -> Result<(), RowError> {
    for (segments, row) in rows {
        let disk = disk_with(alloc, &plan_of_v(40, segments))?;
        expect_damaged(alloc, &disk, &[*row])?;
    }
    Ok(())
}

// The digests are right: no archive wrote these.
#[test]
fn bytes_that_are_no_sublist_of_the_segment_are_told_why(rt: HostRuntime) -> Result<(), RowError> {
    let [one, two, three] = first_segments();
    let formless = [one, segment_at(20, 1, FORMLESS), three];
    let early = [one, segment_at(20, 1, FIRST_LIFE), three];
    let late = [one, two, segment_at(30, 2, LIFE_OF_3)];
    let other = [one, segment_at(20, 1, CLIPPED_LIVES), three];
    let bare = [segment_at(10, 0, NOTHING), two, three];
    let rows: [(&[Segment<'_>], Damaged<'_>); 6] = [
        (
            &formless,
            Damaged {
                script: b"find 15 v\nfind 25 v\n",
                replies: b"hit 1 1\nend 1 read 1\n",
                line: "tt_archive: damaged sublist at page 1: form",
            },
        ),
        (
            &early,
            Damaged {
                script: b"find 15 v\nfind 25 v\n",
                replies: b"hit 1 1\nend 1 read 1\n",
                line: "tt_archive: damaged sublist at page 1: astray",
            },
        ),
        (
            &late,
            Damaged {
                script: b"find 15 v\nfind 35 v\n",
                replies: b"hit 1 1\nend 1 read 1\n",
                line: "tt_archive: damaged sublist at page 2: astray",
            },
        ),
        (
            &other,
            Damaged {
                script: b"find 15 v\nbetween 19 21 v\n",
                replies: b"hit 1 1\nend 1 read 1\n",
                line: "tt_archive: damaged sublist at page 1: clash",
            },
        ),
        (
            &other,
            Damaged {
                script: b"find 15 v\nbetween 29 31 v\n",
                replies: b"hit 1 1\nend 1 read 1\n",
                line: "tt_archive: damaged sublist at page 2: clash",
            },
        ),
        (
            &bare,
            Damaged {
                script: b"find 15 v\n",
                replies: b"",
                line: "tt_archive: damaged sublist at page 0: bare",
            },
        ),
    ];
    expect_segments(rt.alloc(), &rows)
}

// What has the right digest is read, whatever wrote it.
#[test]
fn a_document_has_no_row_while_it_is_not_alive(rt: HostRuntime) -> Result<(), RowError> {
    let [one, two, three] = first_segments();
    let strange = [segment_at(10, 0, LIFE_OF_9), two, three];
    let late = [
        one,
        segment_at(20, 1, LATE_LIVES),
        segment_at(30, 2, LATE_LIVES),
    ];
    let never = [
        segment_at(10, 0, LIFE_OF_9),
        segment_at(20, 1, LIFE_OF_9),
        segment_at(30, 2, LIFE_OF_9),
    ];
    let rows = [
        // a document that isn't alive is no hit
        (
            plan_of_v(40, &strange),
            Row {
                script: b"find 15 v\nbetween 10 20 v\nfind 25 v\n",
                replies: b"end 0 read 1\nend 0 read 1\nhit 1 1\nhit 2 1\nend 2 read 2\n",
            },
        ),
        // a posting past a life is cut where the life ends, also beside a word without a plan
        (
            plan_of_v(40, &late),
            Row {
                script: b"find 35 v\nbetween 15 41 v\nbetween 15 41 w or v\nbetween 30 40 v\nbetween 15 41 v and not w\n",
                replies: b"hit 1 1\nend 1 read 2\nspan 1 15 40 1\nspan 2 20 30 1\nend 2 read 5\nspan 1 15 40 1\nspan 2 20 30 1\nend 2 read 5\nspan 1 30 40 1\nend 1 read 2\nspan 1 15 40 1\nspan 2 20 30 1\nend 2 read 5\n",
            },
        ),
        // a document that never came has no span
        (
            plan_of_v(40, &never),
            Row {
                script: b"between 5 50 v\nbetween 20 30 v\n",
                replies: b"end 0 read 3\nend 0 read 1\n",
            },
        ),
    ];
    expect_planned(rt.alloc(), &rows)
}

/// The disk of the changes with a gap, and a plan of these segments.
fn gap_disk(alloc: Global, segments: &[Segment<'_>]) -> Result<Image, RowError> {
    let record = plan_record(alloc, &plan_of_v(40, segments))?;
    let journal = journal_of(alloc, &[GAP_RECORDS, &record])?;
    let pages = pages_of(alloc, segments)?;
    Ok(Image { journal, pages })
}

#[test]
fn a_posting_across_a_deletion_is_two_spans(rt: HostRuntime) -> Result<(), RowError> {
    let alloc = rt.alloc();
    let segments = [
        segment_at(10, 0, LIFE_OF_1),
        segment_at(20, 1, LIFE_OF_1),
        segment_at(30, 2, LIFE_OF_1),
    ];
    let disk = gap_disk(alloc, &segments)?;
    let rows = [Row {
        script: b"find 25 v\nbetween 5 50 v\nbetween 15 35 v\nbetween 20 30 v\n",
        replies: b"end 0 read 1\nspan 1 10 20 1\nspan 1 30 40 1\nend 2 read 3\nspan 1 15 20 1\nspan 1 30 35 1\nend 2 read 3\nend 0 read 1\n",
    }];
    expect_on(alloc, &disk, &rows)
}
