//! Which version is valid at a time, and what may come next.
use crate::tests::given::{expect_same, expect_same_in};
use base_types::{DocId, NOW, Span, TextPlace, Time};
use lists_postings::Life;
use lists_versions::{Directory, VersionRefusal};
use std::alloc::Global;
use std::process::Abort;

fn time(rt: &impl Abort, seconds: u64) -> Time {
    Time::new(seconds).expect(rt, "a time")
}

/// Adds a version whose text has so many bytes, or a tombstone, where that is allowed.
fn change(
    rt: &impl Abort,
    directory: &mut Directory,
    doc: DocId,
    at: Time,
    bytes: Option<u32>,
) -> Result<(), VersionRefusal> {
    directory.reserve(doc).expect(rt, "memory");
    match bytes {
        Some(bytes) => {
            let allowed = directory.may_arrive(doc, at);
            if allowed.is_ok() {
                directory.arrive(doc, at, TextPlace { at: 100, bytes });
            }
            allowed
        }
        None => {
            let allowed = directory.may_delete(doc, at);
            if allowed.is_ok() {
                directory.delete(doc, at);
            }
            allowed
        }
    }
}

/// The directory of changes, all of which are allowed: a document, a time, and a text's bytes, or a
/// tombstone.
fn changed(rt: &impl Abort, alloc: Global, changes: &[(u32, u64, Option<u32>)]) -> Directory {
    let mut directory = Directory::new(alloc).expect(rt, "memory");
    for (doc, at, bytes) in changes {
        let allowed = change(rt, &mut directory, DocId(*doc), time(rt, *at), *bytes);
        expect_same_in(rt, *at, allowed, Ok(()));
    }
    directory
}

/// How many bytes the text at a place has.
fn bytes_of(place: Option<TextPlace>) -> Option<u32> {
    match place {
        Some(text) => Some(text.bytes),
        None => None,
    }
}

/// Document 7 has a text of so many bytes at that time, or none.
fn expect_place(rt: &impl Abort, directory: &Directory, at: u64, bytes: Option<u32>) {
    let time = time(rt, at);
    let place = directory.place(DocId(7), time);
    expect_same_in(rt, at, bytes_of(place), bytes);
    let alive = directory.alive_at(DocId(7), time);
    expect_same_in(rt, at, alive, bytes.is_some());
}

/// These documents are alive at that time.
fn expect_alive(rt: &impl Abort, alloc: Global, directory: &Directory, at: u64, docs: &[DocId]) {
    let alive = directory.alive(alloc, time(rt, at)).expect(rt, "memory");
    expect_same_in(rt, at, alive.as_slice(), docs);
}

/// Changes of two documents, the last one at 60.
const CHANGES: [(u32, u64, Option<u32>); 6] = [
    (7, 10, Some(1)),
    (7, 20, Some(2)),
    (3, 20, Some(3)),
    (7, 30, None),
    (7, 50, Some(4)),
    (7, 60, Some(5)),
];

/// Times, and how many bytes the text has that document 7 has then.
const PLACES: [(u64, Option<u32>); 11] = [
    (9, None),
    (10, Some(1)),
    (19, Some(1)),
    (20, Some(2)),
    (29, Some(2)),
    (30, None),
    (49, None),
    (50, Some(4)),
    (59, Some(4)),
    (60, Some(5)),
    (70, Some(5)),
];

#[test]
fn a_version_is_valid_from_its_time_until_the_next_ones(rt: HostRuntime) {
    let directory = changed(&rt, rt.alloc(), &CHANGES);
    for (at, bytes) in &PLACES {
        expect_place(&rt, &directory, *at, *bytes);
    }
    expect_alive(&rt, rt.alloc(), &directory, 25, &[DocId(3), DocId(7)]);
    expect_alive(&rt, rt.alloc(), &directory, 30, &[DocId(3)]);
}

#[test]
fn a_directory_counts_its_changes_and_documents(rt: HostRuntime) {
    expect_same(&rt, changed(&rt, rt.alloc(), &[]).last(), None);
    let directory = changed(&rt, rt.alloc(), &CHANGES);
    expect_same(&rt, directory.last(), Some(time(&rt, 60)));
    expect_same(&rt, directory.len(), 6);
    expect_same(&rt, directory.documents(), 2);
    expect_same(&rt, directory.changes().len(), 6);
}

/// Changes in turn are answered so.
fn expect_answers(
    rt: &impl Abort,
    directory: &mut Directory,
    rows: &[(u32, u64, Option<u32>, Result<(), VersionRefusal>)],
) {
    for (doc, at, bytes, wanted) in rows {
        let allowed = change(rt, directory, DocId(*doc), time(rt, *at), *bytes);
        expect_same_in(rt, (*doc, *at), allowed, *wanted);
    }
}

#[test]
fn refuses_in_order(rt: HostRuntime) {
    let mut directory = Directory::new(rt.alloc()).expect(&rt, "memory");
    let back = VersionRefusal::TimeBack {
        last: time(&rt, 10),
    };
    let rows = [
        (1, 10, None, Err(VersionRefusal::NoDocument)),
        (1, 10, Some(1), Ok(())),
        (1, 10, Some(2), Err(VersionRefusal::SameTime)),
        (1, 10, None, Err(VersionRefusal::SameTime)),
        (1, 9, Some(2), Err(back)),
        (2, 9, None, Err(back)),
        (1, 11, None, Ok(())),
        (1, 11, None, Err(VersionRefusal::NoDocument)),
        (1, 11, Some(2), Err(VersionRefusal::SameTime)),
    ];
    expect_answers(&rt, &mut directory, &rows);
}

/// Changes of two documents, of which one is deleted and comes again.
const RETURNING: [(u32, u64, Option<u32>); 5] = [
    (7, 10, Some(1)),
    (7, 20, Some(2)),
    (3, 20, Some(3)),
    (7, 30, None),
    (7, 35, Some(4)),
];

/// Spans, and the documents that are alive in them, each from a time until another one.
const LIVES: [((u64, u64), &[(u32, u64, u64)]); 7] = [
    ((0, NOW), &[(3, 20, NOW), (7, 10, 30), (7, 35, NOW)]),
    ((20, 30), &[(3, 20, 30), (7, 20, 30)]),
    ((30, 35), &[(3, 30, 35)]),
    ((25, 26), &[(3, 25, 26), (7, 25, 26)]),
    ((29, 36), &[(3, 29, 36), (7, 29, 30), (7, 35, 36)]),
    ((NOW - 1, NOW), &[(3, NOW - 1, NOW), (7, NOW - 1, NOW)]),
    ((0, 10), &[]),
];

/// Lives in numbers: documents, starts and ends.
fn told(rt: &impl Abort, alloc: Global, lives: &[Life]) -> Vec<(u32, u64, u64)> {
    let mut told = Vec::new(alloc);
    for life in lives {
        let row = (life.doc.0, life.span.from, life.span.to);
        told.push(row).expect(rt, "memory");
    }
    told
}

/// Those of document 7 alone.
fn of_seven(rt: &impl Abort, alloc: Global, lives: &[(u32, u64, u64)]) -> Vec<(u32, u64, u64)> {
    let mut sevens = Vec::new(alloc);
    for (doc, from, to) in lives {
        if *doc == 7 {
            sevens.push((7, *from, *to)).expect(rt, "memory");
        }
    }
    sevens
}

/// The lives in a span are these; a document that never came has none, and one that is named twice has its
/// own once.
fn expect_lives(
    rt: &impl Abort,
    alloc: Global,
    directory: &Directory,
    (ends, wanted): ((u64, u64), &[(u32, u64, u64)]),
) {
    let span = Span::new(ends.0, ends.1).expect(rt, "a span");
    let lives = directory.lives(alloc, span).expect(rt, "memory");
    expect_same_in(rt, ends, told(rt, alloc, &lives).as_slice(), wanted);
    let docs = [DocId(7), DocId(5), DocId(7)];
    let lives = directory.lives_of(alloc, &docs, span).expect(rt, "memory");
    expect_same_in(
        rt,
        ends,
        told(rt, alloc, &lives),
        of_seven(rt, alloc, wanted),
    );
}

#[test]
fn lives_go_on_over_new_versions_and_end_where_a_document_is_deleted(rt: HostRuntime) {
    let directory = changed(&rt, rt.alloc(), &RETURNING);
    for row in &LIVES {
        expect_lives(&rt, rt.alloc(), &directory, *row);
    }
}
