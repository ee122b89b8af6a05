//! What is found as of a time.
use machine_mem::MemMachine;
use rows_rig::{
    FIRST_JOURNAL, Row, RowError, expect_changes, expect_rows, join, made, read_journal,
};
use std::alloc::{AllocError, Global};

/// Questions of the archive of one arrival.
const ON_ONE_ARRIVAL: [Row<'static>; 3] = [
    // a word is found while a version has it
    Row {
        script: b"find 9 red\nfind 10 red\nfind 10 moon\n",
        replies: b"end 0 read 1\nhit 7 1\nend 1 read 1\nend 0 read 0\n",
    },
    Row {
        script: b"arrive 7 20 4\nblue\nfind 19 red\nfind 20 red\nshow 7 19\nshow 7 9\n",
        replies: b"ok 2\nhit 7 1\nend 1 read 1\nend 0 read 1\ntext 5\nred a\nnone\n",
    },
    // the last of all times
    Row {
        script: b"find 0 red\nfind 1099511627775 red\nshow 7 0\nshow 7 1099511627775\n",
        replies: b"end 0 read 1\nhit 7 1\nend 1 read 1\nnone\ntext 5\nred a\n",
    },
];

#[test]
fn a_word_is_found_while_a_version_has_it(rt: HostRuntime) -> Result<(), RowError> {
    expect_rows(rt.alloc(), FIRST_JOURNAL, &ON_ONE_ARRIVAL)
}

/// Changes and questions on a new archive.
const ON_NEW: [Row<'static>; 14] = [
    // versions of one frequency are one posting, and a gap parts two
    Row {
        script: b"arrive 7 10 5\nred a\narrive 7 20 7\nred bee\narrive 7 30 3\nred\nfind 25 red\n",
        replies: b"ok 1\nok 2\nok 3\nhit 7 1\nend 1 read 1\n",
    },
    Row {
        script: b"arrive 7 10 3\nred\ndelete 7 20\narrive 7 30 3\nred\nfind 25 red\nfind 30 red\n",
        replies: b"ok 1\nok 2\nok 3\nend 0 read 2\nhit 7 1\nend 1 read 2\n",
    },
    // another frequency parts them too
    Row {
        script: b"arrive 7 10 3\nred\narrive 7 20 7\nred red\narrive 7 30 3\nred\nfind 19 red\nfind 20 red\nfind 30 red\n",
        replies: b"ok 1\nok 2\nok 3\nhit 7 1\nend 1 read 3\nhit 7 2\nend 1 read 3\nhit 7 1\nend 1 read 3\n",
    },
    // rows come by score and then by document
    Row {
        script: b"arrive 9 10 3\nred\narrive 5 10 7\nred red\narrive 3 10 3\nred\narrive 4 10 4\nblue\nfind 10 red\n",
        replies: b"ok 1\nok 2\nok 3\nok 4\nhit 5 2\nhit 3 1\nhit 9 1\nend 3 read 3\n",
    },
    // a word is found in any case and script
    Row {
        script: b"arrive 7 10 12\nRed RED red2\nfind 10 red\nfind 10 RED\nfind 10 Red2\nfind 10 re\n",
        replies: b"ok 1\nhit 7 2\nend 1 read 1\nhit 7 2\nend 1 read 1\nhit 7 1\nend 1 read 1\nend 0 read 0\n",
    },
    Row {
        script: b"arrive 7 10 12\nsand and And\nfind 10 And\nfind 10 and\nfind 10 or\nfind 10 not\n",
        replies: b"ok 1\nhit 7 2\nend 1 read 1\nno 11 BadQuery 0\nno 11 BadQuery 0\nno 11 BadQuery 3\n",
    },
    Row {
        script: b"arrive 7 10 9\nred blue.\nfind 10 red blue\nfind 10 red.\nfind 10 e-mail\nfind 10 (red)\nfind 10 blue\n",
        replies: b"ok 1\nhit 7 2\nend 1 read 2\nhit 7 1\nend 1 read 1\nno 11 BadQuery 0\nhit 7 1\nend 1 read 1\nhit 7 1\nend 1 read 1\n",
    },
    Row {
        script: b"arrive 7 10 7\nStra\xc3\x9fe\nfind 10 STRASSE\nfind 10 stra\xc3\x9fe\nfind 10 Strase\n",
        replies: b"ok 1\nhit 7 1\nend 1 read 1\nhit 7 1\nend 1 read 1\nend 0 read 0\n",
    },
    Row {
        script: b"arrive 7 10 0\n\narrive 8 10 1\na\nfind 10 a\nshow 7 10\nshow 8 10\n",
        replies: b"ok 1\nok 2\nhit 8 1\nend 1 read 1\ntext 0\n\ntext 1\na\n",
    },
    // words are joined by `and`, `or` and `not`
    Row {
        script: b"arrive 1 10 8\nred blue\narrive 2 10 7\nred red\narrive 3 10 5\ngreen\nfind 10 red\nfind 10 red not blue\nfind 10 blue or green\nfind 10 not red\nfind 10 red or\nfind 10 red )\nfind 10 e-mail\n",
        replies: b"ok 1\nok 2\nok 3\nhit 2 2\nhit 1 1\nend 2 read 2\nhit 2 2\nend 1 read 3\nhit 1 1\nhit 3 1\nend 2 read 2\nhit 3 0\nend 1 read 2\nno 11 BadQuery 6\nno 11 BadQuery 4\nno 11 BadQuery 0\n",
    },
    Row {
        script: b"arrive 1 10 8\nred blue\narrive 2 10 7\nred red\nfind 10 red\nfind 10 red blue\nfind 10 red or\n",
        replies: b"ok 1\nok 2\nhit 2 2\nhit 1 1\nend 2 read 2\nhit 1 2\nend 1 read 3\nno 11 BadQuery 6\n",
    },
    // `not` binds tighter than `and`, and `and` tighter than `or`
    Row {
        script: b"arrive 1 10 3\nred\narrive 2 10 10\nblue green\nfind 10 red or blue green\nfind 10 (red or blue) green\nfind 10 not red blue\nfind 10 not (red blue)\n",
        replies: b"ok 1\nok 2\nhit 2 2\nhit 1 1\nend 2 read 3\nhit 2 2\nend 1 read 3\nhit 2 1\nend 1 read 2\nhit 1 0\nhit 2 0\nend 2 read 2\n",
    },
    // a word counts once, and where one of its places is under an even number of `not`
    Row {
        script: b"arrive 7 10 7\nred red\nfind 10 red red\nfind 10 RED and red\nfind 10 red not red\nfind 10 red or not red\nfind 10 not not red\n",
        replies: b"ok 1\nhit 7 2\nend 1 read 1\nhit 7 2\nend 1 read 1\nend 0 read 1\nhit 7 2\nend 1 read 1\nhit 7 2\nend 1 read 1\n",
    },
    // what lacks a word is found while it is alive
    Row {
        script: b"arrive 1 10 4\nblue\narrive 2 20 3\nred\ndelete 1 30\narrive 2 40 5\ngreen\nfind 9 not red\nfind 10 not red\nfind 20 not red\nfind 30 not red\nfind 40 not red\nfind 40 not red blue\n",
        replies: b"ok 1\nok 2\nok 3\nok 4\nend 0 read 1\nhit 1 0\nend 1 read 1\nhit 1 0\nend 1 read 1\nend 0 read 1\nhit 2 0\nend 1 read 1\nend 0 read 2\n",
    },
];

#[test]
fn what_is_found_is_what_the_query_says(rt: HostRuntime) -> Result<(), RowError> {
    expect_rows(rt.alloc(), b"", &ON_NEW)
}

/// A script's question with a text so many times in front of a word, and another behind it.
fn nested(alloc: Global, times: usize, open: &[u8], close: &[u8]) -> Result<Vec<u8>, AllocError> {
    let mut script = Vec::from_slice(alloc, b"arrive 7 10 3\nred\nfind 10 ")?;
    for _ in 0..times {
        script.extend_from_slice(open)?;
    }
    script.extend_from_slice(b"red")?;
    for _ in 0..times {
        script.extend_from_slice(close)?;
    }
    script.push(b'\n')?;
    Ok(script)
}

/// So many texts in front of a word and behind it, and the replies.
const NESTED: [(usize, &[u8], &[u8], &[u8]); 4] = [
    (64, b"(", b")", b"ok 1\nhit 7 1\nend 1 read 1\n"),
    (65, b"(", b")", b"ok 1\nno 11 BadQuery 64\n"),
    (64, b"not ", b"", b"ok 1\nhit 7 1\nend 1 read 1\n"),
    (65, b"not ", b"", b"ok 1\nno 11 BadQuery 256\n"),
];

#[test]
fn sixty_four_may_be_open_at_once(rt: HostRuntime) -> Result<(), RowError> {
    let alloc = rt.alloc();
    for (times, open, close, replies) in &NESTED {
        let script = nested(alloc, *times, open, close)?;
        let row = Row {
            script: &script,
            replies,
        };
        expect_rows(alloc, b"", &[row])?;
    }
    Ok(())
}

/// A text with a run of letters, and questions of it, of its neighbour, and of most of the run.
fn long_run(alloc: Global, run: &[u8], most: &[u8]) -> Result<Vec<u8>, AllocError> {
    join(
        alloc,
        &[
            b"arrive 7 10 302\n",
            run,
            b" b\nfind 10 a\nfind 10 b\nfind 10 ",
            run,
            b"\nfind 10 ",
            most,
            b"\n",
        ],
    )
}

#[test]
fn a_run_of_300_letters_is_no_word(rt: HostRuntime) -> Result<(), RowError> {
    let alloc = rt.alloc();
    let run = vec![in alloc; b'a'; 300]?;
    let most = vec![in alloc; b'a'; 255]?;
    let script = long_run(alloc, &run, &most)?;
    let row = Row {
        script: &script,
        replies: b"ok 1\nend 0 read 0\nhit 7 1\nend 1 read 1\nno 11 BadQuery 0\nend 0 read 0\n",
    };
    expect_rows(alloc, b"", &[row])
}

/// Texts that come by the archive's own calls.
fn machine_with_texts(alloc: Global) -> Result<MemMachine, RowError> {
    let changes = [
        made(1, 10, Some("Straße".as_bytes()), 1),
        // with the Kelvin sign at the end
        made(2, 10, Some("STRASSE und \u{212a}".as_bytes()), 2),
    ];
    expect_changes(alloc, &changes)
}

#[test]
fn a_word_is_found_in_texts_of_any_script(rt: HostRuntime) -> Result<(), RowError> {
    let alloc = rt.alloc();
    let mut machine = machine_with_texts(alloc)?;
    let journal = read_journal(alloc, &mut machine)?;
    let row = Row {
        script: b"find 10 Strasse\nfind 10 k\nfind 9 k\nshow 1 10\n",
        replies: "hit 1 1\nhit 2 1\nend 2 read 2\nhit 2 1\nend 1 read 1\nend 0 read 1\ntext 7\nStraße\n".as_bytes(),
    };
    expect_rows(alloc, &journal, &[row])
}
