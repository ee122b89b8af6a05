//! A script in pieces of any size gives the same items.
use crate::tests::batches::next_in_words;
use crate::tests::given::expect_same;
use crate::tests::in_words::{command_in_words, counted, owned};
use crate::tests::pieces::failing_first;
use script_items::{Item, Reader, ScriptError};
use std::alloc::Global;
use std::process::Abort;

/// What is read in words: a command, a line that is none, or nothing more.
fn item_in_words(rt: &impl Abort, alloc: Global, item: &Option<Item>) -> String {
    match item {
        Some(Item::Command(command)) => command_in_words(rt, alloc, command),
        Some(Item::Line) => owned(rt, alloc, "line"),
        None => owned(rt, alloc, "finished"),
    }
}

/// Why nothing is read, in words.
fn error_in_words(rt: &impl Abort, alloc: Global, error: &ScriptError) -> String {
    match error {
        ScriptError::Broken { at } => counted(rt, alloc, "broken at", *at),
        ScriptError::Budget => owned(rt, alloc, "budget"),
        ScriptError::Failed => owned(rt, alloc, "failed"),
        ScriptError::Memory => owned(rt, alloc, "memory"),
    }
}

/// An answer in words: an item, or why there is none.
pub(crate) fn in_words(
    rt: &impl Abort,
    alloc: Global,
    answer: &Result<Option<Item>, ScriptError>,
) -> String {
    match answer {
        Ok(item) => item_in_words(rt, alloc, item),
        Err(error) => error_in_words(rt, alloc, error),
    }
}

/// A reader answers this, call after call, of a script in pieces of that size whose first pull fails.
fn expect_answers(rt: &impl Abort, alloc: Global, script: &[u8], piece: usize, want: &[&str]) {
    let mut source = failing_first(script, piece);
    let mut reader = Reader::new(alloc).expect(rt, "memory");
    for words in want {
        let answer = next_in_words(rt, alloc, &mut reader, &mut source);
        expect_same(rt, answer.as_str(), *words);
    }
}

/// How many bytes a pull gives.
const PIECES: [usize; 5] = [1, 2, 3, 7, 4096];

/// A script with each command, and what is read of it.
const EVERY_COMMAND: &str =
    "# note\n\narrive 7 2007-07-23 5\r\nred a\r\n  delete 7  020 \n   \nplan Straße guarantee 3/2\nplan v space 3/2 uniform\nplan v space 5/1 since 30\npropose v guarantee 3/2\nfind 1969-12-31 red\nfind 2007-07-23  red  blue \nbetween 15 35 v\nbetween 35 35 v\nshow 4294967295 0\nhello\ncertificate v\n#\nverify";

const EVERY_ANSWER: [&str; 16] = [
    "failed",
    "arrive 7 1185148800 red a",
    "delete 7 20",
    "plan Straße guarantee 3/2",
    "plan v uniform 3/2",
    "plan v since 30 5/1",
    "propose v 3/2",
    "line",
    "find 1185148800 red  blue",
    "between 15 35 v",
    "line",
    "show 4294967295 0",
    "line",
    "certificate v",
    "verify",
    "finished",
];

#[test]
fn reads_every_command_in_any_pieces(rt: HostRuntime) {
    for piece in &PIECES {
        expect_answers(
            &rt,
            rt.alloc(),
            EVERY_COMMAND.as_bytes(),
            *piece,
            &EVERY_ANSWER,
        );
    }
}

/// Lines to come: each with what is read, or `line` where a bound is broken.
const LINES_TO_COME: [(&str, &str); 57] = [
    ("begin v guarantee 3/2", "begin v 3/2"),
    ("  begin  Straße  guarantee  1/1 ", "begin Straße 1/1"),
    ("begin v space 3/2 uniform", "line"),
    ("begin v guarantee 1/2", "line"),
    ("begin v guarantee 3/2 x", "line"),
    ("begin v guarantee", "line"),
    ("begin", "line"),
    ("format 2", "format 2"),
    ("format 02", "line"),
    ("format 1", "line"),
    ("format", "line"),
    ("format 2 2", "line"),
    ("batch 0", "line"),
    ("top 1 15 red or blue", "top 1 15 red or blue"),
    ("top 1000000 1970-01-02  a  b ", "top 1000000 86400 a  b"),
    ("top 007 15 v", "top 7 15 v"),
    ("top 0 15 v", "line"),
    ("top 1000001 15 v", "line"),
    ("top 4294967296 15 v", "line"),
    ("top 1 15", "line"),
    ("top 1", "line"),
    ("top v 15 v", "line"),
    ("best 1 15 v", "best 1 15 v"),
    ("best 1000 15 a or b", "best 1000 15 a or b"),
    ("best 0 15 v", "line"),
    ("best 1001 15 v", "line"),
    ("best 1 x v", "line"),
    ("best 1 15 ", "line"),
    ("approx v 1/4", "approx v 1/4"),
    ("approx v 0/1", "approx v 0/1"),
    (
        "approx v 4294967294/4294967295",
        "approx v 4294967294/4294967295",
    ),
    ("approx v 1/1", "line"),
    ("approx v 2/1", "line"),
    ("approx v 0/0", "line"),
    ("approx v 1/4294967296", "line"),
    ("approx v 1/4 x", "line"),
    ("approx 1/4", "line"),
    ("rough 1/4 15 v", "rough 1/4 15 v"),
    ("rough 0/7 15 not  v", "rough 0/7 15 not  v"),
    ("rough 1/1 15 v", "line"),
    ("rough 1/4 15", "line"),
    ("rough 1/4 v 15", "line"),
    ("rough 14 15 v", "line"),
    ("share 2/1 v moon", "share 2/1 v moon"),
    ("share 16/1 v", "share 16/1 v"),
    ("share 32/2  v  v ", "share 32/2 v v"),
    (
        "share 4294967295/268435456 v",
        "share 4294967295/268435456 v",
    ),
    ("share 17/1 v", "line"),
    ("share 33/2 v", "line"),
    ("share 4294967295/268435455 v", "line"),
    ("share 1/2 v", "line"),
    ("share 2/1", "line"),
    ("share 2/1 ", "line"),
    ("share v", "line"),
    (
        "share 1/1 a b c d e f g h i j k l m n o p",
        "share 1/1 a b c d e f g h i j k l m n o p",
    ),
    ("share 1/1 a b c d e f g h i j k l m n o p q", "line"),
    ("shares 1/1 a", "line"),
];

/// A line is read so, and is all of its script.
fn expect_line(rt: &impl Abort, alloc: Global, (line, words): (&str, &str)) {
    let want = ["failed", words, "finished"];
    expect_answers(rt, alloc, line.as_bytes(), 3, &want);
}

#[test]
fn reads_each_line_to_come_whole(rt: HostRuntime) {
    for row in &LINES_TO_COME {
        expect_line(&rt, rt.alloc(), *row);
    }
}

/// What may stand behind an arrival of 20 bytes, with the place at which it breaks the script.
const FAULTY: [(&str, &str); 7] = [
    ("arrive 7 70 9\nblue", "broken at 38"),
    ("arrive 7 70 3\nred a\n", "broken at 37"),
    ("arrive 7 70 3\nred\ra\n", "broken at 37"),
    ("arrive 7 70 3\nred\r", "broken at 38"),
    ("arrive 7 70", "broken at 20"),
    ("arrive 7 70 x\n", "broken at 20"),
    (" arrive\n", "broken at 20"),
];

/// In pieces of that size the arrival is read, and then what stands behind it is broken at that place.
fn expect_broken(rt: &impl Abort, alloc: Global, piece: usize, (line, place): (&str, &str)) {
    let mut script = Vec::from_slice(alloc, b"arrive 7 10 5\nred a\n").expect(rt, "memory");
    script
        .extend_from_slice(line.as_bytes())
        .expect(rt, "memory");
    let want = ["failed", "arrive 7 10 red a", place];
    expect_answers(rt, alloc, script.as_slice(), piece, &want);
}

#[test]
fn names_the_place_of_what_is_broken(rt: HostRuntime) {
    for piece in &PIECES {
        for row in &FAULTY {
            expect_broken(&rt, rt.alloc(), *piece, *row);
        }
    }
}

/// A script whose first item is `front`, so many bytes and `back`, and whose second is `verify`.
fn around(rt: &impl Abort, alloc: Global, front: &str, n: usize, back: &str) -> Vec<u8> {
    let mut script = Vec::from_slice(alloc, front.as_bytes()).expect(rt, "memory");
    script
        .resize(front.len().saturating_add(n), b'a')
        .expect(rt, "memory");
    script
        .extend_from_slice(back.as_bytes())
        .expect(rt, "memory");
    script.extend_from_slice(b"verify\n").expect(rt, "memory");
    script
}

/// How many bytes a line has, its end, and what is read.
const LONG_LINES: [(usize, &str, &str); 4] = [
    (4095, "\n", "line"),
    (4096, "\r\n", "line"),
    (4097, "\n", "broken at 0"),
    (4096, "\r\r\n", "broken at 0"),
];

/// A line of so many bytes and this end is read so.
fn expect_long_line(rt: &impl Abort, alloc: Global, (n, end, words): (usize, &str, &str)) {
    let script = around(rt, alloc, "", n, end);
    expect_answers(rt, alloc, script.as_slice(), 7, &["failed", words]);
}

#[test]
fn a_line_has_at_most_4096_bytes(rt: HostRuntime) {
    for row in &LONG_LINES {
        expect_long_line(&rt, rt.alloc(), *row);
    }
}

/// What is read where a text has a byte more than it may.
const TOO_LONG: [&str; 4] = [
    "failed",
    "arrive 7 10 too long 4194305",
    "verify",
    "finished",
];

#[test]
fn a_text_above_the_limit_is_passed_over(rt: HostRuntime) {
    let bytes = base_commands::MOST_TEXT_BYTES + 1;
    let script = around(&rt, rt.alloc(), "arrive 7 10 4194305\n", bytes, "\r\n");
    expect_answers(&rt, rt.alloc(), script.as_slice(), 65536, &TOO_LONG);
}
