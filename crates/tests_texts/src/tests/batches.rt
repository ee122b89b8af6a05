//! A batch is one item, in whatever pieces it comes and whichever pulls fail.
use crate::tests::given::expect_same;
use crate::tests::in_words::{at_document, beside, counted, owned};
use crate::tests::pieces::{Pieces, halting};
use crate::tests::scripts::in_words;
use base_commands::{BatchItem, BatchItems, Command, Text};
use script_items::{Item, Reader, ScriptError};
use std::alloc::Global;
use std::process::Abort;

/// A text in words: a short one whole, or how long it is.
fn text_in_words(rt: &impl Abort, alloc: Global, text: &Text) -> String {
    match text {
        Text::Bytes(content) => short_in_words(rt, alloc, content.as_slice()),
        Text::TooLong { bytes } => counted(rt, alloc, "too long", *bytes),
    }
}

fn short_in_words(rt: &impl Abort, alloc: Global, text: &[u8]) -> String {
    if text.len() > 16 {
        return format!(in alloc; "{} bytes", text.len()).expect(rt, "memory");
    }
    String::from_utf8(Vec::from_slice(alloc, text).expect(rt, "memory")).expect(rt, "a text")
}

fn member_in_words(rt: &impl Abort, alloc: Global, member: &BatchItem) -> String {
    match member {
        BatchItem::Arrive { doc, at, text } => {
            let front = at_document(rt, alloc, "arrive", *doc, *at);
            let text = text_in_words(rt, alloc, text);
            beside(rt, alloc, front.as_str(), text.as_str())
        }
        BatchItem::Delete { doc, at } => at_document(rt, alloc, "delete", *doc, *at),
        BatchItem::Other => owned(rt, alloc, "other"),
    }
}

/// Items of a batch in words: how many they are, and the first three.
fn members_in_words(rt: &impl Abort, alloc: Global, members: &[BatchItem]) -> String {
    let mut line = counted(rt, alloc, "batch", members.len() as u64);
    for member in members.iter().take(3) {
        line.push_str("; ").expect(rt, "memory");
        let words = member_in_words(rt, alloc, member);
        line.push_str(words.as_str()).expect(rt, "memory");
    }
    line
}

fn batch_in_words(rt: &impl Abort, alloc: Global, batch: &BatchItems) -> String {
    match batch {
        BatchItems::Items(list) => members_in_words(rt, alloc, list.as_slice()),
        BatchItems::TooLong { bytes } => counted(rt, alloc, "batch too long", *bytes),
    }
}

/// An answer in words, where the items of a batch are told.
fn answer_in_words(
    rt: &impl Abort,
    alloc: Global,
    answer: &Result<Option<Item>, ScriptError>,
) -> String {
    match answer {
        Ok(Some(Item::Command(Command::Batch(batch)))) => batch_in_words(rt, alloc, batch),
        other => in_words(rt, alloc, other),
    }
}

/// The next answer of a reader in words.
pub(crate) fn next_in_words(
    rt: &impl Abort,
    alloc: Global,
    reader: &mut Reader,
    source: &mut Pieces<'_>,
) -> String {
    answer_in_words(rt, alloc, &reader.next_item(alloc, source))
}

/// The next answer in words that isn't a pull that failed.
fn next_answer(
    rt: &impl Abort,
    alloc: Global,
    reader: &mut Reader,
    source: &mut Pieces<'_>,
) -> String {
    for _ in 0..100000 {
        let words = next_in_words(rt, alloc, reader, source);
        if words.as_str() != "failed" {
            return words;
        }
    }
    owned(rt, alloc, "failed")
}

/// A reader answers this, call after call, of a script in pieces of that size; where a pull failed,
/// the call is made again.
fn expect_answers(rt: &impl Abort, alloc: Global, script: &[u8], piece: usize, want: &[&str]) {
    let mut source = halting(script, piece);
    let mut reader = Reader::new(alloc).expect(rt, "memory");
    for words in want {
        let answer = next_answer(rt, alloc, &mut reader, &mut source);
        expect_same(rt, answer.as_str(), *words);
    }
}

/// How many bytes a pull gives.
const PIECES: [usize; 5] = [1, 2, 3, 7, 4096];

/// Scripts, and their answers.
const SCRIPTS: [(&str, &[&str]); 16] = [
    (
        "batch 3\narrive 7 10 5\r\nred a\r\ndelete 7 20\nverify\nfind 20 red\n",
        &[
            "batch 3; arrive 7 10 red a; delete 7 20; other",
            "find 20 red",
            "finished",
        ],
    ),
    // the line of a batch within a batch is one item, and the batch ends without a line end
    (
        "batch 2\nbatch 2\ndelete 1 5\nbatch 1\ndelete 2 6",
        &[
            "batch 2; other; delete 1 5",
            "batch 1; delete 2 6",
            "finished",
        ],
    ),
    // lines that are skipped
    (
        "# a\n\n batch  02 \n  \n# b\ndelete 1 5\n#\n\r\ndelete 2 5\n\n#",
        &["batch 2; delete 1 5; delete 2 5", "finished"],
    ),
    // lines that begin no batch
    (
        "batch 0\nbatch 1001\nbatch 1 1\nbatch\nbatch x\nbatch 4294967297\ndelete 1 5",
        &[
            "line",
            "line",
            "line",
            "line",
            "line",
            "line",
            "delete 1 5",
            "finished",
        ],
    ),
    (
        "batch 2\nhello\nfind 20 red\n",
        &["batch 2; other; other", "finished"],
    ),
    (
        "batch 1\narrive 7 10 0\n\nverify",
        &["batch 1; arrive 7 10 ", "verify", "finished"],
    ),
    // the bytes of a text aren't looked at
    (
        "batch 1\narrive 7 10 8\nbatch 2\n\nverify",
        &["batch 1; arrive 7 10 batch 2\n", "verify", "finished"],
    ),
    // the input ends within a batch
    ("batch 1", &["broken at 7"]),
    ("batch 1000\n", &["broken at 11"]),
    ("verify\nbatch 2\ndelete 1 5\n", &["verify", "broken at 26"]),
    ("batch 2\ndelete 1 5\n# b\n\n", &["broken at 24"]),
    // and within an item of it
    ("batch 2\narrive 7 70", &["broken at 8"]),
    ("batch 2\narrive 7 70 9\nblue", &["broken at 26"]),
    ("batch 2\narrive 7 70 3\nred", &["broken at 25"]),
    // an item that is broken
    (
        "batch 2\ndelete 1 5\narrive 7 70 3\nred a\n",
        &["broken at 36"],
    ),
    ("batch 2\ndelete 1 5\narrive 7 70 x\n", &["broken at 19"]),
];

/// A script in pieces of that size has these answers.
fn expect_script(rt: &impl Abort, alloc: Global, piece: usize, (script, want): (&str, &[&str])) {
    expect_answers(rt, alloc, script.as_bytes(), piece, want);
}

#[test]
fn a_batch_is_one_item_in_any_pieces(rt: HostRuntime) {
    for piece in &PIECES {
        for row in &SCRIPTS {
            expect_script(&rt, rt.alloc(), *piece, *row);
        }
    }
}

/// The next answer of a reader is this.
fn expect_next(
    rt: &impl Abort,
    alloc: Global,
    reader: &mut Reader,
    source: &mut Pieces<'_>,
    words: &str,
) {
    let answer = next_in_words(rt, alloc, reader, source);
    expect_same(rt, answer.as_str(), words);
}

/// Calls answer this, one after another, of a script that comes whole in its first pull, while every
/// second pull fails.
#[test]
fn nothing_is_pulled_while_a_batch_is_whole(rt: HostRuntime) {
    let script = b"batch 1\ndelete 1 5\n# a\nbatch 2\ndelete 2 6\n";
    let mut source = halting(script, 4096);
    let mut reader = Reader::new(rt.alloc()).expect(&rt, "memory");
    for words in ["batch 1; delete 1 5", "failed", "broken at 42"] {
        expect_next(&rt, rt.alloc(), &mut reader, &mut source, words);
    }
}

/// The line of a batch of so many items.
fn batch_line(rt: &impl Abort, alloc: Global, count: usize) -> Vec<u8> {
    let mut line = counted(rt, alloc, "batch", count as u64);
    line.push_str("\n").expect(rt, "memory");
    line.into_bytes()
}

/// A batch of texts of these lengths, and `verify` behind it.
fn batch_of_texts(rt: &impl Abort, alloc: Global, texts: &[usize]) -> Vec<u8> {
    let mut script = batch_line(rt, alloc, texts.len());
    for text in texts {
        push_text(rt, alloc, &mut script, *text);
    }
    script.extend_from_slice(b"verify\n").expect(rt, "memory");
    script
}

fn push_text(rt: &impl Abort, alloc: Global, script: &mut Vec<u8>, text: usize) {
    let line = counted(rt, alloc, "arrive 7 10", text as u64);
    script
        .extend_from_slice(line.as_bytes())
        .expect(rt, "memory");
    script.push(b'\n').expect(rt, "memory");
    let end = script.len().saturating_add(text);
    script.resize(end, b'a').expect(rt, "memory");
    script.push(b'\n').expect(rt, "memory");
}

/// Texts by their lengths, and what their batch is.
const TEXTS: [(&[usize], &str); 4] = [
    (
        &[4194304, 4194304, 4194304, 4194304],
        "batch 4; arrive 7 10 4194304 bytes; arrive 7 10 4194304 bytes; arrive 7 10 4194304 bytes",
    ),
    (
        &[4194304, 4194304, 4194304, 4194304, 1],
        "batch too long 16777217",
    ),
    (&[4194305], "batch 1; arrive 7 10 too long 4194305"),
    (&[16777217, 1], "batch too long 16777218"),
];

/// A batch of texts of these lengths is this.
fn expect_batch(rt: &impl Abort, alloc: Global, texts: &[usize], words: &str) {
    let script = batch_of_texts(rt, alloc, texts);
    let want = [words, "verify", "finished"];
    expect_answers(rt, alloc, script.as_slice(), 65536, &want);
}

#[test]
fn texts_of_a_batch_have_together_at_most_16_mib(rt: HostRuntime) {
    for (texts, words) in &TEXTS {
        expect_batch(&rt, rt.alloc(), texts, words);
    }
}

/// A batch of so many deletions, of which so many are there, and then `verify`.
fn batch_of_deletions(rt: &impl Abort, alloc: Global, count: usize, there: usize) -> Vec<u8> {
    let mut script = batch_line(rt, alloc, count);
    for _ in 0..there {
        script
            .extend_from_slice(b"delete 7 20\n")
            .expect(rt, "memory");
    }
    script.extend_from_slice(b"verify\n").expect(rt, "memory");
    script
}

/// The batch of a thousand deletions.
const THOUSAND: &str = "batch 1000; delete 7 20; delete 7 20; delete 7 20";

/// How many deletions a batch has by its line, how many are there, and what is read.
const DELETIONS: [(usize, usize, &[&str]); 4] = [
    (1000, 1000, &[THOUSAND, "verify", "finished"]),
    (1000, 999, &[THOUSAND, "finished"]),
    (1000, 998, &["broken at 11994"]),
    (1001, 1, &["line", "delete 7 20", "verify", "finished"]),
];

/// A batch of so many deletions, of which so many are there, and `verify` are read so.
fn expect_deletions(rt: &impl Abort, alloc: Global, count: usize, there: usize, want: &[&str]) {
    let script = batch_of_deletions(rt, alloc, count, there);
    expect_answers(rt, alloc, script.as_slice(), 4096, want);
}

#[test]
fn a_batch_has_at_most_1000_items(rt: HostRuntime) {
    for (count, there, want) in &DELETIONS {
        expect_deletions(&rt, rt.alloc(), *count, *there, want);
    }
}
