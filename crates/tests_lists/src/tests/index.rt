//! The index of all versions, kept up by changes or made at once.
ghost use Rattle.std.specs.Prelude.{◌≡◌, ◌+◌, ◌<◌, ◌^◌, ◌*◌, ◌↔◌, ℕ, List, [], ◌∷◌, ◌++◌, length, option_map, IfSome, IsTrue};
ghost use Rattle.lists_versions.specs.declared.change.Change.{Change};
ghost use Rattle.lists_index.specs.Indexing.{ComesLater};
ghost use Rattle.lists_index.specs.Loads.{Loads};

use crate::tests::given::{Row, expect_list, expect_same, expect_same_in};
use base_types::{DocId, Key, NOW, Span, Time};
use lists_index::{Index, ListPart, Loader, NewWords, Prepared};
use std::alloc::Global;
use std::process::Abort;
use text_words::NumberError;

/// Whether a text is short enough to be measured.
fn is_short(text: Option<&str>) -> bool
    ensures { IsTrue result ↔ IfSome text.entry (λ t. length t.now < 2 ^ 32) }
{
    match text {
        Some(text) => text.len() < 4294967296,
        None => true,
    }
}

/// Prepares a change and commits it.
fn commit(
    rt: &impl Abort,
    alloc: Global,
    index: &mut Index,
    doc: DocId,
    at: Time,
    text: Option<&str>,
) {
    assert!(rt; is_short(text));
    let change = index.prepare(alloc, doc, text).expect(rt, "room");
    assert!(rt; index.make_room(&change).is_ok());
    index.commit(change, at);
}

/// Adds a change to a loader.
fn add(
    rt: &impl Abort,
    alloc: Global,
    loader: &mut Loader,
    doc: DocId,
    at: Time,
    text: Option<&str>,
)
    ensures { (changes : List (Change (List ℕ))) → Loads loader.old changes
        → ComesLater changes (record { doc = doc; at = at; held = option_map (λ t. t.now) text.entry })
        → Loads loader.new (changes ++ record { doc = doc; at = at; held = option_map (λ t. t.now) text.entry } ∷ []) }
{
    assert!(rt; is_short(text));
    loader.add(alloc, doc, at, text).expect(rt, "room");
}

/// The time of the change at that place of a row of changes: 10, 20, 30 and so on.
fn time_at(place: usize) -> Time
    requires { place < 1000 }
    ensures { result.seconds ≡ 10 * place + 10 }
{
    Time {
        seconds: 10 * place as u64 + 10,
    }
}

/// The index of these changes, committed one after another.
fn committed(rt: &impl Abort, alloc: Global, rows: &[(u32, Option<&str>)]) -> Index
    requires { length rows.now < 1000 }
{
    let mut index = Loader::new(alloc)
        .expect(rt, "memory")
        .finish(alloc)
        .expect(rt, "memory");
    for i in 0..rows.len() {
        let (doc, text) = rows[i];
        commit(rt, alloc, &mut index, DocId(doc), time_at(i), text);
    }
    index
}

/// A change that is prepared behind others, which bring these words.
fn prepare_behind(
    rt: &impl Abort,
    alloc: Global,
    words: &mut NewWords,
    index: &mut Index,
    (doc, text): (u32, Option<&str>),
) -> Prepared {
    assert!(rt; is_short(text));
    let change = words.add(alloc, index, DocId(doc), text);
    change.expect(rt, "room")
}

/// These changes, prepared all at once, each behind those before it.
fn prepared(
    rt: &impl Abort,
    alloc: Global,
    index: &mut Index,
    rows: &[(u32, Option<&str>)],
) -> Vec<Prepared> {
    let mut words = NewWords::new(alloc).expect(rt, "memory");
    let mut changes = Vec::new(alloc);
    for row in rows {
        changes.reserve(1).expect(rt, "memory");
        let change = prepare_behind(rt, alloc, &mut words, index, *row);
        changes.push_reserved(change);
    }
    changes
}

/// The index of these changes, which are made when all are prepared.
fn at_once(rt: &impl Abort, alloc: Global, rows: &[(u32, Option<&str>)]) -> Index {
    let mut index = committed(rt, alloc, &[]);
    let changes = prepared(rt, alloc, &mut index, rows);
    let mut place = 0;
    for change in changes {
        assert!(rt; place < 1000);
        index.take_in(change, time_at(place)).expect(rt, "room");
        place += 1;
    }
    index
}

/// The index of these changes, loaded.
fn loaded(rt: &impl Abort, alloc: Global, rows: &[(u32, Option<&str>)]) -> Index
    requires { length rows.now < 1000 }
{
    let mut loader = Loader::new(alloc).expect(rt, "memory");
    for i in 0..rows.len() {
        let (doc, text) = rows[i];
        add(rt, alloc, &mut loader, DocId(doc), time_at(i), text);
    }
    loader.finish(alloc).expect(rt, "memory")
}

fn key(rt: &impl Abort, alloc: Global, word: &str) -> Key {
    let key = Key::new(alloc, word).expect(rt, "memory");
    key.expect(rt, "a key")
}

/// The word's list is this, and no text has the word where it is empty.
fn expect_word(rt: &impl Abort, alloc: Global, index: &Index, word: &str, wanted: &[Row]) {
    let key = key(rt, alloc, word);
    expect_same_in(rt, word, index.knows(&key), !wanted.is_empty());
    let list = index.list(alloc, &key).expect(rt, "memory");
    expect_list(rt, alloc, word, &list, wanted);
}

/// Words, and the list of each.
type Lists<'a> = &'a [(&'a str, &'a [Row])];

/// The words' lists are these.
fn expect_words(rt: &impl Abort, alloc: Global, index: &Index, lists: Lists<'_>) {
    for (word, wanted) in lists {
        expect_word(rt, alloc, index, word, wanted);
    }
}

/// Changes at 10, 20, 30, .. seconds, each of a document to a text or to none, and words with their lists
/// after them, worked out by hand.
struct History {
    changes: &'static [(u32, Option<&'static str>)],
    lists: Lists<'static>,
}

const HISTORIES: [History; 3] = [
    // a word comes in any spelling and goes
    History {
        changes: &[
            (7, Some("Die Straße")),
            (7, Some("STRASSE, Straße; strasse")),
            (7, None),
            (7, Some("Strasse")),
        ],
        lists: &[
            (
                "strasse",
                &[(7, 10, 20, 1), (7, 20, 30, 3), (7, 40, NOW, 1)],
            ),
            ("die", &[(7, 10, 20, 1)]),
        ],
    },
    // a word stands in two documents
    History {
        changes: &[
            (9, Some("red blue")),
            (3, Some("blue")),
            (9, Some("Blue BLUE")),
            (3, None),
            (9, Some("red")),
        ],
        lists: &[
            ("red", &[(9, 10, 30, 1), (9, 50, NOW, 1)]),
            ("blue", &[(3, 20, 40, 1), (9, 10, 30, 1), (9, 30, 50, 2)]),
            ("green", &[]),
        ],
    },
    // versions with a word as often make one posting
    History {
        changes: &[
            (1, None),
            (1, Some("To be, or not to be")),
            (2, Some("not")),
            (1, Some("be to to be")),
        ],
        lists: &[
            ("to", &[(1, 20, NOW, 2)]),
            ("be", &[(1, 20, NOW, 2)]),
            ("or", &[(1, 20, 40, 1)]),
            ("not", &[(1, 20, 40, 1), (2, 30, NOW, 1)]),
        ],
    },
];

/// After the changes of a history, committed one after another, made at once or loaded, the words' lists are
/// its.
fn expect_history(rt: &impl Abort, alloc: Global, history: &History) {
    let changes = history.changes;
    assert!(rt; changes.len() < 1000);
    expect_words_of(rt, alloc, committed(rt, alloc, changes), history.lists);
    expect_words_of(rt, alloc, at_once(rt, alloc, changes), history.lists);
    expect_words_of(rt, alloc, loaded(rt, alloc, changes), history.lists);
}

/// The words' lists in an index are these; nothing more is asked of it.
fn expect_words_of(rt: &impl Abort, alloc: Global, index: Index, lists: Lists<'_>) {
    expect_words(rt, alloc, &index, lists);
}

#[test]
fn words_have_the_lists_of_their_versions(rt: HostRuntime) {
    for history in &HISTORIES {
        expect_history(&rt, rt.alloc(), history);
    }
}

/// The word has this number.
fn expect_number(rt: &impl Abort, alloc: Global, index: &Index, word: &str, wanted: u32) {
    let number = index.number(&key(rt, alloc, word)).expect(rt, "a number");
    expect_same_in(rt, word, number.number(), wanted);
}

/// Texts of two documents, each of which brings words that another has too.
const BRINGING: &[(u32, Option<&str>)] = &[
    (1, Some("red blue")),
    (2, Some("blue green")),
    (1, Some("green red")),
];

/// Their words and lists.
const BROUGHT: Lists<'static> = &[
    ("red", &[(1, 10, NOW, 1)]),
    ("blue", &[(1, 10, 30, 1), (2, 20, NOW, 1)]),
    ("green", &[(1, 30, NOW, 1), (2, 20, NOW, 1)]),
];

#[test]
fn a_word_that_texts_bring_at_once_has_one_number(rt: HostRuntime) {
    let alloc = rt.alloc();
    let index = at_once(&rt, alloc, BRINGING);
    expect_same(&rt, index.words(), 3);
    expect_number(&rt, alloc, &index, "red", 0);
    expect_number(&rt, alloc, &index, "blue", 1);
    expect_number(&rt, alloc, &index, "green", 2);
    expect_words_of(&rt, alloc, index, BROUGHT);
}

/// Prepares a change of document 1 and drops it.
fn drop_change(rt: &impl Abort, alloc: Global, index: &mut Index, text: &str) {
    assert!(rt; is_short(Some(text)));
    let dropped = index.prepare(alloc, DocId(1), Some(text));
    drop(dropped.expect(rt, "room"));
}

/// Words and their lists while document 1 has red, and once it has green.
const WITH_RED: Lists<'static> = &[("blue", &[]), ("red", &[(1, 10, NOW, 1)])];

const WITH_GREEN: Lists<'static> = &[
    ("blue", &[]),
    ("red", &[(1, 10, 20, 1)]),
    ("green", &[(1, 20, NOW, 1)]),
];

#[test]
fn a_change_that_is_dropped_changes_no_answer(rt: HostRuntime) {
    let alloc = rt.alloc();
    let mut index = committed(&rt, alloc, &[(1, Some("red"))]);
    drop_change(&rt, alloc, &mut index, "blue red red");
    expect_words(&rt, alloc, &index, WITH_RED);
    commit(&rt, alloc, &mut index, DocId(1), time_at(1), Some("green"));
    expect_words_of(&rt, alloc, index, WITH_GREEN);
}

/// Documents 9 and 3 have red, the latter twice; it is gone from 9 for a while, and no one has green.
const REDS: &[(u32, Option<&str>)] = &[
    (9, Some("red")),
    (3, Some("red red")),
    (9, None),
    (9, Some("red")),
];

/// Words and spans, the part of the word's list in the span, and how long the whole list is.
const PARTS: &[(&str, (u64, u64), &[Row], u64)] = &[
    ("red", (5, 10), &[], 3),
    ("red", (5, 11), &[(9, 10, 30, 1)], 3),
    ("red", (29, 40), &[(3, 20, NOW, 2), (9, 10, 30, 1)], 3),
    ("red", (30, 31), &[(3, 20, NOW, 2)], 3),
    (
        "red",
        (29, 41),
        &[(3, 20, NOW, 2), (9, 10, 30, 1), (9, 40, NOW, 1)],
        3,
    ),
    ("green", (5, 100), &[], 0),
];

/// The part that the word's list has in a span is this, of a list so long.
fn expect_part(
    rt: &impl Abort,
    alloc: Global,
    index: &Index,
    (word, ends, wanted, whole): (&str, (u64, u64), &[Row], u64),
) {
    let span = Span::new(ends.0, ends.1).expect(rt, "a span");
    let part = index.part_in(alloc, &key(rt, alloc, word), span);
    let ListPart { rows, whole: found } = part.expect(rt, "memory");
    expect_list(rt, alloc, ends, &rows, wanted);
    expect_same_in(rt, ends, found, whole);
}

/// Words, and the whole list of each.
const WHOLE: Lists<'static> = &[
    ("red", &[(3, 20, NOW, 2), (9, 10, 30, 1), (9, 40, NOW, 1)]),
    ("green", &[]),
];

/// The parts of lists in an index of these changes are those, and the whole lists too.
fn expect_parts(rt: &impl Abort, alloc: Global, index: Index) {
    for part in PARTS {
        expect_part(rt, alloc, &index, *part);
    }
    expect_words_of(rt, alloc, index, WHOLE);
}

#[test]
fn a_span_has_a_part_of_a_list(rt: HostRuntime) {
    let alloc = rt.alloc();
    expect_parts(&rt, alloc, committed(&rt, alloc, REDS));
    expect_parts(&rt, alloc, loaded(&rt, alloc, REDS));
}

const DIGITS: &[u8; 36] = b"0123456789abcdefghijklmnopqrstuvwxyz";

/// The text of so many distinct words, each of four letters or digits.
fn distinct_words(rt: &impl Abort, alloc: Global, count: u32) -> String {
    let mut text = Vec::new(alloc);
    for n in 0..count {
        for place in [46656, 1296, 36, 1] {
            let digit = DIGITS[(n / place % 36) as usize];
            text.push(digit).expect(rt, "memory");
        }
        text.push(b' ').expect(rt, "memory");
    }
    String::from_utf8(text).expect(rt, "a text")
}

/// A text of document 7 can be prepared, by itself and as the first of several, or can't for this reason.
fn expect_refusal(
    rt: &impl Abort,
    alloc: Global,
    index: &mut Index,
    text: &str,
    wanted: Option<NumberError>,
) {
    assert!(rt; is_short(Some(text)));
    let refusal = index.prepare(alloc, DocId(7), Some(text)).err();
    expect_same(rt, refusal, wanted);
    let mut words = NewWords::new(alloc).expect(rt, "memory");
    let refusal = words.add(alloc, index, DocId(7), Some(text)).err();
    expect_same(rt, refusal, wanted);
}

/// So many words have room in an index.
fn fill(rt: &impl Abort, alloc: Global, index: &mut Index, count: u32) {
    let text = distinct_words(rt, alloc, count);
    commit(rt, alloc, index, DocId(7), time_at(0), Some(text.as_str()));
}

#[test]
fn there_may_be_2_to_the_20_words_and_no_more(rt: HostRuntime) {
    let alloc = rt.alloc();
    let mut index = committed(&rt, alloc, &[]);
    let more = distinct_words(&rt, alloc, (1 << 20) + 1);
    let full = Some(NumberError::Full);
    expect_refusal(&rt, alloc, &mut index, more.as_str(), full);
    fill(&rt, alloc, &mut index, 1 << 20);
    expect_refusal(&rt, alloc, &mut index, "MH33 0000", None);
    expect_refusal(&rt, alloc, &mut index, "mh33 mh34", full);
    expect_words_of(&rt, alloc, index, &[("mh33", &[(7, 10, NOW, 1)])]);
}
