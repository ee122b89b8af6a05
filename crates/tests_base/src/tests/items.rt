//! What a script may ask for.
use super::given::expect_same;
use base_commands::{Command, Content, Item, Phrase, Text};
use base_types::{DocId, Time};
use std::alloc::Global;
use std::process::Abort;

/// Whether bytes are a phrase.
fn is_phrase(rt: &impl Abort, alloc: Global, bytes: &[u8]) -> bool {
    Phrase::new(alloc, bytes).expect(rt, "memory").is_some()
}

/// Whether so many letters are a phrase.
fn are_phrase(rt: &impl Abort, alloc: Global, letters: usize) -> bool {
    let long = vec![in alloc; b'a'; letters].expect(rt, "memory");
    is_phrase(rt, alloc, &long)
}

#[test]
fn a_phrase_is_utf8_of_at_most_4096_bytes(rt: HostRuntime) {
    let alloc = rt.alloc();
    let words = Phrase::new(alloc, "naïve  Straße".as_bytes()).expect(&rt, "memory");
    let words = words.expect(&rt, "a phrase in UTF-8");
    expect_same(&rt, words.as_str(), "naïve  Straße");
    assert!(rt; !is_phrase(&rt, alloc, &[0xC3, 0x28]));
    assert!(rt; are_phrase(&rt, alloc, 4096));
    assert!(rt; !are_phrase(&rt, alloc, 4097));
}

/// The text of an arrival.
fn arrived(item: &Item) -> Option<&Text> {
    match item {
        Item::Command(Command::Arrive { text, .. }) => Some(text),
        _ => None,
    }
}

/// The bytes of a text that is held.
fn held(text: &Text) -> Option<&[u8]> {
    match text {
        Text::Bytes(content) => Some(content.as_slice()),
        Text::TooLong { .. } => None,
    }
}

/// A text of bytes that aren't UTF-8.
fn content(rt: &impl Abort, alloc: Global) -> Content {
    Content::new(Vec::from_slice(alloc, &[0xC3, 0x28]).expect(rt, "memory"))
}

#[test]
fn a_text_has_bytes_of_any_value(rt: HostRuntime) {
    let alloc = rt.alloc();
    let bytes = [0xC3, 0x28];
    expect_same(&rt, content(&rt, alloc).as_slice(), bytes.as_slice());
    let arrival = Item::Command(Command::Arrive {
        doc: DocId(7),
        at: Time::new(10).expect(&rt, "the time 10"),
        text: Text::Bytes(content(&rt, alloc)),
    });
    let text = arrived(&arrival).expect(&rt, "an arrival is an arrival");
    let text = held(text).expect(&rt, "its text is held");
    expect_same(&rt, text, bytes.as_slice());
}
