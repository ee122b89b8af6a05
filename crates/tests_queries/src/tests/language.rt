//! Texts that are queries, texts that are none, and scores.
use super::given::{expect_same, expect_same_in, read};
use query_lang::{Pile, Query, QueryError};
use std::alloc::Global;
use std::process::Abort;

/// The place at which a text shows that it is no query, of at most 4,096 bytes.
fn refused_at(alloc: Global, text: &str) -> Option<u64> {
    if text.len() > 4096 {
        return None;
    }
    match Query::read(alloc, text).err() {
        Some(QueryError::BadQuery { at }) => Some(at),
        _ => None,
    }
}

/// How often a text has a word, by how often it has red, blue and green.
fn often(word: &str, colours: [u32; 3]) -> u32 {
    match word {
        "red" => colours[0],
        "blue" => colours[1],
        "green" => colours[2],
        _ => 0,
    }
}

/// The score by a query of a text with so many `red`, `blue` and `green`; None where it doesn't match.
fn score_of(rt: &impl Abort, alloc: Global, text: &str, colours: [u32; 3]) -> Option<u64> {
    let query = read(rt, alloc, text);
    let mut counts = Vec::new(alloc);
    for word in query.words() {
        let count = often(word.as_str(), colours);
        counts.push(count).expect(rt, "memory");
    }
    assert!(rt; counts.len() == query.words().len());
    let mut pile = Pile::new(alloc);
    if query.matches(&counts, &mut pile).expect(rt, "memory") {
        Some(query.score(&counts))
    } else {
        None
    }
}

/// A text so many times.
fn many(rt: &impl Abort, alloc: Global, times: usize, text: &str) -> String {
    let mut all = String::new(alloc);
    for _ in 0..times {
        all.push_str(text).expect(rt, "memory");
    }
    all
}

/// A text shows at this place that it is no query, or is one.
fn expect_refusal(rt: &impl Abort, alloc: Global, text: &str, at: Option<u64>) {
    expect_same_in(rt, text, refused_at(alloc, text), at);
}

/// Texts, and the place at which each shows that it is no query.
const REFUSALS: [(&str, Option<u64>); 20] = [
    ("", Some(0)),
    ("red or", Some(6)),
    ("red )", Some(4)),
    ("e-mail", Some(0)),
    ("red e-mail", Some(4)),
    ("and red", Some(0)),
    ("()", Some(1)),
    ("( )", Some(2)),
    ("(red blue", Some(9)),
    ("red and or blue", Some(8)),
    ("été or", Some(8)),
    ("And", None),
    ("(red)not(blue)", None),
    ("red^1000 blue^01", None),
    ("red^1001", Some(0)),
    ("blue red^0", Some(5)),
    ("a^b^3", Some(0)),
    ("^a^3", None),
    ("red^", None),
    ("^3", None),
];

#[test]
fn a_refusal_names_the_token_behind_the_longest_front(rt: HostRuntime) {
    for (text, at) in &REFUSALS {
        expect_refusal(&rt, rt.alloc(), text, *at);
    }
}

/// Red between so many of these texts shows at this place that it is no query, or is one.
fn expect_nested(
    rt: &impl Abort,
    alloc: Global,
    times: usize,
    (open, close): (&str, &str),
    at: Option<u64>,
) {
    let mut text = many(rt, alloc, times, open);
    text.push_str("red").expect(rt, "memory");
    let closed = many(rt, alloc, times, close);
    text.push_str(closed.as_str()).expect(rt, "memory");
    expect_refusal(rt, alloc, text.as_str(), at);
}

#[test]
fn sixty_four_may_be_open(rt: HostRuntime) {
    expect_nested(&rt, rt.alloc(), 64, ("(", ")"), None);
    expect_nested(&rt, rt.alloc(), 65, ("(", ")"), Some(64));
    expect_nested(&rt, rt.alloc(), 64, ("not ", ""), None);
    expect_nested(&rt, rt.alloc(), 65, ("not ", ""), Some(256));
}

/// Queries, how often a text has red, blue and green, and its score.
const SCORES: [(&str, [u32; 3], Option<u64>); 20] = [
    ("red", [3, 0, 0], Some(3)),
    ("RED", [3, 0, 0], Some(3)),
    ("red", [0, 3, 0], None),
    ("red blue", [2, 3, 0], Some(5)),
    ("red and blue", [2, 3, 0], Some(5)),
    ("red blue", [2, 0, 0], None),
    ("red not blue", [2, 0, 9], Some(2)),
    ("red not blue", [2, 1, 0], None),
    ("blue or green", [7, 0, 4], Some(4)),
    ("not red", [0, 5, 5], Some(0)),
    ("red or blue green", [1, 0, 0], Some(1)),
    ("(red or blue) green", [1, 0, 0], None),
    ("red red", [4, 0, 0], Some(4)),
    ("red or not red", [4, 0, 0], Some(4)),
    ("not not red", [4, 0, 0], Some(4)),
    ("red^3 blue", [1, 1, 0], Some(4)),
    ("red^2 or red^5", [2, 0, 0], Some(10)),
    ("red^5 and not not red^2 or not red^9", [1, 0, 0], Some(5)),
    ("red or green^5", [0, 0, 1], Some(5)),
    ("not red^7", [0, 1, 1], Some(0)),
];

#[test]
fn a_text_matches_and_scores_by_its_tree(rt: HostRuntime) {
    for (text, colours, score) in &SCORES {
        let found = score_of(&rt, rt.alloc(), text, *colours);
        expect_same_in(&rt, *text, found, *score);
    }
}

#[test]
fn a_long_chain_is_read(rt: HostRuntime) {
    let alloc = rt.alloc();
    let text = many(&rt, alloc, 1365, "a b");
    expect_refusal(&rt, alloc, text.as_str(), None);
    let text = many(&rt, alloc, 2047, "a ");
    let query = read(&rt, alloc, text.as_str());
    assert!(rt; !query.matches_without_words());
    expect_same(&rt, query.words().len(), 1);
}
