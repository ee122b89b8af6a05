//! Lists that are kept up while documents change.
ghost use Rattle.lists_tails.specs.Weights.{AreWeights};

use crate::tests::given::{Row, expect_list, expect_same, expect_same_in};
use base_types::{DocId, NOW, Posting, Span, Time, WordId};
use lists_tails::{Tail, Tails, Turn, Weight};
use std::alloc::Global;
use std::process::Abort;

/// The weights of a text that has one word so often; with 0 of one without words.
fn weights(rt: &impl Abort, alloc: Global, word: WordId, tf: u32) -> Vec<Weight>
    ensures { AreWeights result.items }
{
    if tf == 0 {
        return Vec::new(alloc);
    }
    vec![in alloc; Weight { word, tf }].expect(rt, "memory")
}

/// A document turns from these weights to those.
fn turn(rt: &impl Abort, tails: &mut Tails, doc: u32, at: u64, old: &[Weight], new: &[Weight])
    requires old { AreWeights old.now }
    requires new { AreWeights new.now }
{
    let at = Time::new(at).expect(rt, "a time");
    tails.reserve_turn(new).expect(rt, "memory");
    tails.turn(DocId(doc), at, old, new);
}

/// The tails after document 7 has the word so often from those times on.
fn passed(rt: &impl Abort, alloc: Global, word: WordId, turns: &[(u64, u32)]) -> Tails {
    let mut tails = Tails::new(alloc);
    let mut old = Vec::new(alloc);
    for (at, tf) in turns {
        let new = weights(rt, alloc, word, *tf);
        turn(rt, &mut tails, 7, *at, &old, &new);
        old = new;
    }
    tails
}

/// The word's list has these postings.
fn expect_tail(rt: &impl Abort, alloc: Global, tails: &Tails, word: WordId, wanted: &[Row]) {
    let list = tails.to_list(alloc, word).expect(rt, "memory");
    expect_list(rt, alloc, word, &list, wanted);
}

/// How often document 7 has the word from which times on, and the word's list.
const TURNS: [(&[(u64, u32)], &[Row]); 3] = [
    // three versions of one frequency
    (&[(10, 1), (20, 1), (30, 1)], &[(7, 10, NOW, 1)]),
    // a gap
    (
        &[(10, 1), (20, 0), (30, 1)],
        &[(7, 10, 20, 1), (7, 30, NOW, 1)],
    ),
    // another frequency between
    (
        &[(10, 1), (20, 2), (30, 1)],
        &[(7, 10, 20, 1), (7, 20, 30, 2), (7, 30, NOW, 1)],
    ),
];

/// After these turns of document 7 the word's list is this.
fn expect_turned(
    rt: &impl Abort,
    alloc: Global,
    word: WordId,
    (turns, wanted): (&[(u64, u32)], &[Row]),
) {
    let tails = passed(rt, alloc, word, turns);
    expect_tail(rt, alloc, &tails, word, wanted);
}

#[test]
fn one_document_turns(rt: HostRuntime) {
    let word = WordId::new(3).expect(&rt, "a word");
    for row in &TURNS {
        expect_turned(&rt, rt.alloc(), word, *row);
    }
}

#[test]
fn a_posting_that_would_be_empty_is_dropped(rt: HostRuntime) {
    let alloc = rt.alloc();
    let word = WordId::new(0).expect(&rt, "a word");
    let mut tails = passed(&rt, alloc, word, &[(0, 1)]);
    let once = weights(&rt, alloc, word, 1);
    turn(&rt, &mut tails, 7, 0, &once, &[]);
    expect_same(&rt, tails.len(word), 0);
}

#[test]
fn documents_turn_at_one_time(rt: HostRuntime) {
    let alloc = rt.alloc();
    let red = WordId::new(0).expect(&rt, "red");
    let blue = WordId::new(5).expect(&rt, "blue");
    let red_alone = [Weight { word: red, tf: 1 }];
    let both = [Weight { word: red, tf: 1 }, Weight { word: blue, tf: 2 }];
    let mut tails = Tails::new(alloc);
    turn(&rt, &mut tails, 3, 10, &[], &both);
    turn(&rt, &mut tails, 1, 10, &[], &both);
    // document 1 loses one of its words
    turn(&rt, &mut tails, 1, 20, &both, &red_alone);
    let wanted = [(1, 10, 20, 2), (3, 10, NOW, 2)];
    expect_tail(&rt, alloc, &tails, blue, &wanted);
    expect_same(&rt, tails.len(red), 2);
}

#[test]
fn turns_are_gathered(rt: HostRuntime) {
    let alloc = rt.alloc();
    let word = WordId::new(1).expect(&rt, "a word");
    let times = [
        Time::new(10).expect(&rt, "10"),
        Time::new(20).expect(&rt, "20"),
        Time::new(30).expect(&rt, "30"),
    ];
    let mut turns = vec![in alloc;
        Turn {
            doc: DocId(2),
            at: times[0],
            weights: weights(&rt, alloc, word, 1)
        },
        Turn {
            doc: DocId(1),
            at: times[1],
            weights: weights(&rt, alloc, word, 4)
        },
        Turn {
            doc: DocId(2),
            at: times[2],
            weights: Vec::new(alloc)
        },
    ]
    .expect(&rt, "memory");
    let tails = Tails::gather(alloc, &mut turns).expect(&rt, "memory");
    let wanted = [(1, 20, NOW, 4), (2, 10, 30, 1)];
    expect_tail(&rt, alloc, &tails, word, &wanted);
}

/// The tails after each of that many documents, one after another and in reverse, has the word.
fn many(rt: &impl Abort, alloc: Global, word: WordId, count: u32) -> Tails {
    let mut tails = Tails::new(alloc);
    let none = weights(rt, alloc, word, 0);
    let once = weights(rt, alloc, word, 1);
    for i in 0..count {
        // even documents ascend, odd ones descend
        let even = i % 2 == 0;
        let doc = if even { i } else { count - i };
        turn(rt, &mut tails, doc, 10, &none, &once);
    }
    tails
}

/// So many rows have the word in a span.
fn expect_rows_in(
    rt: &impl Abort,
    alloc: Global,
    tails: &Tails,
    word: WordId,
    (from, to): (u64, u64),
    rows: usize,
) {
    let span = Span::new(from, to).expect(rt, "a span");
    let found = tails.rows_in(alloc, word, span).expect(rt, "memory");
    expect_same_in(rt, (from, to), found.len(), rows);
}

#[test]
fn a_long_tail_stands_in_blocks(rt: HostRuntime) {
    let alloc = rt.alloc();
    let word = WordId::new(2).expect(&rt, "a word");
    let tails = many(&rt, alloc, word, 3000);
    expect_same(&rt, tails.len(word), 3000);
    expect_rows_in(&rt, alloc, &tails, word, (5, 10), 0);
    expect_rows_in(&rt, alloc, &tails, word, (5, 11), 3000);
    let around = Span::new(5, 11).expect(&rt, "over the first");
    let rows = tails.rows_in(alloc, word, around).expect(&rt, "memory");
    for (i, row) in rows.iter().enumerate() {
        expect_same(&rt, row.doc.0 as usize, i);
    }
}

#[test]
fn a_tail_that_is_filled_in_order_stands_in_blocks(rt: HostRuntime) {
    let alloc = rt.alloc();
    let word = WordId::new(2).expect(&rt, "a word");
    let none = weights(&rt, alloc, word, 0);
    let once = weights(&rt, alloc, word, 1);
    let mut tails = Tails::new(alloc);
    for doc in 0..1500 {
        turn(&rt, &mut tails, doc, 10, &none, &once);
    }
    let later = Time::new(20).expect(&rt, "20");
    // no room is asked for where no word is gained
    tails.turn(DocId(700), later, &once, &[]);
    expect_same(&rt, tails.len(word), 1500);
    expect_rows_in(&rt, alloc, &tails, word, (20, NOW), 1499);
}

#[test]
fn a_tail_in_hand_is_smaller_than_a_vector(rt: HostRuntime) {
    assert!(rt; size_of::<Tail>() < size_of::<Vec<Posting>>());
}
