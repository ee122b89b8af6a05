//! First rows that were worked out by hand, and how many blocks are opened for them.
use super::given::{Asked, expect_each, expect_found, posting, shelf, top};
use super::shelf::{Fault, Shelf, Word};
use base_types::{NOW, Posting};
use query_top::TopError;
use std::alloc::Global;
use std::process::Abort;

/// The document from which on, the one before which, and how often each between has the word.
type Run = (u32, u32, u32);

/// Adds the postings of a run, each from 10 on.
fn add_run(rt: &impl Abort, list: &mut Vec<Posting>, (from, to, tf): Run) {
    for doc in from..to {
        list.push(posting(rt, doc, 10, NOW, tf))
            .expect(rt, "memory");
    }
}

/// The list of these runs.
fn listed(rt: &impl Abort, alloc: Global, runs: &[Run]) -> Vec<Posting> {
    let mut list = Vec::new(alloc);
    for run in runs {
        add_run(rt, &mut list, *run);
    }
    list
}

/// One word with this list in blocks of so many postings.
fn blocked(rt: &impl Abort, alloc: Global, list: &[Posting], size: usize) -> Shelf {
    let mut words = Vec::new(alloc);
    let word = Word::blocked(alloc, list, size).expect(rt, "memory");
    words.push(word).expect(rt, "memory");
    shelf(alloc, words)
}

/// Documents 1 to 256, of which the first has the word three times and the others once: two blocks of 128.
const TIED: &[Run] = &[(1, 2, 3), (2, 257, 1)];

/// Weights of that word, how many rows are asked for, and how many blocks are opened for them.
const OPENED: [(u32, usize, u64); 7] = [
    (1, 1, 1),
    (1, 2, 1),
    (1, 128, 1),
    (1, 129, 2),
    (1, 1000, 2),
    (7, 2, 1),
    (1000, 129, 2),
];

/// The first documents and scores by that word.
fn first_tied(rt: &impl Abort, alloc: Global, weight: u32, count: usize) -> Vec<(u32, u64)> {
    let mut rows = Vec::new(alloc);
    for doc in 1u32..257 {
        if rows.len() < count {
            let often = if doc == 1 { 3 } else { 1 };
            rows.push((doc, u64::from(weight) * often))
                .expect(rt, "memory");
        }
    }
    rows
}

/// The first rows by that word are found, with so many blocks opened.
fn expect_tied(
    rt: &impl Abort,
    alloc: Global,
    words: &mut Shelf,
    (weight, count, opened): (u32, usize, u64),
) {
    let wanted = first_tied(rt, alloc, weight, count);
    let weights = [weight];
    let asked = (weights.as_slice(), 15, count, wanted.as_slice(), opened);
    expect_found(rt, alloc, words, asked);
}

/// Headers don't tell times.
const BEFORE: &[Asked] = &[(&[1], 9, 2, &[], 2)];

#[test]
fn a_block_that_can_only_tie_is_not_opened(rt: HostRuntime) {
    let alloc = rt.alloc();
    let mut words = blocked(&rt, alloc, &listed(&rt, alloc, TIED), 128);
    for row in &OPENED {
        expect_tied(&rt, alloc, &mut words, *row);
    }
    expect_each(&rt, alloc, words, BEFORE);
}

/// Three blocks of a word.
const HEAVY: &[Run] = &[(1, 129, 1), (129, 257, 2), (300, 428, 1)];

/// Questions for that word, and for one that document 200 has twice.
const ADDED: &[Asked] = &[
    // 200 has 2 + 10 * 2; the third block has at most 1
    (&[1, 10], 15, 1, &[(200, 22)], 2),
    (&[1, 10], 15, 2, &[(200, 22), (129, 2)], 2),
    // at the time before, of the second word alone nothing
    (&[1, 10], 5, 1, &[], 3),
];

/// A word whose list is at hand: one posting.
fn at_hand(rt: &impl Abort, alloc: Global) -> Word {
    Word::flat(alloc, &[posting(rt, 200, 10, NOW, 2)]).expect(rt, "memory")
}

/// The highest score stands in the second block of two words, behind a posting at hand of a third.
#[test]
fn tops_of_words_are_added_up_by_weight(rt: HostRuntime) {
    let alloc = rt.alloc();
    let mut words = blocked(&rt, alloc, &listed(&rt, alloc, HEAVY), 128);
    words.words.push(at_hand(&rt, alloc)).expect(&rt, "memory");
    expect_each(&rt, alloc, words, ADDED);
}

/// Versions of document 7, one in each second before 130, and one of document 9.
fn versions(rt: &impl Abort, alloc: Global) -> Vec<Posting> {
    let mut list = Vec::new(alloc);
    for at in 0u64..130 {
        list.push(posting(rt, 7, at, at + 1, 2))
            .expect(rt, "memory");
    }
    list.push(posting(rt, 9, 0, NOW, 1)).expect(rt, "memory");
    list
}

/// Questions for them.
const OF_VERSIONS: &[Asked] = &[
    (&[3], 0, 1, &[(7, 6)], 2),
    (&[3], 129, 2, &[(7, 6), (9, 3)], 2),
    (&[3], 130, 2, &[(9, 3)], 2),
];

/// A document of which the versions go over the border of two blocks.
#[test]
fn blocks_of_one_document_are_opened_together(rt: HostRuntime) {
    let alloc = rt.alloc();
    let words = blocked(&rt, alloc, &versions(&rt, alloc), 128);
    expect_each(&rt, alloc, words, OF_VERSIONS);
}

/// Questions for the first document that there may be, which has the word once, and the last, which has it
/// twice.
const OF_ENDS: &[Asked] = &[
    (&[1], 15, 1, &[(u32::MAX, 2)], 2),
    (&[1], 15, 2, &[(u32::MAX, 2), (0, 1)], 2),
];

/// Blocks with wide gaps between them.
#[test]
fn first_and_last_documents(rt: HostRuntime) {
    let list = [
        posting(&rt, 0, 10, NOW, 1),
        posting(&rt, u32::MAX, 10, NOW, 2),
    ];
    let words = blocked(&rt, rt.alloc(), &list, 1);
    expect_each(&rt, rt.alloc(), words, OF_ENDS);
}

/// A torn block is told where it is asked for.
fn expect_torn(rt: &impl Abort, alloc: Global, words: &mut Shelf) {
    let found = top(rt, alloc, words, &[1], 15, 2);
    assert!(rt; matches!(found, Err(TopError::Blocks(Fault::Torn))));
}

/// A torn block doesn't matter where it isn't.
const WHOLE: &[Asked] = &[(&[1], 15, 2, &[(1, 3), (2, 1)], 1)];

#[test]
fn a_torn_block_is_told_where_it_is_opened(rt: HostRuntime) {
    let alloc = rt.alloc();
    let mut words = blocked(&rt, alloc, &listed(&rt, alloc, TIED), 128);
    words.torn = Some(0);
    expect_torn(&rt, alloc, &mut words);
    words.torn = Some(1);
    expect_each(&rt, alloc, words, WHOLE);
}
