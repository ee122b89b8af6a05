//! Random words beside a look at each document.
ghost use Rattle.std.specs.Prelude.{◌<◌};

use super::given::{expect_same_in, found, posting, shelf};
use super::shelf::Word;
use base_types::{Posting, Time};
use std::alloc::Global;
use std::process::Abort;

/// Numbers that look random: a linear congruential generator, with Knuth's multiplier for 64 bits.
#[derive(Drop)]
struct Numbers(u64);

impl Numbers {
    /// The next number below `end`.
    fn below(&mut self, end: u32) -> u32
        requires { 0 < end }
        ensures { result < end }
    {
        self.0 = self
            .0
            .wrapping_mul(6364136223846793005)
            .wrapping_add(1442695040888963407);
        u32::try_from(self.0 >> 33).unwrap_or(0) % end
    }
}

/// The documents of the random lists lie below this number.
const DOCS: u32 = 64;

/// A list of some documents, each with up to three postings; frequent or rare.
fn random_list(rt: &impl Abort, alloc: Global, numbers: &mut Numbers) -> Vec<Posting> {
    let mut list = Vec::new(alloc);
    let share = 1 + numbers.below(8);
    let most = 1 + numbers.below(4);
    for doc in 0..DOCS {
        if numbers.below(share) != 0 {
            continue;
        }
        let heavy = if doc / 8 % 4 == 0 { 5 } else { 1 };
        let first = u64::from(numbers.below(4));
        for turn in 0u64..3 {
            let from = first + 10 * turn;
            let to = from + 1 + u64::from(numbers.below(10));
            let tf = (1 + numbers.below(most)) * heavy;
            if numbers.below(3) != 0 {
                list.push(posting(rt, doc, from, to, tf))
                    .expect(rt, "memory");
            }
        }
    }
    list
}

/// How often the word of a list occurs in a document at a time.
fn often(list: &[Posting], doc: u32, at: Time) -> u64 {
    for p in list {
        if p.doc.0 == doc && p.span.holds(at) {
            return u64::from(p.tf);
        }
    }
    0
}

/// The scores of all documents.
fn scores(
    rt: &impl Abort,
    alloc: Global,
    lists: &[Vec<Posting>],
    weights: &[u32],
    at: u64,
) -> Vec<u64> {
    let at = Time::new(at).expect(rt, "a time");
    let mut scores = Vec::new(alloc);
    for doc in 0..DOCS {
        let mut score = 0u64;
        for (list, weight) in lists.iter().zip(weights.iter()) {
            score = score.saturating_add(u64::from(*weight).saturating_mul(often(list, doc, at)));
        }
        scores.push(score).expect(rt, "memory");
    }
    scores
}

/// The first document of the greatest score, if that is above 0.
fn best(scores: &[u64]) -> Option<(u32, u64)> {
    let mut found = None;
    let mut most = 0;
    for (doc, score) in (0u32..).zip(scores.iter()) {
        if *score > most {
            most = *score;
            found = Some((doc, most));
        }
    }
    found
}

/// All documents with a score above 0 in order, and of these the first.
fn sorted(rt: &impl Abort, alloc: Global, mut scores: Vec<u64>, count: usize) -> Vec<(u32, u64)> {
    let mut rows = Vec::new(alloc);
    for _ in 0..count {
        if let Some((doc, score)) = best(&scores) {
            rows.push((doc, score)).expect(rt, "memory");
            if let Some(it) = scores.get_mut(doc as usize) {
                *it = 0;
            }
        }
    }
    rows
}

/// The postings of a list that hold a time.
fn held(rt: &impl Abort, alloc: Global, list: &[Posting], at: u64) -> Vec<Posting> {
    let at = Time::new(at).expect(rt, "a time");
    let mut held = Vec::new(alloc);
    for p in list {
        if p.span.holds(at) {
            held.push(*p).expect(rt, "memory");
        }
    }
    held
}

/// Some words: their lists, their weights, and the most postings of a block, or 0 where a list is at hand.
#[derive(Drop)]
struct Case {
    lists: Vec<Vec<Posting>>,
    weights: Vec<u32>,
    sizes: Vec<u32>,
}

impl Case {
    fn random(rt: &impl Abort, alloc: Global, numbers: &mut Numbers) -> Case {
        let mut case = Case {
            lists: Vec::new(alloc),
            weights: Vec::new(alloc),
            sizes: Vec::new(alloc),
        };
        for _ in 0..numbers.below(5) {
            let list = random_list(rt, alloc, numbers);
            case.lists.push(list).expect(rt, "memory");
            case.weights.push(1 + numbers.below(3)).expect(rt, "memory");
            case.sizes.push(numbers.below(6)).expect(rt, "memory");
        }
        case
    }

    /// The words as they are at hand and in blocks for a time.
    fn words(&self, rt: &impl Abort, alloc: Global, at: u64) -> Vec<Word> {
        let mut words = Vec::new(alloc);
        for (list, size) in self.lists.iter().zip(self.sizes.iter()) {
            let word = if *size == 0 {
                Word::flat(alloc, &held(rt, alloc, list, at))
            } else {
                Word::blocked(alloc, list, *size as usize)
            };
            words.push(word.expect(rt, "memory")).expect(rt, "memory");
        }
        words
    }
}

/// The first rows are those of all documents, sorted.
fn expect_sorted(rt: &impl Abort, alloc: Global, case: &Case, at: u64, count: usize) {
    let all = scores(rt, alloc, &case.lists, &case.weights, at);
    let wanted = sorted(rt, alloc, all, count);
    let mut shelf = shelf(alloc, case.words(rt, alloc, at));
    let rows = found(rt, alloc, &mut shelf, &case.weights, at, count);
    expect_same_in(rt, (at, count), rows.as_slice(), wanted.as_slice());
}

/// Times, and how many rows are asked for.
const QUESTIONS: [(u64, usize); 12] = [
    (5, 1),
    (5, 2),
    (5, 5),
    (5, 100),
    (15, 1),
    (15, 2),
    (15, 5),
    (15, 100),
    (22, 1),
    (22, 2),
    (22, 5),
    (22, 100),
];

/// Each question of a case is answered by the rows of all documents, sorted.
fn expect_case(rt: &impl Abort, alloc: Global, case: Case) {
    for (at, count) in &QUESTIONS {
        expect_sorted(rt, alloc, &case, *at, *count);
    }
}

#[test]
fn first_rows_of_random_words_are_those_of_all_documents(rt: HostRuntime) {
    let mut numbers = Numbers(18);
    for _ in 0..60 {
        let case = Case::random(&rt, rt.alloc(), &mut numbers);
        expect_case(&rt, rt.alloc(), case);
    }
}
