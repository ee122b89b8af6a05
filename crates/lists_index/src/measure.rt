//! A text by the numbers of its words.
ghost use Rattle.std.specs.Prelude.{◌≡◌, ℕ, ◌+◌, ◌<◌, ◌≤◌, ◌^◌, ◌++◌, List, Option, length, map, option_map, nat_eq, All, Err, IfOk, OnOk, IfSome, IsSome};
ghost use Rattle.std.specs.List.{IsDistinct};
ghost use Rattle.std.specs.Str.{bytes_eq};
ghost use Rattle.text_words.specs.Words.{counted, known_of, fresh_of, weight_at};
ghost use Rattle.lists_tails.specs.Weights.{weight_of};
ghost use Rattle.lists_index.specs.Words.{keys_held};
ghost use Rattle.lists_index.specs.Measuring.{numbered, words_with, IsParted, IsMeasured};

use crate::weights::Weights;
use base_types::{Key, MOST_WORDS, WordId};
use lists_tails::Weight;
use std::alloc::{AllocError, Global};
use text_words::{NumberError, Places, Vocabulary, Weighed};

/// What a text has, by the numbers that its words have once the fresh ones are numbered.
#[derive(Drop)]
pub(crate) struct Measured {
    /// The words that have no number yet, in the order of their numbers.
    pub(crate) fresh: Vec<Key>,
    /// How often the text has each of its words.
    pub(crate) weights: Weights,
}

/// A text's words: the counts of those with a number by number, and the others apart from theirs.
#[derive(Drop)]
pub(crate) struct Parted {
    known: Vec<(u32, u32)>,
    fresh: Vec<Key>,
    counts: Vec<u32>,
}

/// The words of a text with their counts; none of a deletion. The text is read once.
pub(crate) fn weigh_held(
    alloc: Global,
    vocabulary: &Vocabulary,
    places: &mut Places,
    text: Option<&str>,
) -> Result<Weighed, AllocError>
    requires { IfSome text (λ t. length t.now < 2 ^ 32) }
    ensures known { IfOk result
        (λ w. w.known.items ≡ known_of vocabulary.now.words (counted (keys_held (option_map (λ t. t.now) text.entry)))) }
    ensures fresh { IfOk result
        (λ w. w.fresh.items ≡ fresh_of vocabulary.now.words (counted (keys_held (option_map (λ t. t.now) text.entry)))) }
{
    match text {
        Some(text) => vocabulary.weigh(alloc, places, text),
        None => Ok(Weighed {
            known: Vec::new(alloc),
            fresh: Vec::new(alloc),
        }),
    }
}

/// The fresh words apart from their counts.
fn part(alloc: Global, weighed: Weighed) -> Result<Parted, AllocError>
    ensures { IfOk result (λ p. (words : List (List ℕ)) (held : Option (List ℕ))
        → weighed.known.items ≡ known_of words (counted (keys_held held))
        → weighed.fresh.items ≡ fresh_of words (counted (keys_held held))
        → IsParted words held p.known.items p.fresh.items p.counts.items) }
{
    let Weighed { known, fresh } = weighed;
    let mut keys = Vec::new(alloc);
    let mut counts = Vec::new(alloc);
    for (key, count) in fresh {
        keys.push(key)?;
        counts.push(count)?;
    }
    Ok(Parted {
        known,
        fresh: keys,
        counts,
    })
}

/// The fresh words apart from their counts, but for those that earlier texts brought: these are known by
/// the numbers from `words` on. It costs a look-up for each fresh word.
pub(crate) fn part_behind(
    alloc: Global,
    weighed: Weighed,
    words: u32,
    brought: &Vocabulary,
) -> Result<Parted, AllocError>
    requires { words ≤ 2 ^ 20 }
    ensures { IfOk result (λ p. (front : List (List ℕ)) (held : Option (List ℕ)) → words ≡ length front
        → weighed.known.items ≡ known_of front (counted (keys_held held))
        → weighed.fresh.items ≡ fresh_of front (counted (keys_held held))
        → IsParted (front ++ brought.now.words) held p.known.items p.fresh.items p.counts.items) }
{
    let Weighed { known, fresh } = weighed;
    let mut known = known;
    let mut keys = Vec::new(alloc);
    let mut counts = Vec::new(alloc);
    for (key, count) in fresh {
        match brought.find(&key) {
            Some(id) => known.push((words + id.number(), count))?,
            None => {
                keys.push(key)?;
                counts.push(count)?;
            }
        }
    }
    Ok(Parted {
        known,
        fresh: keys,
        counts,
    })
}

/// The counts of known words, and behind them those of fresh ones by the numbers from `words` on.
fn number_counts(
    known: Vec<(u32, u32)>,
    words: u32,
    fresh: &[u32],
) -> Result<Vec<(u32, u32)>, AllocError>
    requires { words + length fresh.now ≤ 2 ^ 20 }
    ensures { IfOk result (λ counts. counts.items ≡ known.items ++ numbered words fresh.now) }
{
    let mut counts = known;
    for i in 0..fresh.len() {
        counts.push((words + i as u32, fresh[i]))?;
    }
    Ok(counts)
}

/// A word's weight.
fn weight(number: u32, count: u32) -> Weight
    requires word { number < 2 ^ 20 }
    requires some { 1 ≤ count }
    ensures word { result.word.number ≡ number }
    ensures count { result.tf ≡ count }
{
    Weight {
        word: WordId { number },
        tf: count,
    }
}

/// The weights by these counts of words.
fn weights_by(alloc: Global, counts: Vec<(u32, u32)>) -> Result<Weights, AllocError>
    requires once { IsDistinct nat_eq (map (λ p. p.0) counts.items) }
    requires occur { All (λ p. (p.0 < 2 ^ 20) × (1 ≤ p.1)) counts.items }
    ensures { IfOk result (λ weights. (w : ℕ) → weight_of w weights ≡ weight_at w counts.items) }
{
    let mut counts = counts;
    counts.sort_unstable_by_key(|p| p.0);
    let mut items = Vec::with_capacity(alloc, counts.len())?;
    for &(number, count) in &counts {
        items.push(weight(number, count))?;
    }
    Ok(Weights::new(items))
}

/// What a text has, where its fresh words are to be numbered from `words` on.
pub(crate) fn by_number(alloc: Global, words: u32, parted: Parted) -> Result<Measured, NumberError>
    requires { (all : List (List ℕ)) × (held : Option (List ℕ)) × (words ≡ length all)
        × IsParted all held parted.known.items parted.fresh.items parted.counts.items }
    ensures measured { IfOk result (λ m. (all : List (List ℕ)) (held : Option (List ℕ)) → words ≡ length all → IsDistinct bytes_eq all
        → IsParted all held parted.known.items parted.fresh.items parted.counts.items → IsMeasured all held m.fresh.items m.weights) }
    ensures fresh { IfOk result (λ m. m.fresh.items ≡ parted.fresh.items) }
    ensures fits { OnOk result (words + length parted.counts.items ≤ 2 ^ 20) }
    ensures full { result ≡ Err NumberError.Full → 2 ^ 20 < words + length parted.counts.items }
{
    let Parted {
        known,
        fresh,
        counts,
    } = parted;
    if MOST_WORDS < u64::from(words) + counts.len() as u64 {
        return Err(NumberError::Full);
    }
    let counts = number_counts(known, words, &counts)?;
    let weights = weights_by(alloc, counts)?;
    Ok(Measured { fresh, weights })
}

/// Measures a text, or nothing for a deletion. The text is read once.
pub(crate) fn measure(
    alloc: Global,
    vocabulary: &Vocabulary,
    places: &mut Places,
    text: Option<&str>,
) -> Result<Measured, NumberError>
    requires { IfSome text (λ t. length t.now < 2 ^ 32) }
    ensures measured { IfOk result (λ m. IsMeasured vocabulary.now.words (option_map (λ t. t.now) text.entry) m.fresh.items m.weights) }
    ensures fits { OnOk result (length (words_with vocabulary.now.words (option_map (λ t. t.now) text.entry)) ≤ 2 ^ 20) }
    ensures full { result ≡ Err NumberError.Full → 2 ^ 20 < length (words_with vocabulary.now.words (option_map (λ t. t.now) text.entry)) }
    ensures some { result ≡ Err NumberError.Full → IsSome text.entry }
{
    let weighed = weigh_held(alloc, vocabulary, places, text)?;
    let parted = part(alloc, weighed)?;
    by_number(alloc, vocabulary.len(), parted)
}
