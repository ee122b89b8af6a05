//! The times that were asked for, by word.
ghost use Rattle.std.specs.Prelude.{◌≡◌, ◌≤◌, ◌^◌, ℕ, nat_lt, count_by, List, [], length, map, IfOk, OnOk, IsErr};
ghost use Rattle.std.specs.List.Sorted.{IsSorted, IsPermutation};
ghost use Rattle.std.specs.Ordering.{nat_cmp};
ghost use Rattle.plans_share.specs.Asked.{asked_in, asking, count_in, noted, noted_all, seconds_of};

use base_types::{Key, Span, Time};
use std::alloc::{AllocError, Global};
use std::marker::Model;

/// The most pairs that are noted.
pub const MOST_ASKED: usize = 1 << 20;

/// A word, and a time that was asked for it.
#[derive(Debug, Drop)]
pub struct Asking {
    /// The word.
    pub word: Key,
    /// The time.
    pub at: Time,
}

/// The first pairs that were noted, in order. Contracts see them as that list.
#[derive(Debug, Drop)]
pub struct Asked {
    pairs: Vec<Asking>,
}

impl Model for Asked {
    ghost use Rattle.std.specs.Prelude.{List, ◌≤◌, length};
    ghost use Rattle.plans_share.specs.declared.asked.Asking.{Asking};

    ghost Value = { List Asking };

    ghost view = { λ a. a.pairs.items };

    ghost invariant = { λ a. length a.pairs.items ≤ 1048576 };
}

impl Asked {
    /// No pair. Takes no memory. Constant cost.
    pub fn new(alloc: Global) -> Asked
        ensures { result ≡ [] }
    {
        Asked {
            pairs: Vec::new(alloc),
        }
    }

    /// Notes a pair, while fewer than `MOST_ASKED` are noted, and nothing afterwards. Costs the word's
    /// length.
    pub fn note(&mut self, alloc: Global, word: &Key, at: Time) -> Result<(), AllocError>
        ensures noted { OnOk result (self.new ≡ noted self.old word.now at) }
        ensures kept { IsErr result → self.new ≡ self.old }
    {
        if self.pairs.len() < MOST_ASKED {
            let word = word.clone()?;
            self.pairs.push(Asking { word, at })?;
        }
        Ok(())
    }

    /// Notes a time with each of some words, one after another, as `note` does. An error leaves all as it
    /// was. Costs the words' length.
    pub fn note_all(&mut self, alloc: Global, words: &[Key], at: Time) -> Result<(), AllocError>
        ensures noted { OnOk result (self.new ≡ noted_all self.old words.now at) }
        ensures kept { IsErr result → self.new ≡ self.old }
    {
        let mut fresh = askings(alloc, words, at)?;
        fresh.truncate(MOST_ASKED - self.pairs.len());
        self.pairs.append(&mut fresh)?;
        Ok(())
    }

    /// How many pairs of the word have a time that the span holds. One pass over the pairs.
    pub fn count(&self, word: &Key, span: Span) -> u64
        ensures value { result ≡ asked_in self.now word.now span.from span.to }
        ensures few { result ≤ 2 ^ 20 }
    {
        self.pairs
            .iter()
            .filter(|p| p.word == *word && span.holds(p.at))
            .count() as u64
    }

    /// The times of a word's pairs. One pass over the pairs, and time in `n log n` for the word's `n`.
    pub fn times(&self, alloc: Global, word: &Key) -> Result<Times, AllocError>
        ensures counts { IfOk result (λ t. (a b : ℕ) → count_in a b t ≡ asked_in self.now word.now a b) }
        ensures few { IfOk result (λ t. length t ≤ 2 ^ 20) }
    {
        let seconds = self.seconds_of(alloc, word)?;
        Ok(Times {
            seconds: sorted(seconds),
        })
    }

    fn seconds_of(&self, alloc: Global, word: &Key) -> Result<Vec<u64>, AllocError>
        ensures seconds { IfOk result (λ v. v.items ≡ seconds_of word.now self.now) }
        ensures few { IfOk result (λ v. length v.items ≤ 1048576) }
    {
        self.pairs
            .iter()
            .filter(|p| p.word == *word)
            .map(|p| p.at.seconds)
            .collect(alloc)
    }
}

/// A time with each of some words.
fn askings(alloc: Global, words: &[Key], at: Time) -> Result<Vec<Asking>, AllocError>
    ensures { IfOk result (λ v. v.items ≡ map (asking at) words.now) }
{
    let mut askings = Vec::new(alloc);
    for word in words {
        let word = word.clone()?;
        askings.push(Asking { word, at })?;
    }
    Ok(askings)
}

/// The numbers, ascending.
fn sorted(numbers: Vec<u64>) -> Vec<u64>
    ensures ascending { IsSorted nat_cmp result.items }
    ensures same { IsPermutation numbers.items result.items }
    ensures long { length result.items ≡ length numbers.items }
{
    let mut numbers = numbers;
    numbers.sort_unstable();
    numbers
}

/// How many of the ascending numbers are below `t`.
fn count_below(numbers: &[u64], t: u64) -> u64
    requires { IsSorted nat_cmp numbers.now }
    ensures value { result ≡ count_by (λ x. nat_lt x t) numbers.now }
    ensures few { result ≤ length numbers.now }
{
    numbers.partition_point(|x| *x < t) as u64
}

/// How many of the ascending numbers the span holds.
fn count_within(numbers: &[u64], span: Span) -> u64
    requires { IsSorted nat_cmp numbers.now }
    ensures value { result ≡ count_in span.from span.to numbers.now }
    ensures few { result ≤ length numbers.now }
{
    let before_end = count_below(numbers, span.to);
    let before_start = count_below(numbers, span.from);
    before_end - before_start
}

/// The times that were asked for a word, each as often as it was. Contracts see their seconds, in
/// ascending order.
#[derive(Debug, Drop)]
pub struct Times {
    seconds: Vec<u64>,
}

impl Model for Times {
    ghost use Rattle.std.specs.Prelude.{List, ℕ, ◌≤◌, length};
    ghost use Rattle.std.specs.List.Sorted.{IsSorted};
    ghost use Rattle.std.specs.Ordering.{nat_cmp};

    ghost Value = { List ℕ };

    ghost view = { λ t. t.seconds.items };

    ghost invariant = { λ t. IsSorted nat_cmp t.seconds.items × (length t.seconds.items ≤ 1048576) };
}

impl Times {
    /// How many of the times the span holds. Costs time in the logarithm of their number; takes no
    /// memory.
    pub fn count(&self, span: Span) -> u64
        ensures value { result ≡ count_in span.from span.to self.now }
        ensures few { result ≤ 2 ^ 20 }
    {
        count_within(&self.seconds, span)
    }
}
