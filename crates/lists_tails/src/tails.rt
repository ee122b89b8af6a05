//! The tails of all words.
ghost use Rattle.std.specs.Prelude.{◌≡◌, ◌≢◌, ℕ, ◌+◌, ◌≤◌, ◌<◌, ◌^◌, [], length, IfOk, OnOk};
ghost use Rattle.lists_postings.specs.Lists.{sublist};
ghost use Rattle.lists_tails.specs.Turns.{IsTurned};
ghost use Rattle.lists_tails.specs.Tails.{held_of, tail_of, room_of, HaveRoom};
ghost use Rattle.lists_tails.specs.Weights.{AreWeights, weight_of};

use crate::passing::{first_word, split_word};
use crate::tail::Tail;
use crate::weight::Weight;
use base_types::{DocId, Posting, Span, Time, WordId};
use std::alloc::{AllocError, Global};
use std::marker::Model;

/// The tails of all words. Contracts see what is held for each word, in the order of the words'
/// numbers; a word behind the last has an empty tail and no room.
#[derive(Debug, Drop)]
pub struct Tails {
    tails: Vec<Tail>,
}

impl Model for Tails {
    ghost use Rattle.std.specs.Prelude.{List};
    ghost use Rattle.lists_tails.specs.States.{TailState};

    ghost Value = { List TailState };

    ghost view = { λ t. t.tails.items };
}

impl Tails {
    /// An empty tail for each word. It takes no memory. Constant cost.
    pub fn new(alloc: Global) -> Tails
        ensures { (w : ℕ) → tail_of result w ≡ [] }
    {
        Tails {
            tails: Vec::new(alloc),
        }
    }

    /// How many postings the word's tail has, below 2^64. It counts the tail's blocks.
    pub fn len(&self, word: WordId) -> u64
        ensures { length (tail_of self.now word.number) < 2 ^ 64 → result ≡ length (tail_of self.now word.number) }
    {
        match self.tails.get(word.number as usize) {
            Some(tail) => tail.len(),
            None => 0,
        }
    }

    /// The word's tail as one list, as a plan needs it. One pass over the tail; an `Err` means that
    /// memory ran out.
    pub fn to_list(&self, alloc: Global, word: WordId) -> Result<Vec<Posting>, AllocError>
        ensures { IfOk result (λ list. list.items ≡ tail_of self.now word.number) }
    {
        match self.tails.get(word.number as usize) {
            Some(tail) => tail.to_list(alloc),
            None => Ok(Vec::new(alloc)),
        }
    }

    /// The postings of the word's tail that have a time in the span, uncut, in order. One pass over
    /// the tail; an `Err` means that memory ran out.
    pub fn rows_in(
        &self,
        alloc: Global,
        word: WordId,
        span: Span,
    ) -> Result<Vec<Posting>, AllocError>
        ensures { IfOk result (λ rows. rows.items ≡ sublist span.from span.to (tail_of self.now word.number)) }
    {
        match self.tails.get(word.number as usize) {
            Some(tail) => tail.rows_in(alloc, span),
            None => Ok(Vec::new(alloc)),
        }
    }

    /// Makes room for one turn of a document to the weights `new`, so that it takes no memory: words
    /// that it loses need none. Its cost is constant on average for each weight; an `Err` leaves the
    /// tails as they were.
    pub fn reserve_turn(&mut self, new: &[Weight]) -> Result<(), AllocError>
        ensures room_for_new { OnOk result (HaveRoom new.now self.new) }
        ensures same { (w : ℕ) → tail_of self.new w ≡ tail_of self.old w }
        ensures room { (w : ℕ) → room_of self.old w ≤ room_of self.new w }
    {
        for x in new {
            self.reserve_word(x.word)?;
        }
        Ok(())
    }

    /// At `at` the document passes from the weights `old` to `new`, both in ascending order of the
    /// words. A word with one frequency in both keeps its posting, and a posting that would be empty
    /// is dropped. No memory. For each weight the place is found by the logarithm of the tail's
    /// length, and the postings behind it are moved once.
    pub fn turn(&mut self, doc: DocId, at: Time, old: &[Weight], new: &[Weight])
        requires old { AreWeights old.now }
        requires new { AreWeights new.now }
        requires room_for_new { HaveRoom new.now self.old }
        ensures turned { (w : ℕ)
            → IsTurned doc.0 at.seconds (weight_of w old.now) (weight_of w new.now) (tail_of self.old w) (tail_of self.new w) }
        ensures longer { (w : ℕ) → length (tail_of self.new w) ≤ length (tail_of self.old w) + 1 }
        ensures others { (w : ℕ) → weight_of w old.now ≡ weight_of w new.now → held_of self.new w ≡ held_of self.old w }
        ensures shorter { (w : ℕ) → weight_of w new.now ≡ 0 → length (tail_of self.new w) ≤ length (tail_of self.old w) }
        ensures none { (w : ℕ) → weight_of w new.now ≡ 0 → room_of self.old w ≤ room_of self.new w }
        ensures room { (w : ℕ) → room_of self.old w ≤ room_of self.new w + 1 }
    {
        let mut lost = old;
        let mut gained = new;
        'words: while let Some(word) = first_word(lost, gained) {
            let (before, less) = split_word(lost, word);
            let (after, fewer) = split_word(gained, word);
            self.turn_word(word, doc, at, before, after);
            lost = less;
            gained = fewer;
        }
    }

    /// Makes room for one turn of the word.
    fn reserve_word(&mut self, word: WordId) -> Result<(), AllocError>
        ensures room_for { OnOk result (1 ≤ room_of self.new word.number) }
        ensures same { (w : ℕ) → tail_of self.new w ≡ tail_of self.old w }
        ensures room { (w : ℕ) → room_of self.old w ≤ room_of self.new w }
    {
        self.reserve_place(word)?;
        self.tails[word.number as usize].reserve_turn()
    }

    /// Makes a place for the word's tail.
    fn reserve_place(&mut self, word: WordId) -> Result<(), AllocError>
        ensures place { OnOk result (word.number < length self.new) }
        ensures same { (w : ℕ) → tail_of self.new w ≡ tail_of self.old w }
        ensures room { (w : ℕ) → room_of self.old w ≤ room_of self.new w }
    {
        let place = word.number as usize;
        let alloc = *self.tails.allocator();
        while self.tails.len() <= place {
            self.tails.push(Tail::new(alloc))?;
        }
        Ok(())
    }

    /// The document passes from the frequency `old` of the word to `new`.
    fn turn_word(&mut self, word: WordId, doc: DocId, at: Time, old: u32, new: u32)
        requires room { old ≢ new → new ≢ 0 → 1 ≤ room_of self.old word.number }
        ensures turned { IsTurned doc.0 at.seconds old new (tail_of self.old word.number) (tail_of self.new word.number) }
        ensures longer { length (tail_of self.new word.number) ≤ length (tail_of self.old word.number) + 1 }
        ensures same { old ≡ new → held_of self.new word.number ≡ held_of self.old word.number }
        ensures others { (w : ℕ) → w ≢ word.number → held_of self.new w ≡ held_of self.old w }
        ensures shorter { new ≡ 0 → length (tail_of self.new word.number) ≤ length (tail_of self.old word.number) }
        ensures none { new ≡ 0 → room_of self.old word.number ≤ room_of self.new word.number }
        ensures room { room_of self.old word.number ≤ room_of self.new word.number + 1 }
    {
        let place = word.number as usize;
        if old == new || place >= self.tails.len() {
            return;
        }
        self.tails[place].turn(doc, at, old, new);
    }
}
