//! The lists of all words, and how many turns they took.
ghost use Rattle.std.specs.Prelude.{◌≡◌, ℕ, ◌+◌, ◌<◌, ◌≤◌, ◌^◌, ◌↔◌, length, All, IfOk, OnOk, IsTrue};
ghost use Rattle.std.specs.List.Sorted.{IsPermutation};
ghost use Rattle.lists_postings.specs.Lists.{sublist};
ghost use Rattle.lists_tails.specs.Acts.{frequency_after, open_after, AreInOrder};
ghost use Rattle.lists_tails.specs.Gathered.{acts_of};
ghost use Rattle.lists_tails.specs.Tails.{tail_of, HaveRoom};
ghost use Rattle.lists_tails.specs.Turns.{AreTails, IsTurned};
ghost use Rattle.lists_tails.specs.Weights.{AreWeights, weight_of};

use crate::part::ListPart;
use base_types::{DocId, Posting, Span, Time, WordId};
use lists_tails::{Tails, Turn, Weight};
use std::alloc::{AllocError, Global};
use std::marker::Model;

/// The most turns. Lists of so many postings have no memory.
pub(crate) const MOST_TURNS: u64 = 1 << 40;

/// The list of each word, and how many turns of documents they took: no list has
/// more postings.
#[derive(Drop)]
pub(crate) struct WordTails {
    tails: Tails,
    turns: u64,
}

impl Model for WordTails {
    ghost use Rattle.std.specs.Prelude.{ℕ, ◌≤◌, ◌^◌, length};
    ghost use Rattle.lists_tails.specs.Tails.{tail_of};
    ghost use Rattle.lists_index.specs.Turned.{Turned};

    ghost Value = { Turned };

    ghost view = { λ t. record { tails = t.tails; turns = t.turns } };

    ghost invariant = { λ t. (t.turns ≤ 2 ^ 40) × ((w : ℕ) → length (tail_of t.tails w) ≤ t.turns) };
}

impl WordTails {
    /// The lists after all turns of a history, which are given in the order of time.
    pub(crate) fn gather(alloc: Global, turns: &mut Vec<Turn>) -> Result<WordTails, AllocError>
        requires in_order { AreInOrder (acts_of turns.old.items) }
        requires ascending { All (λ x. AreWeights x.weights.items) turns.old.items }
        requires few { length turns.old.items ≤ 2 ^ 40 }
        ensures tails { IfOk result (λ t. AreTails (frequency_after (acts_of turns.old.items)) (tail_of t.tails)) }
        ensures permutation { IsPermutation turns.old.items turns.new.items }
        ensures open { (w d : ℕ) → open_after (acts_of turns.new.items) w d ≡ open_after (acts_of turns.old.items) w d }
    {
        let tails = Tails::gather(alloc, turns)?;
        Ok(WordTails {
            tails,
            turns: turns.len() as u64,
        })
    }

    /// The word's list.
    pub(crate) fn list(&self, alloc: Global, word: WordId) -> Result<Vec<Posting>, AllocError>
        ensures value { IfOk result (λ list. list.items ≡ tail_of self.now.tails word.number) }
        ensures short { IfOk result (λ list. length list.items ≤ 2 ^ 40) }
    {
        self.tails.to_list(alloc, word)
    }

    /// What the word's list has in the span.
    pub(crate) fn part_in(
        &self,
        alloc: Global,
        word: WordId,
        span: Span,
    ) -> Result<ListPart, AllocError>
        ensures { IfOk result (λ part. (part.rows.items ≡ sublist span.from span.to (tail_of self.now.tails word.number))
            × (part.whole ≡ length (tail_of self.now.tails word.number))) }
    {
        let rows = self.tails.rows_in(alloc, word, span)?;
        Ok(ListPart {
            whole: self.tails.len(word),
            rows,
        })
    }

    /// Whether there may be no turn more.
    pub(crate) fn is_full(&self) -> bool
        ensures { IsTrue result ↔ (2 ^ 40 ≤ self.now.turns) }
    {
        MOST_TURNS <= self.turns
    }

    /// Makes room for one turn of a document to the weights `new`.
    pub(crate) fn reserve_turn(&mut self, new: &[Weight]) -> Result<(), AllocError>
        ensures room_for_new { OnOk result (HaveRoom new.now self.new.tails) }
        ensures turns { self.new.turns ≡ self.old.turns }
        ensures same { (w : ℕ) → tail_of self.new.tails w ≡ tail_of self.old.tails w }
    {
        self.tails.reserve_turn(new)
    }

    /// At `at` the document passes from the weights `old` to `new`. It takes no memory.
    pub(crate) fn turn(&mut self, doc: DocId, at: Time, old: &[Weight], new: &[Weight])
        requires old { AreWeights old.now }
        requires new { AreWeights new.now }
        requires room_for_new { HaveRoom new.now self.old.tails }
        requires few { self.old.turns < 2 ^ 40 }
        ensures turned { (w : ℕ)
            → IsTurned doc.0 at.seconds (weight_of w old.now) (weight_of w new.now) (tail_of self.old.tails w) (tail_of self.new.tails w) }
    {
        self.tails.turn(doc, at, old, new);
        self.turns += 1;
    }
}
