//! The index of a whole history at once.
ghost use Rattle.std.specs.Prelude.{◌≡◌, ℕ, ◌<◌, ◌≤◌, ◌^◌, List, [], ◌∷◌, ◌++◌, length, option_map, All, Err, IfOk, OnOk, OnErr, IfSome, IsSome};
ghost use Rattle.lists_versions.specs.declared.change.Change.{Change};
ghost use Rattle.lists_tails.specs.Acts.{open_after};
ghost use Rattle.lists_tails.specs.Gathered.{acts_of};
ghost use Rattle.lists_tails.specs.Weights.{AreWeights, weight_of};
ghost use Rattle.lists_index.specs.Words.{words_in};
ghost use Rattle.lists_index.specs.Newest.{weights_of};
ghost use Rattle.lists_index.specs.Indexing.{ComesLater};
ghost use Rattle.lists_index.specs.Indexes.{state_of, Indexes};
ghost use Rattle.lists_index.specs.Loads.{loaded, Loads};

use crate::index::Index;
use crate::measure::{Measured, measure};
use crate::newest::Newest;
use crate::numbering::number_all;
use crate::weights::Weights;
use crate::word_tails::{MOST_TURNS, WordTails};
use base_types::{DocId, Key, Time};
use lists_tails::Turn;
use lists_versions::held_as_changes_come;
use std::alloc::{AllocError, Global};
use text_words::{NumberError, Places, Vocabulary};

/// The changes of a history on their way into an index: each text is measured as it comes, and all
/// lists are made at once.
///
/// Contracts speak of it by `Loads`: it took a list of changes.
#[derive(Drop)]
pub struct Loader {
    pub(crate) vocabulary: Vocabulary,
    pub(crate) places: Places,
    pub(crate) turns: Vec<Turn>,
}

impl Loader {
    /// No change yet. Constant cost.
    pub fn new(alloc: Global) -> Result<Loader, AllocError>
        ensures { IfOk result (λ loader. Loads loader []) }
    {
        Ok(Loader {
            vocabulary: Vocabulary::new(alloc)?,
            places: Places::new(alloc),
            turns: Vec::new(alloc),
        })
    }

    /// Takes the next change: a new text of the document, or its deletion. An `Err` leaves the
    /// loader as it was. `Full` comes where there would be more than 2^20 words, and `Memory` where
    /// there is none, or where 2^40 changes were added. The text is read once; it costs the text's
    /// words.
    pub fn add(
        &mut self,
        alloc: Global,
        doc: DocId,
        at: Time,
        text: Option<&str>,
    ) -> Result<(), NumberError>
        requires { IfSome text (λ t. length t.now < 2 ^ 32) }
        ensures added { OnOk result ((changes : List (Change (List ℕ))) → Loads self.old changes
            → ComesLater changes (record { doc = doc; at = at; held = option_map (λ t. t.now) text.entry })
            → Loads self.new (changes ++ record { doc = doc; at = at; held = option_map (λ t. t.now) text.entry } ∷ [])) }
        ensures same { OnErr result (loaded self.new ≡ loaded self.old) }
        ensures fits { OnOk result ((changes : List (Change (List ℕ))) (c : Change (List ℕ)) → Loads self.old changes
            → c.held ≡ option_map (λ t. t.now) text.entry → length (words_in (changes ++ c ∷ [])) ≤ 2 ^ 20) }
        ensures full { result ≡ Err NumberError.Full → (changes : List (Change (List ℕ))) (c : Change (List ℕ)) → Loads self.old changes
            → c.held ≡ option_map (λ t. t.now) text.entry → 2 ^ 20 < length (words_in (changes ++ c ∷ [])) }
        ensures some { result ≡ Err NumberError.Full → IsSome text.entry }
    {
        held_as_changes_come::<Key>();
        if MOST_TURNS <= self.turns.len() as u64 {
            return Err(NumberError::Memory);
        }
        self.turns.reserve(1)?;
        let measured = measure(alloc, &self.vocabulary, &mut self.places, text)?;
        let Measured { fresh, weights } = measured;
        self.vocabulary.reserve(&fresh)?;
        number_all(&mut self.vocabulary, fresh);
        self.turns.push_reserved(Turn {
            doc,
            at,
            weights: weights.into_items(),
        });
        Ok(())
    }

    /// The index of the changes that were added. For n weights in all it costs n log n.
    pub fn finish(self, alloc: Global) -> Result<Index, AllocError>
        requires { (changes : List (Change (List ℕ))) × Loads self changes }
        ensures { IfOk result (λ index. (changes : List (Change (List ℕ))) → Loads self changes → Indexes (state_of index) changes) }
    {
        let Loader {
            vocabulary,
            places,
            turns,
        } = self;
        let mut turns = turns;
        let tails = WordTails::gather(alloc, &mut turns)?;
        let newest = newest_of(alloc, turns)?;
        Ok(Index {
            vocabulary,
            places,
            tails,
            newest,
        })
    }
}

/// What each document has after the turns: the weights of its last one.
fn newest_of(alloc: Global, turns: Vec<Turn>) -> Result<Newest, AllocError>
    requires { All (λ x. AreWeights x.weights.items) turns.items }
    ensures { IfOk result (λ newest. (w d : ℕ) → weight_of w (weights_of newest d) ≡ open_after (acts_of turns.items) w d) }
{
    let mut newest = Newest::new(alloc);
    for turn in turns {
        newest.reserve()?;
        newest.put(turn.doc, Weights::new(turn.weights));
    }
    Ok(newest)
}
