//! The index.
ghost use Rattle.std.specs.Prelude.{◌≡◌, ℕ, ◌<◌, ◌≤◌, ◌^◌, ◌↔◌, List, [], ◌∷◌, ◌++◌, length, Option, option_map, Contains, Err, IfOk, OnOk, OnErr, IfSome, IsSome, IsTrue};
ghost use Rattle.text_words.specs.Words.{number_of, with_all, counted, known_of, fresh_of};
ghost use Rattle.lists_versions.specs.declared.change.Change.{Change};
ghost use Rattle.lists_index.specs.Words.{words_in, keys_held, IsWordList, IsWordPart};
ghost use Rattle.lists_index.specs.Indexing.{ComesLater};
ghost use Rattle.lists_index.specs.declared.prepared.Prepared.{Prepared};
ghost use Rattle.lists_index.specs.Indexes.{state_of, seen, Indexes, HasRoom, IsPreparedFor};

use crate::measure::{Measured, measure, weigh_held};
use crate::newest::Newest;
use crate::numbering::number_all;
use crate::part::ListPart;
use crate::prepared::Prepared;
use crate::word_tails::WordTails;
use base_types::{DocId, Key, Posting, Span, Time, WordId};
use lists_versions::held_as_changes_come;
use std::alloc::{AllocError, Global};
use text_words::{NumberError, Places, Vocabulary, Weighed};

/// For each word of all versions so far, the list of how often each document has it at each time.
///
/// Contracts speak of it by `Indexes`: it is the index of a list of changes.
#[derive(Drop)]
pub struct Index {
    pub(crate) vocabulary: Vocabulary,
    pub(crate) places: Places,
    pub(crate) tails: WordTails,
    pub(crate) newest: Newest,
}

impl Index {
    /// The word's list; empty for a word that no text has. It costs one look-up
    /// and a copy of the list; an `Err` means that memory ran out.
    pub fn list(&self, alloc: Global, word: &Key) -> Result<Vec<Posting>, AllocError>
        ensures list { (changes : List (Change (List ℕ))) → Indexes (state_of self.now) changes
            → IfOk result (λ list. IsWordList changes word.now list.items) }
        ensures short { IfOk result (λ list. length list.items ≤ 2 ^ 40) }
    {
        match self.vocabulary.find(word) {
            Some(id) => self.tails.list(alloc, id),
            None => Ok(Vec::new(alloc)),
        }
    }

    /// What the word's list has in the span, and how long that list is. It costs one look-up and one
    /// pass over the list, and copies what it gives; an `Err` means that memory ran out.
    pub fn part_in(&self, alloc: Global, word: &Key, span: Span) -> Result<ListPart, AllocError>
        ensures { (changes : List (Change (List ℕ))) → Indexes (state_of self.now) changes
            → IfOk result (λ part. IsWordPart changes word.now span.from span.to part.rows.items part.whole) }
    {
        match self.vocabulary.find(word) {
            Some(id) => self.tails.part_in(alloc, id, span),
            None => Ok(ListPart {
                rows: Vec::new(alloc),
                whole: 0,
            }),
        }
    }

    /// Whether some text has the word. It costs one look-up.
    pub fn knows(&self, word: &Key) -> bool
        ensures { (changes : List (Change (List ℕ))) → Indexes (state_of self.now) changes
            → (IsTrue result ↔ Contains (words_in changes) word.now) }
    {
        self.number(word).is_some()
    }

    /// The number of the word, which is its place among the words of all texts in the order of first
    /// occurrence; None where no text has it. It costs one look-up.
    pub fn number(&self, word: &Key) -> Option<WordId>
        ensures { option_map (λ id. id.number) result ≡ number_of word.now (state_of self.now).words }
    {
        self.vocabulary.find(word)
    }

    /// How many words the texts have, below which all numbers are. Constant cost.
    pub fn words(&self) -> u32
        ensures count { result ≡ length (state_of self.now).words }
        ensures few { result ≤ 2 ^ 20 }
    {
        self.vocabulary.len()
    }

    /// Prepares a new text of the document, or its deletion: measures the text. Nothing changes.
    /// `Full` comes where there would be more than 2^20 words, never of a deletion. The text is read once; it costs
    /// the text's words.
    pub fn prepare(
        &mut self,
        alloc: Global,
        doc: DocId,
        text: Option<&str>,
    ) -> Result<Prepared, NumberError>
        requires { IfSome text (λ t. length t.now < 2 ^ 32) }
        ensures prepared { IfOk result (λ change. IsPreparedFor (state_of self.old) doc (option_map (λ t. t.now) text.entry) change) }
        ensures same { state_of self.new ≡ state_of self.old }
        ensures fits { OnOk result ((changes : List (Change (List ℕ))) (c : Change (List ℕ)) → Indexes (state_of self.old) changes
            → c.held ≡ option_map (λ t. t.now) text.entry → length (words_in (changes ++ c ∷ [])) ≤ 2 ^ 20) }
        ensures full { result ≡ Err NumberError.Full → (changes : List (Change (List ℕ))) (c : Change (List ℕ))
            → Indexes (state_of self.old) changes
            → c.held ≡ option_map (λ t. t.now) text.entry → 2 ^ 20 < length (words_in (changes ++ c ∷ [])) }
        ensures some { result ≡ Err NumberError.Full → IsSome text.entry }
    {
        let measured = measure(alloc, &self.vocabulary, &mut self.places, text)?;
        let Measured { fresh, weights } = measured;
        Ok(Prepared {
            doc,
            fresh,
            weights,
        })
    }

    /// The words of a text with their counts; none of a deletion. Nothing changes. The text is read once.
    pub(crate) fn weigh(&mut self, alloc: Global, text: Option<&str>) -> Result<Weighed, AllocError>
        requires { IfSome text (λ t. length t.now < 2 ^ 32) }
        ensures known { IfOk result
            (λ w. w.known.items ≡ known_of (state_of self.old).words (counted (keys_held (option_map (λ t. t.now) text.entry)))) }
        ensures fresh { IfOk result
            (λ w. w.fresh.items ≡ fresh_of (state_of self.old).words (counted (keys_held (option_map (λ t. t.now) text.entry)))) }
        ensures same { state_of self.new ≡ state_of self.old }
    {
        weigh_held(alloc, &self.vocabulary, &mut self.places, text)
    }

    /// Makes a prepared change at once, at a time behind the document's earlier ones: makes room for it and
    /// makes it. An `Err` changes no answer. It costs what the two do.
    pub fn take_in(&mut self, change: Prepared, at: Time) -> Result<(), NumberError>
        ensures taken { OnOk result ((changes : List (Change (List ℕ))) (doc : DocId) (held : Option (List ℕ))
            → Indexes (state_of self.old) changes → IsPreparedFor (state_of self.old) doc held change
            → ComesLater changes (record { doc = doc; at = at; held = held })
            → Indexes (state_of self.new) (changes ++ record { doc = doc; at = at; held = held } ∷ [])) }
        ensures same { OnErr result (seen (state_of self.new) ≡ seen (state_of self.old)) }
    {
        self.make_room(&change)?;
        self.commit(change, at);
        Ok(())
    }

    /// Makes room for a change, so that its commit takes no memory. No answer changes, also after an
    /// `Err`. `Full` comes where there would be more than 2^20 words, and `Memory` where there is
    /// none, or where 2^40 changes were committed. It costs a look-up for each fresh word, and
    /// constant cost on average for each word of the text.
    pub fn make_room(&mut self, change: &Prepared) -> Result<(), NumberError>
        ensures room { OnOk result (HasRoom (state_of self.new) change.now) }
        ensures full { result ≡ Err NumberError.Full → 2 ^ 20 < length (with_all (state_of self.old).words change.now.fresh.items) }
        ensures same { seen (state_of self.new) ≡ seen (state_of self.old) }
    {
        if self.tails.is_full() {
            return Err(NumberError::Memory);
        }
        self.vocabulary.reserve(&change.fresh)?;
        self.tails.reserve_turn(change.weights.as_slice())?;
        self.newest.reserve()?;
        Ok(())
    }

    /// Makes the prepared change, at a time behind the document's earlier ones. It takes no memory
    /// and can't fail. It costs two look-ups, and for each word whose frequency changes the
    /// logarithm of its list's length, and a move of postings within one block of it.
    pub fn commit(&mut self, change: Prepared, at: Time)
        requires { HasRoom (state_of self.old) change }
        ensures { (changes : List (Change (List ℕ))) (doc : DocId) (held : Option (List ℕ)) → Indexes (state_of self.old) changes
            → IsPreparedFor (state_of self.old) doc held change
            → ComesLater changes (record { doc = doc; at = at; held = held })
            → Indexes (state_of self.new) (changes ++ record { doc = doc; at = at; held = held } ∷ []) }
    {
        held_as_changes_come::<Key>();
        let Prepared {
            doc,
            fresh,
            weights,
        } = change;
        number_all(&mut self.vocabulary, fresh);
        self.tails
            .turn(doc, at, self.newest.weights(doc), weights.as_slice());
        self.newest.put(doc, weights);
    }
}
