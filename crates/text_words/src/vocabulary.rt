//! The numbers of words.
ghost use Rattle.std.specs.Prelude.{◌≡◌, ◌+◌, ◌-◌, ◌<◌, ◌≤◌, ◌^◌, ◌⊎◌, [], ◌∷◌, ◌++◌, false, length, slice_get, Some, IsSome, is_some, Err, option_map, IfOk, OnOk, if◌then◌else◌};
ghost use Rattle.std.specs.List.{list_any, IsDistinct};
ghost use Rattle.std.specs.Str.{bytes_eq};
ghost use Rattle.text_words.specs.Words.{entered, with_all, number_of};
ghost use Rattle.text_words.specs.declared.vocabulary.NumberError.{NumberError};

use base_types::{Key, MOST_WORDS, WordId};
use indexmap::IndexSet;
use std::alloc::{AllocError, Global};
use std::marker::Model;

/// Why no room was made for words.
#[derive(Clone, Copy, Debug, PartialEq, Eq)]
pub enum NumberError {
    /// There would be more than 2^20 words.
    Full,
    /// There was no memory.
    Memory,
}

impl From<AllocError> for NumberError {
    ghost from_gives = { λ _ e. e ≡ NumberError.Memory };

    fn from(_: AllocError) -> Self {
        NumberError::Memory
    }
}

/// The words of an archive and their numbers, from 0 on in the order in which they came.
///
/// Contracts see the list of the words by number, and `spare`: how many new words are numbered
/// without memory. A look-up is one in a hash table, constant on average in the number of words.
#[derive(Drop)]
pub struct Vocabulary {
    words: IndexSet<Key>,
    spare: u32,
}

impl Model for Vocabulary {
    ghost use Rattle.std.specs.Prelude.{◌+◌, ◌≤◌, ◌^◌, length};
    ghost use Rattle.indexmap.specs.IndexSet.{spare as room};
    ghost use Rattle.text_words.specs.Words.{Numbered};

    ghost Value = { Numbered };

    ghost view = { λ v. record { words = v.words.keys; spare = v.spare } };

    ghost invariant = { λ v. (v.spare ≤ room v.words) × (length v.words.keys + v.spare ≤ 2 ^ 20) };
}

impl Vocabulary {
    /// A vocabulary without words. Constant cost.
    pub fn new(alloc: Global) -> Result<Vocabulary, AllocError>
        ensures { IfOk result (λ v. v.words ≡ []) }
    {
        Ok(Vocabulary {
            words: IndexSet::new(alloc),
            spare: 0,
        })
    }

    /// How many words there are. Constant cost.
    pub fn len(&self) -> u32
        ensures count { result ≡ length self.now.words }
        ensures bounded { result + self.now.spare ≤ 2 ^ 20 }
        ensures each_once { IsDistinct bytes_eq self.now.words }
    {
        self.words.len() as u32
    }

    /// The number of the word with that key; None where it has none. It takes no memory, and costs
    /// one look-up.
    pub fn find(&self, key: &Key) -> Option<WordId>
        ensures { option_map (λ id. id.number) result ≡ number_of key.now self.now.words }
    {
        let place = self.words.get_index_of(key)?;
        Some(WordId {
            number: place as u32,
        })
    }

    /// The key of the word with that number, which is given. It takes no memory. Constant cost.
    pub fn word(&self, id: WordId) -> &Key
        requires { id.number < length self.now.words }
        ensures { Some result.now ≡ slice_get self.now.words id.number }
    {
        self.words.get_index(id.number as usize).unwrap()
    }

    /// Makes room for the keys, so that numbering each of them takes no memory. `Full` comes where
    /// there would be more than 2^20 words. No number changes, and an `Err` takes no room away. It
    /// costs a look-up for each key, and a copy of each that is new.
    pub fn reserve(&mut self, keys: &[Key]) -> Result<(), NumberError>
        ensures room { OnOk result (length (with_all self.old.words keys.now)
            ≤ length self.old.words + self.new.spare) }
        ensures fits { OnOk result (length (with_all self.old.words keys.now) ≤ 2 ^ 20) }
        ensures full { result ≡ Err NumberError.Full → 2 ^ 20 < length (with_all self.old.words keys.now) }
        ensures same { self.new.words ≡ self.old.words }
        ensures kept { self.old.spare ≤ self.new.spare }
    {
        let fresh = self.fresh(keys)?;
        if MOST_WORDS < self.words.len() as u64 + fresh as u64 {
            return Err(NumberError::Full);
        }
        self.words.reserve(fresh)?;
        self.spare = self.spare.max(fresh as u32);
        Ok(())
    }

    /// How many distinct keys among these have no number.
    fn fresh(&self, keys: &[Key]) -> Result<usize, AllocError>
        ensures count { IfOk result (λ n. length (with_all self.now.words keys.now)
            ≡ length self.now.words + n) }
        ensures small { IfOk result (λ n. n < 2 ^ 63) }
    {
        let mut fresh = IndexSet::new(*self.words.allocator());
        for key in keys {
            if !self.words.contains(key) {
                fresh.insert(key.clone()?)?;
            }
        }
        Ok(fresh.len())
    }

    /// The number of the word with that key, which is the next one where it has none yet. It takes
    /// no memory, and costs one look-up, or two for a new word.
    pub fn number(&mut self, key: Key) -> WordId
        requires { IsSome (number_of key self.old.words) ⊎ (1 ≤ self.old.spare) }
        ensures words { self.new.words ≡ entered self.old.words key }
        ensures number { number_of key self.new.words ≡ Some result.number }
        ensures spare { self.new.spare ≡ (if is_some (number_of key self.old.words)
            then self.old.spare else self.old.spare - 1) }
    {
        match self.find(&key) {
            Some(id) => id,
            None => self.add(key),
        }
    }

    /// The next number, for a new word.
    fn add(&mut self, key: Key) -> WordId
        requires fresh { list_any (bytes_eq key) self.old.words ≡ false }
        requires room { 1 ≤ self.old.spare }
        ensures words { self.new.words ≡ self.old.words ++ key ∷ [] }
        ensures number { result.number ≡ length self.old.words }
        ensures spare { self.new.spare ≡ self.old.spare - 1 }
    {
        self.spare -= 1;
        let (place, _) = self.words.insert_full(key).unwrap();
        WordId {
            number: place as u32,
        }
    }
}
