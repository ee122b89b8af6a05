//! Guesses of the numbers of runs.
ghost use Rattle.std.specs.Prelude.{◌≡◌, ◌↔◌, true, ℕ, List, map, chars, Some, IfSome};
ghost use Rattle.std.specs.Char.{to_ascii_lowercase};
ghost use Rattle.text_words.specs.Terms.{term_of};
ghost use Rattle.text_words.specs.Words.{number_of};

use crate::vocabulary::Vocabulary;
use base_types::WordId;
use std::alloc::{AllocError, Global};

/// How many slots there are.
const SLOTS: usize = 2048;

/// For runs by their bytes, the number of the last word that was found for a run of the same slot.
/// A guess means nothing: it is believed only where the word of that number is the run's.
#[derive(Drop)]
pub(crate) struct Guesses {
    slots: Vec<u32>,
}

impl Guesses {
    /// No memory yet. Constant cost.
    pub(crate) fn new(alloc: Global) -> Guesses {
        Guesses {
            slots: Vec::new(alloc),
        }
    }

    /// Makes the slots, where there are none yet; without them there are no guesses.
    pub(crate) fn reserve(&mut self) -> Result<(), AllocError> {
        if self.slots.len() < SLOTS {
            self.slots.resize(SLOTS, 0)?;
        }
        Ok(())
    }

    /// The number of the run's word, where the run is of ASCII and the guess is right. It takes no
    /// memory, and costs the run's length.
    pub(crate) fn find(&self, vocabulary: &Vocabulary, run: &str) -> Option<u32>
        ensures { IfSome result (λ n. (word : List ℕ) × (term_of (chars run.now) ≡ Some word)
            × (number_of word vocabulary.now.words ≡ Some n)) }
    {
        if !run.is_ascii() {
            return None;
        }
        let number = *self.slots.get(slot_of(run.as_bytes()))?;
        if vocabulary.len() <= number {
            return None;
        }
        let word = vocabulary.word(WordId { number });
        if is_lower_case(word.as_str().as_bytes(), run.as_bytes()) {
            Some(number)
        } else {
            None
        }
    }

    /// Keeps the number of the word of a run of ASCII as the guess for runs of its slot. It costs
    /// the run's length.
    pub(crate) fn put(&mut self, run: &str, number: u32) {
        if run.is_ascii() {
            if let Some(slot) = self.slots.get_mut(slot_of(run.as_bytes())) {
                *slot = number;
            }
        }
    }
}

/// The slot of a run.
pub(crate) fn slot_of(run: &[u8]) -> usize {
    let mut hash = 0u32;
    for byte in run {
        hash = (hash ^ u32::from(*byte)).wrapping_mul(0x9e37_79b1);
    }
    (hash >> 21) as usize
}

/// Whether the word is the run in lower case.
fn is_lower_case(word: &[u8], run: &[u8]) -> bool
    ensures { (result ≡ true) ↔ (word.now ≡ map to_ascii_lowercase run.now) }
{
    if word.len() != run.len() {
        return false;
    }
    for (at, byte) in run.iter().enumerate() {
        if word[at] != byte.to_ascii_lowercase() {
            return false;
        }
    }
    true
}
