//! The changes of texts that are to come all at once, and the words that they bring.
ghost use Rattle.std.specs.Prelude.{◌≡◌, ℕ, ◌<◌, ◌≤◌, ◌^◌, List, [], ◌∷◌, ◌++◌, length, option_map, Err, IfOk, OnOk, IfSome};
ghost use Rattle.lists_versions.specs.declared.change.Change.{Change};
ghost use Rattle.lists_index.specs.Words.{words_in};
ghost use Rattle.lists_index.specs.Indexes.{state_of, Indexes, IsPreparedBehind};
ghost use Rattle.lists_index.specs.NewWords.{Brings};

use crate::index::Index;
use crate::measure::{Measured, by_number, part_behind};
use crate::numbering::number_all;
use crate::prepared::Prepared;
use base_types::DocId;
use std::alloc::{AllocError, Global};
use text_words::{NumberError, Vocabulary};

/// The words that changes which are to come all at once bring to an index. It prepares each change behind
/// those before it, so that it is known before any of them comes whether there would be too many words,
/// and the texts aren't needed any more when they come.
///
/// Contracts speak of it by `Brings`: it has the words that these changes bring behind those.
#[derive(Drop)]
pub struct NewWords {
    pub(crate) words: Vocabulary,
}

impl NewWords {
    /// No change yet. Constant cost.
    pub fn new(alloc: Global) -> Result<NewWords, AllocError>
        ensures { IfOk result (λ new. (changes : List (Change (List ℕ))) → Brings new changes []) }
    {
        Ok(NewWords {
            words: Vocabulary::new(alloc)?,
        })
    }

    /// Prepares the next change, a new text of the document or its deletion: measures the text as it is
    /// behind the changes before it. The index's answers stay. `Full` comes where with it there would be
    /// more than 2^20 words. The text is read once; it costs the text's words, and for each that the index
    /// hasn't a look-up, and two copies where no earlier text has it either.
    pub fn add(
        &mut self,
        alloc: Global,
        index: &mut Index,
        doc: DocId,
        text: Option<&str>,
    ) -> Result<Prepared, NumberError>
        requires { IfSome text (λ t. length t.now < 2 ^ 32) }
        ensures same { state_of index.new ≡ state_of index.old }
        ensures prepared { IfOk result (λ change. (changes coming : List (Change (List ℕ))) → Indexes (state_of index.old) changes
            → Brings self.old changes coming
            → IsPreparedBehind (words_in (changes ++ coming)) doc (option_map (λ t. t.now) text.entry) change) }
        ensures added { OnOk result ((changes coming : List (Change (List ℕ))) (c : Change (List ℕ)) → Indexes (state_of index.old) changes
            → Brings self.old changes coming
            → c.held ≡ option_map (λ t. t.now) text.entry → Brings self.new changes (coming ++ c ∷ [])
            × (length (words_in (changes ++ (coming ++ c ∷ []))) ≤ 2 ^ 20)) }
        ensures full { result ≡ Err NumberError.Full → (changes coming : List (Change (List ℕ))) (c : Change (List ℕ))
            → Indexes (state_of index.old) changes → Brings self.old changes coming
            → c.held ≡ option_map (λ t. t.now) text.entry → 2 ^ 20 < length (words_in (changes ++ (coming ++ c ∷ []))) }
    {
        let weighed = index.weigh(alloc, text)?;
        let words = index.words();
        let parted = part_behind(alloc, weighed, words, &self.words)?;
        let measured = match by_number(alloc, words + self.words.len(), parted) {
            Ok(measured) => measured,
            Err(why) => return Err(why),
        };
        let Measured { fresh, weights } = measured;
        match self.words.reserve(&fresh) {
            Ok(()) => {}
            // The words were counted above, so it is memory that lacks.
            Err(_) => return Err(NumberError::Memory),
        }
        number_all(&mut self.words, fresh.to_vec(alloc)?);
        Ok(Prepared {
            doc,
            fresh,
            weights,
        })
    }
}
