//! The list of a word, and what is asked of it before it is planned.
ghost use Rattle.std.specs.Prelude.{◌≡◌, ◌↔◌, ◌<◌, ◌≤◌, ◌^◌, length, All, IfOk, IsErrOf, IsTrue, Some};
ghost use Rattle.text_words.specs.Terms.{one_term as term_of};
ghost use Rattle.journal_entries.specs.PlanSpelling.{IsWord};
ghost use Rattle.model_archive.specs.Histories.{History};
ghost use Rattle.model_archive.specs.Planning.{IsKnown, IsListUpTo, OfPhrase, OfWord, last_second};
ghost use Rattle.model_archive.specs.Steps.{spelled_key};
ghost use Rattle.archive_hand.specs.States.{StandsFor};
ghost use Rattle.archive_hand.specs.Sealing.{IsSealed};
ghost use Rattle.base_commands.specs.declared.command.Kind.{Kind};

use crate::archive::Archive;
use archive_entries::{Declined, are_many, list_up_to};
use base_commands::Phrase;
use base_types::{Key, Posting, Time};
use model_archive::Refusal;
use std::alloc::{AllocError, Global};
use text_words::one_term;

/// A word with its list up to the last time.
#[derive(Drop)]
pub struct Sealed {
    /// The word.
    pub word: Key,
    /// Its list, of at least one posting and fewer than 2^38.
    pub list: Vec<Posting>,
    /// The last time, where the list ends.
    pub horizon: Time,
}

impl Archive {
    /// The list of a phrase's word up to the last time, or why it can't be planned.
    ///
    /// `Refused`: for the first cause in order, the phrase isn't one term, no text has the word, or it has no
    /// posting before the last time. `Memory`: an allocation failed. Costs what `list_until` does.
    pub fn sealed(&self, alloc: Global, word: &Phrase) -> Result<Sealed, Declined>
        ensures refused { (kind : Kind) (h : History) → StandsFor self.now h → (why : Refusal) → IsErrOf result (Declined.Refused why) →
            OfPhrase kind h (term_of word.now) (λ because. why ≡ because) (λ word list. ⊥) }
        ensures sealed { (h : History) → StandsFor self.now h
            → IfOk result (λ s. IsSealed h word.now s.word s.list.items s.horizon.seconds) }
        ensures some { IfOk result (λ s. 0 < length s.list.items) }
        ensures few { IfOk result (λ s. length s.list.items < 2 ^ 38) }
        ensures early { IfOk result (λ s. All (λ p. p.span.to ≤ s.horizon.seconds) s.list.items) }
        // A term's key is text, so it is the word of an entry as it is.
        ensures word { IfOk result (λ s. IsWord s.word) }
        ensures term { IfOk result (λ s. spelled_key (term_of word.now) ≡ Some s.word) }
        ensures spelled { (why : Refusal) → IsErrOf result (Declined.Refused why) → spelled_key (term_of word.now) ≡ term_of word.now }
    {
        let Some(key) = one_term(alloc, word.as_str())? else {
            return Err(Declined::Refused(Refusal::NotOneTerm));
        };
        key_fits(&key);
        self.sealed_list(alloc, key)
    }

    /// The list of a word up to the last time, or why it can't be planned.
    fn sealed_list(&self, alloc: Global, key: Key) -> Result<Sealed, Declined>
        ensures refused { (kind : Kind) (h : History) → StandsFor self.now h → (why : Refusal) → IsErrOf result (Declined.Refused why) →
            OfWord kind h key (λ because. why ≡ because) (λ list. ⊥) }
        ensures word { IfOk result (λ s. s.word ≡ key) }
        ensures known { (h : History) → StandsFor self.now h → IfOk result (λ s. IsKnown h key) }
        ensures list { (h : History) → StandsFor self.now h → IfOk result (λ s. IsListUpTo h key (last_second h) s.list.items) }
        ensures horizon { (h : History) → StandsFor self.now h → IfOk result (λ s. s.horizon.seconds ≡ last_second h) }
        ensures some { IfOk result (λ s. 0 < length s.list.items) }
        ensures few { IfOk result (λ s. length s.list.items < 2 ^ 38) }
        ensures early { IfOk result (λ s. All (λ p. p.span.to ≤ s.horizon.seconds) s.list.items) }
    {
        if !self.knows(&key) {
            return Err(Declined::Refused(Refusal::UnknownWord));
        }
        let Some(horizon) = self.directory().last() else {
            return Err(Declined::Refused(Refusal::NothingSealed));
        };
        let list = self.list_until(alloc, &key, horizon)?;
        if list.is_empty() {
            return Err(Declined::Refused(Refusal::NothingSealed));
        }
        if are_many(&list) {
            return Err(Declined::Memory);
        }
        Ok(Sealed {
            word: key,
            list,
            horizon,
        })
    }

    /// Whether some text has a word. Costs a look-up.
    pub fn knows(&self, word: &Key) -> bool
        ensures { (h : History) → StandsFor self.now h → IsTrue result ↔ IsKnown h word.now }
    {
        self.index().knows(word)
    }

    /// The list of a word up to a time. Costs time and memory in the word's postings.
    pub fn list_until(
        &self,
        alloc: Global,
        word: &Key,
        horizon: Time,
    ) -> Result<Vec<Posting>, AllocError>
        ensures list { (h : History) → StandsFor self.now h → IfOk result (λ l. IsListUpTo h word.now horizon.seconds l.items) }
        ensures early { IfOk result (λ l. All (λ p. p.span.to ≤ horizon.seconds) l.items) }
    {
        let whole = self.index().list(alloc, word)?;
        let list = list_up_to(alloc, &whole, horizon)?;
        Ok(list)
    }
}

/// A key may be the word of an entry. Does nothing.
fn key_fits(key: &Key)
    ensures { IsWord key.now }
{
    key.as_str();
}
