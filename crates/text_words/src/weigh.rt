//! The words of a text by number, with their counts.
ghost use Rattle.std.specs.Prelude.{◌≡◌, ◌+◌, ◌<◌, ◌≤◌, ◌^◌, [], ◌∷◌, ◌++◌, ℕ, List, length, chars, slice_index_or, nat_eq, Some, IfOk, OnOk};
ghost use Rattle.text_words.specs.Terms.{keys};
ghost use Rattle.text_words.specs.Words.{bump, counted, known_of, fresh_of, ArePlaced};
ghost use Rattle.text_words.specs.Weighing.{IsWordOf, IsTallied};

use crate::counts::count;
use crate::guesses::Guesses;
use crate::runs::{Runs, key_of};
use crate::vocabulary::Vocabulary;
use base_types::Key;
use indexmap::IndexMap;
use std::alloc::{AllocError, Global};

/// Memory that the weighing of one text leaves to that of the next. What is in it means nothing.
#[derive(Drop)]
pub struct Places {
    by_number: Vec<u32>,
    guesses: Guesses,
}

impl Places {
    /// No memory yet. Constant cost.
    pub fn new(alloc: Global) -> Places {
        Places {
            by_number: Vec::new(alloc),
            guesses: Guesses::new(alloc),
        }
    }
}

/// The distinct words of a text with their counts, in the order of first occurrence.
#[derive(Drop)]
pub struct Weighed {
    /// The numbers of the words that have one.
    pub known: Vec<(u32, u32)>,
    /// The words that have none.
    pub fresh: Vec<(Key, u32)>,
}

/// The counts of a text's words as they come.
#[derive(Drop)]
pub(crate) struct Tally {
    pub(crate) known: Vec<(u32, u32)>,
    pub(crate) fresh: IndexMap<Key, u32>,
    pub(crate) spare: String,
}

/// What a run is to a vocabulary.
#[derive(Drop)]
enum Word {
    /// The word of that number.
    Known(u32),
    /// A word without a number.
    Fresh(Key),
    /// No word.
    Missing,
}

/// Counts one more occurrence of the word of that number.
fn count_known(
    places: &mut [u32],
    known: &mut Vec<(u32, u32)>,
    number: u32,
) -> Result<(), AllocError>
    requires within { number < length places.old }
    requires placed { ArePlaced places.old known.old.items }
    requires few { length known.old.items < 2 ^ 32 }
    requires small { (p : ℕ) → p < length known.old.items → (slice_index_or known.old.items p (0, 0)).1 + 1 < 2 ^ 32 }
    ensures counted { OnOk result (known.new.items ≡ bump nat_eq known.old.items number) }
    ensures placed { OnOk result (ArePlaced places.new known.new.items) }
{
    let place = places[number as usize] as usize;
    if place < known.len() && known[place].0 == number {
        known[place].1 += 1;
        return Ok(());
    }
    places[number as usize] = known.len() as u32;
    known.push((number, 1))?;
    Ok(())
}

/// The word of a run, by a guess or by its key. The number that is found by the key is the next
/// guess for the run.
fn word_of(
    alloc: Global,
    vocabulary: &Vocabulary,
    guesses: &mut Guesses,
    spare: &mut String,
    run: &str,
) -> Result<Word, AllocError>
    ensures { IfOk result (λ word. IsWordOf vocabulary.now.words (chars run.now) word) }
{
    if let Some(number) = guesses.find(vocabulary, run) {
        return Ok(Word::Known(number));
    }
    let Some(key) = key_of(alloc, spare, run)? else {
        return Ok(Word::Missing);
    };
    let Some(id) = vocabulary.find(&key) else {
        return Ok(Word::Fresh(key));
    };
    guesses.put(run, id.number());
    *spare = key.into_text();
    Ok(Word::Known(id.number()))
}

/// Counts a run, if it is a term.
fn weigh_run(
    alloc: Global,
    vocabulary: &Vocabulary,
    places: &mut [u32],
    guesses: &mut Guesses,
    tally: &mut Tally,
    run: &str,
) -> Result<(), AllocError>
    requires numbered { length vocabulary.now.words ≤ length places.old }
    requires some { (done : List (List ℕ)) × IsTallied vocabulary.now.words places.old tally.old done × (length done + 1 < 2 ^ 32) }
    ensures { OnOk result ((done : List (List ℕ)) → IsTallied vocabulary.now.words places.old tally.old done
        → IsTallied vocabulary.now.words places.new tally.new (done ++ chars run.now ∷ [])) }
{
    let word = word_of(alloc, vocabulary, guesses, &mut tally.spare, run)?;
    match word {
        Word::Known(number) => {
            count_known(places, &mut tally.known, number)?;
            Ok(())
        }
        Word::Fresh(key) => count(&mut tally.fresh, &mut tally.spare, key),
        Word::Missing => Ok(()),
    }
}

/// Counts the words of a text.
fn tally_of(
    alloc: Global,
    vocabulary: &Vocabulary,
    places: &mut [u32],
    guesses: &mut Guesses,
    text: &str,
) -> Result<Tally, AllocError>
    requires numbered { length vocabulary.now.words ≤ length places.old }
    requires short { length text.now < 2 ^ 32 }
    ensures { IfOk result (λ tally. (tally.known.items ≡ known_of vocabulary.now.words (counted (keys text.now)))
        × (tally.fresh.entries ≡ fresh_of vocabulary.now.words (counted (keys text.now)))) }
{
    let mut tally = Tally {
        known: Vec::new(alloc),
        fresh: IndexMap::new(alloc),
        spare: String::new(alloc),
    };
    let mut runs = Runs::of(text);
    while let Some(run) = runs.next() {
        weigh_run(alloc, vocabulary, places, guesses, &mut tally, run)?;
    }
    Ok(tally)
}

impl Vocabulary {
    /// The distinct words of a text with their counts, those with a number apart from those
    /// without. The text is read once. A run of ASCII whose number was guessed costs its length;
    /// another run a look-up, or two where its word has no number, and, where it isn't ASCII, its
    /// normal forms. A run of ASCII takes no memory where its word has a number or was counted
    /// before.
    pub fn weigh(
        &self,
        alloc: Global,
        places: &mut Places,
        text: &str,
    ) -> Result<Weighed, AllocError>
        requires { length text.now < 2 ^ 32 }
        ensures known { IfOk result (λ w. w.known.items ≡ known_of self.now.words (counted (keys text.now))) }
        ensures fresh { IfOk result (λ w. w.fresh.items ≡ fresh_of self.now.words (counted (keys text.now))) }
    {
        let words = self.len() as usize;
        if places.by_number.len() < words {
            places.by_number.resize(words, 0)?;
        }
        places.guesses.reserve()?;
        let tally = tally_of(
            alloc,
            self,
            &mut places.by_number,
            &mut places.guesses,
            text,
        )?;
        let fresh = tally.fresh.into_iter().collect(alloc)?;
        Ok(Weighed {
            known: tally.known,
            fresh,
        })
    }
}
