//! Runs of a text, and their keys.
ghost use Rattle.std.specs.Prelude.{◌≡◌, [], ◌∷◌, chars, string_bytes, IsAscii, IfOk, IfSome, IfNone};
ghost use Rattle.text_words.specs.Terms.{is_term, runs, key, term_of, one_term};

use crate::cuts::next_run;
use base_types::Key;
use caseless::default_case_fold_str;
use std::alloc::{AllocError, Global};
use std::marker::Model;
use std::mem;
use unicode::properties::{GeneralCategory, GeneralCategoryGroup};
use unicode_normalization::to_nfd;

/// Whether the character is a letter, a mark or a number, and so part of a run. Constant cost.
pub(crate) fn is_term_char(c: char) -> bool
    ensures { result ≡ is_term c }
{
    if c.is_ascii() {
        return c.is_ascii_alphanumeric();
    }
    let category = GeneralCategory::for_char(c);
    GeneralCategoryGroup::Letter.contains(category)
        || GeneralCategoryGroup::Mark.contains(category)
        || GeneralCategoryGroup::Number.contains(category)
}

/// The key of a run as a text: `NFD(toCasefold(NFD(run)))`.
fn folded(alloc: Global, run: &str) -> Result<String, AllocError>
    ensures { IfOk result (λ s. string_bytes s ≡ key (chars run.now)) }
{
    let decomposed = to_nfd(alloc, run)?;
    let folded = default_case_fold_str(alloc, decomposed.as_str())?;
    to_nfd(alloc, folded.as_str())
}

/// The key of a run of any script, if it is a term.
fn folded_key(alloc: Global, run: &str) -> Result<Option<Key>, AllocError>
    ensures { IfOk result (λ k. k ≡ term_of (chars run.now)) }
{
    let key = folded(alloc, run)?;
    Key::new(alloc, key.as_str())
}

/// The key of a run of ASCII as a text, which is its lower case: no normal form is made. It is made
/// in the spare text's memory.
fn lowered(alloc: Global, spare: &mut String, run: &str) -> Result<String, AllocError>
    requires { IsAscii run.now }
    ensures { IfOk result (λ s. string_bytes s ≡ key (chars run.now)) }
{
    spare.clear();
    spare.push_str(run)?;
    spare.make_ascii_lowercase();
    Ok(mem::replace(spare, String::new(alloc)))
}

/// The key of a run of ASCII, if it is a term. Where it is none the spare text has its memory back.
fn lowered_key(alloc: Global, spare: &mut String, run: &str) -> Result<Option<Key>, AllocError>
    requires { IsAscii run.now }
    ensures { IfOk result (λ k. k ≡ term_of (chars run.now)) }
{
    match Key::from_text(lowered(alloc, spare, run)?) {
        Ok(key) => Ok(Some(key)),
        Err(text) => {
            *spare = text;
            Ok(None)
        }
    }
}

/// The key of a run, if it is a term. Where the run is of ASCII the key is made in the spare text's
/// memory, which is best given back when the key is done with.
pub(crate) fn key_of(
    alloc: Global,
    spare: &mut String,
    run: &str,
) -> Result<Option<Key>, AllocError>
    ensures { IfOk result (λ k. k ≡ term_of (chars run.now)) }
{
    if run.is_ascii() {
        lowered_key(alloc, spare, run)
    } else {
        folded_key(alloc, run)
    }
}

/// The runs of a text, one after another, as slices of it.
///
/// Contracts see the runs that are left.
#[derive(Drop)]
pub(crate) struct Runs<'a> {
    rest: &'a str,
}

impl<'a> Model for Runs<'a> {
    ghost use Rattle.std.specs.Prelude.{ℕ, List, chars};
    ghost use Rattle.text_words.specs.Terms.{runs};

    ghost Value = { List (List ℕ) };

    ghost view = { λ r. runs (chars r.rest.now) };
}

impl<'a> Runs<'a> {
    /// All runs of the text. Constant cost.
    pub(crate) fn of(text: &'a str) -> Runs<'a>
        ensures { result ≡ runs (chars text.now) }
    {
        Runs { rest: text }
    }

    /// The next run; None where none is left. Each byte is read once, or twice where a run has
    /// characters beyond ASCII; nothing is copied.
    pub(crate) fn next(&mut self) -> Option<&'a str>
        ensures some { IfSome result (λ run. self.old ≡ chars run.now ∷ self.new) }
        ensures none { IfNone result (self.old ≡ []) }
    {
        let (run, rest) = next_run(self.rest)?;
        self.rest = rest;
        Some(run)
    }
}

/// The key of the text's only run: None where the text has no run or more than one, and where the
/// key has no byte or more than 255. Its cost grows with the length of the text.
pub fn one_term(alloc: Global, text: &str) -> Result<Option<Key>, AllocError>
    ensures { IfOk result (λ term. term ≡ one_term text.now) }
{
    let mut runs = Runs::of(text);
    let Some(run) = runs.next() else {
        return Ok(None);
    };
    if runs.next().is_some() {
        return Ok(None);
    }
    key_of(alloc, &mut String::new(alloc), run)
}
