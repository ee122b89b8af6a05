//! Queries.
ghost use Rattle.std.specs.Prelude.{◌≡◌, ◌≤◌, ℕ, ◌<◌, List, [], true, length, map, All, Ok, Err, IfOk, IsErrOf, ◌∷◌, ◌&&◌, not};
ghost use Rattle.std.specs.List.{slice_index_or};
ghost use Rattle.query_lang.specs.Chains.{asks_for_any, in_turn, is_or_chain};
ghost use Rattle.query_lang.specs.Grammar.{IsRead};
ghost use Rattle.query_lang.specs.Meaning.{matches, words_of, weight, score};
ghost use Rattle.query_lang.specs.Postfix.{postfix, pushed, tree};
ghost use Rattle.query_lang.specs.Tokens.{plain, term_of};
ghost use Rattle.query_lang.specs.declared.token.Token.{Token as PlainToken};
ghost use Rattle.query_lang.specs.Evaluation.{truths_of, top_truth};
ghost use Rattle.query_lang.specs.Numbered.{IsPlaced};

use crate::error::QueryError;
use crate::evaluation::{evaluated, scored, weights_of};
use crate::numbering::{Numbering, numbered};
use crate::op::{Op, Spot};
use crate::pile::Pile;
use crate::reader::laid_of;
use crate::term::Term;
use crate::token::{Placed, Token, tokens_of};
use base_types::Key;
use indexmap::IndexSet;
use std::alloc::{AllocError, Global};
use std::marker::Model;

/// The most bytes of a query's text.
pub const MOST_QUERY_BYTES: usize = 4096;

/// What to look for. Contracts see the tree.
///
/// It is kept in postfix form, each operator behind what it joins, so that reading and evaluating
/// need no recursion: a chain of 2,000 words is a list of 4,000 operators.
#[derive(Drop)]
pub struct Query {
    words: IndexSet<Key>,
    weights: Vec<u32>,
    ops: Vec<Op<Spot>>,
    bare: bool,
}

impl Model for Query {
    ghost use Rattle.query_lang.specs.Grammar.{Query as Meaning};
    ghost use Rattle.query_lang.specs.Codes.{query_code};
    ghost use Rattle.query_lang.specs.Numbered.{named, AreQuery};
    ghost use Rattle.query_lang.specs.Postfix.{tree};

    ghost Value = { Meaning };

    ghost coded = { query_code };

    ghost view = { λ q. tree (named q.words.keys q.ops.items) };

    ghost invariant = { λ q. AreQuery q.words.keys q.weights.items q.ops.items q.bare };
}

impl Query {
    /// The query that a text spells. Its tokens are the parentheses and the longest stretches of
    /// bytes without spaces and parentheses; `and`, `or` and `not` in these letters are operators,
    /// and another token is a word where `one_term` gives its key,
    /// or where it is a word, `^`, and a weight from 1 to 1,000. `BadQuery` names the token behind
    /// the longest front that begins some query. Its cost grows with the length of the text.
    pub fn read(alloc: Global, text: &str) -> Result<Query, QueryError>
        requires { length text.now ≤ 4096 }
        ensures query { IfOk result (λ q. IsRead term_of text.now (Ok q)) }
        ensures bad { (at : ℕ) → IsErrOf result (QueryError.BadQuery at)
            → IsRead term_of text.now (Err at) }
    {
        let tokens = tokens_of(alloc, text.as_bytes())?;
        match laid_of(alloc, &tokens, text.len()) {
            Ok(laid) => Ok(query_of(alloc, &laid)?),
            Err(e) => Err(e),
        }
    }

    /// The distinct words in the order of first occurrence. Constant cost.
    pub fn words(&self) -> &[Key]
        ensures words { result.now ≡ words_of self.now }
        ensures few { length result.now ≤ 4096 }
    {
        self.words.as_slice()
    }

    /// How much the word at a place weighs: the greatest weight that it has under an even number of
    /// `not`; 0 where it stands under none. Constant cost.
    pub fn weight(&self, index: usize) -> u32
        requires { index < length (words_of self.now) }
        ensures { result ≡ weight self.now (slice_index_or (words_of self.now) index []) }
    {
        self.weights[index]
    }

    /// Whether a text that has none of the words matches. Where it doesn't, only documents with one
    /// of the words can match. Constant cost.
    pub fn matches_without_words(&self) -> bool
        ensures { result ≡ matches self.now (λ _. 0) }
    {
        self.bare
    }

    /// Whether a text matches in which each word is as frequent as `counts` says at its place. Costs
    /// the query's length; `truths` is room that can be used again.
    pub fn matches(&self, counts: &[u32], truths: &mut Pile<bool>) -> Result<bool, AllocError>
        requires { length counts.now ≡ length (words_of self.now) }
        ensures { IfOk result (λ b. (often : List ℕ → ℕ) → counts.now ≡ map often (words_of self.now)
            → b ≡ matches self.now often) }
    {
        evaluated(&self.ops, counts, truths)
    }

    /// The score of a text in which each word is as frequent as `counts` says at its place. Costs
    /// the number of words.
    pub fn score(&self, counts: &[u32]) -> u64
        requires { length counts.now ≡ length (words_of self.now) }
        ensures { (often : List ℕ → ℕ) → counts.now ≡ map often (words_of self.now)
            → result ≡ score self.now often }
    {
        scored(&self.weights, counts)
    }
}

/// Whether a text matches in which each of so many words occurs 0 times.
fn bare_of(alloc: Global, ops: &[Op<Spot>], words: usize) -> Result<bool, AllocError>
    requires { All (IsPlaced words) ops.now }
    ensures { IfOk result (λ b. b ≡ top_truth (truths_of (λ _. 0) ops.now [])) }
{
    let counts = vec![in alloc; 0; words]?;
    evaluated(ops, &counts, &mut Pile::new(alloc))
}

/// The query of operators in postfix form.
fn query_of(alloc: Global, laid: &[Op<Term>]) -> Result<Query, AllocError>
    requires spelled { laid.now ≡ postfix true (tree laid.now) }
    requires few { length (pushed laid.now) ≤ 4096 }
    requires light { All (λ t. t.weight ≤ 1000) (pushed laid.now) }
    ensures { IfOk result (λ q. q ≡ tree laid.now) }
{
    let Numbering { words, ops } = numbered(alloc, laid)?;
    let weights = weights_of(alloc, &ops, words.len())?;
    let bare = bare_of(alloc, &ops, words.len())?;
    Ok(Query {
        words,
        weights,
        ops,
        bare,
    })
}

/// Whether a text is one word, or several with one `or` between each and the next: it asks for any of
/// them, without parentheses. Costs the length of the text.
pub fn asks_for_any(alloc: Global, text: &str) -> Result<bool, AllocError>
    ensures { IfOk result (λ b. b ≡ asks_for_any text.now) }
{
    let tokens = tokens_of(alloc, text.as_bytes())?;
    Ok(is_or_chain(&tokens))
}

/// Whether tokens are one word, or several with one `or` between each and the next.
fn is_or_chain(tokens: &[Placed]) -> bool
    ensures { result ≡ is_or_chain (plain tokens.now) }
{
    let mut word_is_next = true;
    for placed in tokens {
        if !may_stand(&placed.token, word_is_next) {
            return false;
        }
        word_is_next = !word_is_next;
    }
    !word_is_next
}

/// Whether a token is the one that is next: a word, or else an `or`.
fn may_stand(token: &Token, word_is_next: bool) -> bool
    ensures { (rest : List PlainToken) → in_turn word_is_next (token.now ∷ rest) ≡ result && in_turn (not word_is_next) rest }
{
    match token {
        Token::Word(_) => word_is_next,
        Token::Or => !word_is_next,
        _ => false,
    }
}
