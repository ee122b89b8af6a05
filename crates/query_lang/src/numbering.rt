//! The distinct words of operators, and their places among these.
ghost use Rattle.std.specs.Prelude.{◌≡◌, [], ◌∷◌, ◌<◌, length, All, get_or, IfOk, OnOk};
ghost use Rattle.text_words.specs.Words.{entered, with_all, distinct};
ghost use Rattle.query_lang.specs.Meaning.{keys_of};
ghost use Rattle.query_lang.specs.Numbered.{IsPlaced, named_by, named};
ghost use Rattle.query_lang.specs.Postfix.{pushed};

use crate::op::{Op, Spot};
use crate::term::Term;
use base_types::Key;
use indexmap::IndexSet;
use std::alloc::{AllocError, Global};

/// The place of a word among words, behind which it is put where it is none of them.
fn place_of(words: &mut IndexSet<Key>, key: &Key) -> Result<usize, AllocError>
    ensures words { OnOk result (words.new.keys ≡ entered words.old.keys key.now) }
    ensures inside { IfOk result (λ n. n < length words.new.keys) }
    ensures place { IfOk result (λ n. get_or words.new.keys n [] ≡ key.now) }
{
    let (place, _) = words.insert_full(key.clone()?)?;
    Ok(place)
}

/// Enters the words of an operator, and names its word by its place.
fn number(op: &Op<Term>, words: &mut IndexSet<Key>) -> Result<Op<Spot>, AllocError>
    ensures words { OnOk result (words.new.keys ≡ with_all words.old.keys (keys_of (pushed (op.now ∷ [])))) }
    ensures op { IfOk result (λ o. named_by words.new.keys o ≡ op.now) }
    ensures placed { IfOk result (λ o. IsPlaced (length words.new.keys) o) }
{
    match op {
        Op::Push(term, even) => {
            let place = place_of(words, &term.key)?;
            let weight = term.weight;
            Ok(Op::Push(Spot { place, weight }, *even))
        }
        Op::Negate => Ok(Op::Negate),
        Op::Conjoin => Ok(Op::Conjoin),
        Op::Disjoin => Ok(Op::Disjoin),
    }
}

/// Operators with the places of their words.
#[derive(Drop)]
pub(crate) struct Numbering {
    /// The distinct words in the order of first occurrence.
    pub(crate) words: IndexSet<Key>,
    /// The operators.
    pub(crate) ops: Vec<Op<Spot>>,
}

/// The operators with the places of their words. Costs a look-up for each.
pub(crate) fn numbered(alloc: Global, laid: &[Op<Term>]) -> Result<Numbering, AllocError>
    ensures words { IfOk result (λ n. n.words.keys ≡ distinct (keys_of (pushed laid.now))) }
    ensures ops { IfOk result (λ n. named n.words.keys n.ops.items ≡ laid.now) }
    ensures placed { IfOk result (λ n. All (IsPlaced (length n.words.keys)) n.ops.items) }
{
    let mut words = IndexSet::new(alloc);
    let mut ops = Vec::new(alloc);
    for op in laid {
        ops.push(number(op, &mut words)?)?;
    }
    Ok(Numbering { words, ops })
}
