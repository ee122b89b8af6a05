//! All tails at once from a history's turns.
ghost use Rattle.std.specs.Prelude.{◌≡◌, ℕ, ◌<◌, ◌≤◌, filter, length, slice_index_or, take, All, IfOk, OnOk};
ghost use Rattle.std.specs.List.Sorted.{IsNonDecreasingBy, IsPermutation};
ghost use Rattle.lists_tails.specs.declared.document.Turn.{Turn};
ghost use Rattle.lists_tails.specs.Turns.{AreTails};
ghost use Rattle.lists_tails.specs.Tails.{tail_of};
ghost use Rattle.lists_tails.specs.Weights.{AreWeights, weight_of};
ghost use Rattle.lists_tails.specs.Acts.{frequency_after, open_after, AreInOrder};
ghost use Rattle.lists_tails.specs.Gathered.{acts_of, is_of};

use crate::document::Turn;
use crate::tails::Tails;
use crate::weight::Weight;
use std::alloc::{AllocError, Global};

impl Tails {
    /// The tails after all turns of a history, which are given in the order of time. The turns are
    /// sorted by document, once; then each one goes to the end of its tails, without a move. For n
    /// weights in all the cost is n log n. The turns stay with the caller, after Ok sorted by
    /// document.
    pub fn gather(alloc: Global, turns: &mut Vec<Turn>) -> Result<Tails, AllocError>
        requires in_order { AreInOrder (acts_of turns.old.items) }
        requires ascending { All (λ x. AreWeights x.weights.items) turns.old.items }
        ensures tails { IfOk result (λ tails. AreTails (frequency_after (acts_of turns.old.items)) (tail_of tails)) }
        ensures short { IfOk result (λ tails. (w : ℕ) → length (tail_of tails w) ≤ length turns.old.items) }
        ensures permutation { IsPermutation turns.old.items turns.new.items }
        ensures sorted { OnOk result (IsNonDecreasingBy (λ x. x.doc.0) turns.new.items) }
        ensures open { (w d : ℕ) → open_after (acts_of turns.new.items) w d ≡ open_after (acts_of turns.old.items) w d }
    {
        sort_by_doc(turns)?;
        let mut tails = Tails::new(alloc);
        for i in 0..turns.len() {
            let turn = &turns[i];
            let old = open_before(turns, i);
            tails.reserve_turn(&turn.weights)?;
            tails.turn(turn.doc, turn.at, old, &turn.weights);
        }
        Ok(tails)
    }
}

/// Sorts the turns by document, and keeps the order of each document's.
fn sort_by_doc(turns: &mut Vec<Turn>) -> Result<(), AllocError>
    ensures permutation { IsPermutation turns.old.items turns.new.items }
    ensures sorted { OnOk result (IsNonDecreasingBy (λ x. x.doc.0) turns.new.items) }
    ensures stable { (d : ℕ) → filter (is_of d) turns.new.items ≡ filter (is_of d) turns.old.items }
    ensures open { (w d : ℕ) → open_after (acts_of turns.new.items) w d ≡ open_after (acts_of turns.old.items) w d }
{
    turns.sort_by_key(|x| x.doc.0)?;
    Ok(())
}

/// The weights that the document of a turn has open before it, where the turns are sorted by
/// document.
fn open_before(turns: &[Turn], i: usize) -> &[Weight]
    requires inside { i < length turns.now }
    ensures ascending { All (λ x. AreWeights x.weights.items) turns.now → AreWeights result.now }
    ensures open { (d : Turn) → IsNonDecreasingBy (λ x. x.doc.0) turns.now → (w : ℕ)
        → weight_of w result.now ≡ open_after (acts_of (take i turns.now)) w (slice_index_or turns.now i d).doc.0 }
{
    if i == 0 {
        return &[];
    }
    let last = &turns[i - 1];
    if last.doc == turns[i].doc {
        return last.weights.as_slice();
    }
    &[]
}
