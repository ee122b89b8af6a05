//! Two lists of weights, gone over word by word.
ghost use Rattle.std.specs.Prelude.{◌≡◌, ◌+◌, ◌<◌, [], length, IsNone, IfSome};
ghost use Rattle.lists_tails.specs.Weights.{AreWeights};
ghost use Rattle.lists_tails.specs.Passing.{first_of, behind, AreFrom};

use crate::weight::Weight;
use base_types::WordId;

/// The first word of two lists of weights; None where both are empty.
pub(crate) fn first_word(one: &[Weight], other: &[Weight]) -> Option<WordId>
    requires one { AreWeights one.now }
    requires other { AreWeights other.now }
    ensures none { IsNone result → (one.now ≡ []) × (other.now ≡ []) }
    ensures one { IfSome result (λ w. AreFrom w.number one.now) }
    ensures other { IfSome result (λ w. AreFrom w.number other.now) }
    ensures there { IfSome result
        (λ w. length (behind w.number one.now) + length (behind w.number other.now) < length one.now + length other.now) }
{
    match (one.first(), other.first()) {
        (Some(x), Some(y)) => Some(x.word.min(y.word)),
        (Some(x), None) => Some(x.word),
        (None, Some(y)) => Some(y.word),
        (None, None) => None,
    }
}

/// The word's weight, where the list begins with it and otherwise 0, and the rest of the list.
pub(crate) fn split_word(weights: &[Weight], word: WordId) -> (u32, &[Weight])
    ensures weight { result.0 ≡ first_of word.number weights.now }
    ensures rest { result.1.now ≡ behind word.number weights.now }
{
    match weights.split_first() {
        Some((x, rest)) if x.word == word => (x.tf, rest),
        _ => (0, weights),
    }
}
