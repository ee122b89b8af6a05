//! A budget that words share.
ghost use Rattle.std.specs.Prelude.{◌≡◌, ◌≤◌, ◌*◌, ◌↔◌, IsSome, IfSome, length};

use crate::phrase::Phrase;
use base_types::Fraction;
use std::marker::Model;

/// The most words that share a budget.
pub const MOST_SHARE_WORDS: usize = 16;

/// How many times their lists the sublists of words may take together: at least once, and at most 16
/// times.
#[derive(Clone, Copy, Debug, PartialEq, Eq, Hash)]
pub struct ShareFraction {
    /// The factor as it was written.
    pub fraction: Fraction,
    pub ghost bounded: { fraction.over ≤ 16 * fraction.under },
}

impl ShareFraction {
    /// The factor, where it is at most 16; else None. Constant cost.
    pub fn new(fraction: Fraction) -> Option<ShareFraction>
        ensures valid { IsSome result ↔ (fraction.over ≤ 16 * fraction.under) }
        ensures value { IfSome result (λ s. s.fraction ≡ fraction) }
    {
        if u64::from(fraction.over) <= 16 * u64::from(fraction.under) {
            Some(ShareFraction { fraction })
        } else {
            None
        }
    }

    /// The factor. Constant cost.
    pub fn fraction(self) -> Fraction
        ensures value { result ≡ self.fraction }
        ensures bounded { result.over ≤ 16 * result.under }
    {
        self.fraction
    }
}

/// The words that share a budget, as they were written, from 1 to `MOST_SHARE_WORDS`. Contracts see
/// the list of them.
#[derive(Debug, Drop)]
pub struct ShareWords {
    words: Vec<Phrase>,
}

impl Model for ShareWords {
    ghost use Rattle.std.specs.Prelude.{ℕ, List, ◌≤◌, length};

    ghost Value = { List (List ℕ) };

    ghost view = { λ w. w.words.items };

    ghost invariant = { λ w. (1 ≤ length w.words.items) × (length w.words.items ≤ 16) };
}

impl ShareWords {
    /// The words of a `Vec`, of which nothing is copied. Constant cost.
    pub fn new(words: Vec<Phrase>) -> ShareWords
        requires some { 1 ≤ length words.items }
        requires few { length words.items ≤ 16 }
        ensures { result ≡ words.items }
    {
        ShareWords { words }
    }

    /// The words. Constant cost.
    pub fn as_slice(&self) -> &[Phrase]
        ensures value { result.now ≡ self.now }
        ensures some { 1 ≤ length result.now }
        ensures few { length result.now ≤ 16 }
    {
        self.words.as_slice()
    }
}
