//! A plan of a word's list that is stored.
ghost use Rattle.std.specs.Prelude.{◌≡◌};

use crate::place::{Layout, Place};
use base_commands::Kind;
use base_types::{Fraction, Key, Time};
use std::marker::Model;

/// The elements of a `Vec`, which contracts see as the list of them alone, whatever room the `Vec` has.
#[derive(Debug, Drop)]
pub struct Listed<T> {
    items: Vec<T>,
}

impl<T> Model for Listed<T> {
    ghost use Rattle.std.specs.Prelude.{List};

    ghost Value = { List T };

    ghost view = { λ l. l.items.items };
}

impl<T> Listed<T> {
    /// The elements of a `Vec`. Constant cost.
    pub fn new(items: Vec<T>) -> Listed<T>
        ensures { result ≡ items.items }
    {
        Listed { items }
    }

    /// The elements. Constant cost.
    pub fn as_slice(&self) -> &[T]
        ensures { result.now ≡ self.now }
    {
        self.items.as_slice()
    }
}

/// A plan of a word's list that is stored: the time line up to a horizon in segments, and where the
/// sublist of each lies.
#[derive(Debug, Drop)]
pub struct PlanEntry {
    /// The word.
    pub word: Key,
    /// How its sublists are spelled.
    pub layout: Layout,
    /// What the plan keeps to.
    pub kind: Kind,
    /// The factor of its bound.
    pub fraction: Fraction,
    /// The end of the last segment.
    pub horizon: Time,
    /// Where the segments begin, from 1 to `MOST_SEGMENTS` of them.
    pub cuts: Listed<Time>,
    /// Where their sublists lie, in the order of the cuts.
    pub places: Listed<Place>,
}
