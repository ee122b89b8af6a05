//! The counts of a list at its boundaries.
ghost use Rattle.std.specs.Prelude.{◌≡◌, ℕ, ◌+◌, ◌-◌, ◌<◌, ◌≤◌, ◌^◌, List, length, slice_index, All, IfOk};
ghost use Rattle.std.specs.List.Sorted.{IsStrictlyIncreasing};
ghost use Rattle.base_types.specs.declared.posting.Posting.{Posting};
ghost use Rattle.lists_postings.specs.Sizes.{size, alive_count};
ghost use Rattle.plans_partitions.specs.Counts.{Tabulates, AreOrdered, size_between, alive_in};

use crate::sorting::{begun_at, boundaries_of, ended_at, starts_of, stops_of};
use base_types::{Posting, Time};
use std::alloc::{AllocError, Global};
use std::marker::Model;

/// A list counted at its boundaries, so that the size of each sublist between two of them is a
/// difference. It doesn't keep the list. Call the number of its elementary intervals `n`; it has
/// `n + 1` boundaries.
#[derive(Debug, Drop)]
pub struct Table {
    boundaries: Vec<u64>,
    begun: Vec<u64>,
    ended: Vec<u64>,
}

impl Model for Table {
    ghost use Rattle.plans_partitions.specs.Counts.{Counts, AreOrdered};

    ghost Value = { Counts };

    ghost view = { λ t. record { boundaries = t.boundaries.items; begun = t.begun.items; ended = t.ended.items } };

    ghost invariant = { λ t. AreOrdered t.boundaries.items t.begun.items t.ended.items };
}

impl Table {
    /// The table of a list that isn't empty, in which each span ends at or before the horizon. Costs
    /// time in `n log n` for `n` postings, and memory in them.
    pub fn new(alloc: Global, list: &[Posting], horizon: Time) -> Result<Table, AllocError>
        requires some { 0 < length list.now }
        requires few { length list.now < 2 ^ 38 }
        requires early { All (λ p. p.span.to ≤ horizon.seconds) list.now }
        ensures { IfOk result (Tabulates list.now horizon.seconds) }
    {
        let starts = starts_of(alloc, list)?;
        let stops = stops_of(alloc, list)?;
        let boundaries = boundaries_of(alloc, &starts, &stops, horizon.seconds())?;
        let begun = begun_at(alloc, starts, &boundaries)?;
        let ended = ended_at(alloc, stops, &boundaries)?;
        Ok(Table {
            boundaries,
            begun,
            ended,
        })
    }

    /// The boundaries in seconds, ascending: the distinct ends of spans and the horizon. Constant cost.
    pub fn boundaries(&self) -> &[u64]
        ensures value { result.now ≡ self.now.boundaries }
        ensures many { 2 ≤ length result.now }
        ensures ascending { IsStrictlyIncreasing result.now }
        ensures in_time { All (λ x. x < 2 ^ 40) result.now }
        ensures ordered { AreOrdered self.now.boundaries self.now.begun self.now.ended }
    {
        &self.boundaries
    }

    /// How many postings the list has. Constant cost.
    pub fn postings(&self) -> u64
        ensures value { result ≡ size_between self.now 0 (length self.now.boundaries - 1) }
        ensures bound { result < 2 ^ 38 }
        ensures count { (list : List Posting) (horizon : ℕ) → Tabulates list horizon self.now → result ≡ length list }
    {
        self.begun[self.begun.len() - 1]
    }

    /// How many postings are alive in elementary interval `k`. Constant cost.
    pub fn alive(&self, k: usize) -> u64
        requires inside { k + 1 < length self.now.boundaries }
        ensures value { result ≡ alive_in self.now k }
        ensures bound { result < 2 ^ 38 }
        ensures count { (list : List Posting) (horizon t : ℕ) → Tabulates list horizon self.now → slice_index self.now.boundaries k ≤ t
            → t < slice_index self.now.boundaries (k + 1) → result ≡ alive_count t list }
    {
        self.postings_in(k, k)
    }

    /// How many postings have a time between boundaries `j` and `k`. Constant cost.
    pub fn size(&self, j: usize, k: usize) -> u64
        requires order { j < k }
        requires inside { k < length self.now.boundaries }
        ensures value { result ≡ size_between self.now j k }
        ensures bound { result < 2 ^ 38 }
        ensures count { (list : List Posting) (horizon : ℕ) → Tabulates list horizon self.now
            → result ≡ size (slice_index self.now.boundaries j) (slice_index self.now.boundaries k) list }
    {
        self.postings_in(j, k - 1)
    }

    /// How many postings have a time in the elementary intervals from `first` to `last`, both counted.
    fn postings_in(&self, first: usize, last: usize) -> u64
        requires order { first ≤ last }
        requires inside { last + 1 < length self.now.boundaries }
        ensures value { result ≡ size_between self.now first (last + 1) }
        ensures bound { result < 2 ^ 38 }
    {
        self.begun[last + 1] - self.ended[first]
    }
}
