//! Partitions of a time line into segments.
ghost use Rattle.std.specs.Prelude.{◌≡◌, ℕ, ◌+◌, ◌-◌, ◌*◌, ◌<◌, ◌≤◌, ◌^◌, ◌↔◌, List, drop, length, slice_index, All, Contains, IsTrue, IsSome, IfSome, IfOk};
ghost use Rattle.std.specs.List.Sorted.{IsStrictlyIncreasing};
ghost use Rattle.base_types.specs.declared.posting.Posting.{Posting};
ghost use Rattle.plans_partitions.specs.Counts.{Tabulates, AdmissibleBetween};
ghost use Rattle.lists_postings.specs.Sizes.{size};
ghost use Rattle.plans_partitions.specs.Partitions.{IsPartition, IsFitting, Covers, space, sizes};

use crate::sorting::{first_from, is_at};
use crate::table::Table;
use base_types::Fraction;
use std::alloc::{AllocError, Global};
use std::marker::Model;

/// A partition of a time line: its cuts in seconds, ascending. Neighbours are the ends of a segment;
/// the first cut begins the first segment, and the last is the horizon. Contracts see the list of its
/// cuts.
#[derive(Debug, Drop)]
pub struct Partition {
    cuts: Vec<u64>,
}

impl Model for Partition {
    ghost use Rattle.std.specs.Prelude.{ℕ, List};
    ghost use Rattle.plans_partitions.specs.Partitions.{IsPartition};

    ghost Value = { List ℕ };

    ghost view = { λ p. p.cuts.items };

    ghost invariant = { λ p. IsPartition p.cuts.items };
}

impl Partition {
    /// The partition with these cuts in seconds; None where they are fewer than two or don't ascend.
    /// Costs time in the cuts.
    pub fn new(cuts: Vec<u64>) -> Option<Partition>
        ensures valid { IsSome result ↔ IsPartition cuts.items }
        ensures value { IfSome result (λ p. p ≡ cuts.items) }
    {
        if cuts.len() >= 2 && ascends(&cuts) {
            Some(Partition { cuts })
        } else {
            None
        }
    }

    /// The cuts in seconds, in order, the horizon last. Constant cost.
    pub fn cuts(&self) -> &[u64]
        ensures value { result.now ≡ self.now }
        ensures many { 2 ≤ length result.now }
        ensures ascending { IsStrictlyIncreasing result.now }
    {
        &self.cuts
    }

    /// How many segments there are, at least 1. Constant cost.
    pub fn segments(&self) -> usize
        ensures value { result ≡ length self.now - 1 }
        ensures some { 1 ≤ result }
    {
        self.cuts.len() - 1
    }

    /// Whether the cuts are boundaries of the table, from its first to its last. Costs time in the
    /// boundaries.
    pub fn fits(&self, table: &Table) -> bool
        ensures { IsTrue result ↔ IsFitting table.now.boundaries self.now }
    {
        fits_in(table.boundaries(), self.cuts())
    }

    /// Whether the partition, which fits the table, keeps the factor: at each time the postings of the
    /// segment that holds it are at most the factor times those that are alive. Costs time in the
    /// boundaries.
    pub fn admissible(&self, table: &Table, factor: Fraction) -> bool
        requires fits { IsFitting table.now.boundaries self.now }
        ensures { (list : List Posting) (horizon : ℕ) → Tabulates list horizon table.now
            → (IsTrue result ↔ Covers list factor (slice_index self.now 0) (drop 1 self.now) horizon) }
    {
        are_admissible(table, factor, self.cuts())
    }

    /// The space of the partition, which fits the table, in postings. Costs time in the boundaries.
    pub fn whole_space(&self, table: &Table) -> u128
        requires fits { IsFitting table.now.boundaries self.now }
        ensures value { (list : List Posting) (horizon : ℕ) → Tabulates list horizon table.now
            → result ≡ space list (slice_index self.now 0) (drop 1 self.now) }
        ensures bound { result ≤ (length self.now - 1) * 2 ^ 38 }
    {
        space_between(table, self.cuts())
    }

    /// The space of the partition, which fits the table and has at most 2^24 segments, in postings.
    /// Costs time in the boundaries.
    pub fn space(&self, table: &Table) -> u64
        requires fits { IsFitting table.now.boundaries self.now }
        requires few { length self.now ≤ 2 ^ 24 + 1 }
        ensures value { (list : List Posting) (horizon : ℕ) → Tabulates list horizon table.now
            → result ≡ space list (slice_index self.now 0) (drop 1 self.now) }
        ensures bound { result ≤ 2 ^ 62 }
    {
        self.whole_space(table) as u64
    }

    /// The sizes of the segments of the partition, which fits the table, in order, in postings. Costs
    /// time in the boundaries.
    pub fn sizes(&self, alloc: Global, table: &Table) -> Result<Vec<u64>, AllocError>
        requires fits { IsFitting table.now.boundaries self.now }
        ensures many { IfOk result (λ v. length self.now ≡ length v.items + 1) }
        ensures value { IfOk result (λ v. (list : List Posting) (horizon : ℕ) → Tabulates list horizon table.now
            → v.items ≡ sizes list (slice_index self.now 0) (drop 1 self.now)) }
    {
        sizes_between(alloc, table, self.cuts())
    }
}

/// Whether each number is below the next.
fn ascends(numbers: &[u64]) -> bool
    ensures { IsTrue result ↔ IsStrictlyIncreasing numbers.now }
{
    for k in 1..numbers.len() {
        if numbers[k] <= numbers[k - 1] {
            return false;
        }
    }
    true
}

/// Whether all cuts are among the times, of which the first is the first cut. Costs time in both.
fn are_among(times: &[u64], cuts: &[u64]) -> bool
    requires times { IsStrictlyIncreasing times.now }
    requires cuts { IsStrictlyIncreasing cuts.now }
    requires some { 0 < length times.now }
    requires many { 0 < length cuts.now }
    requires first { slice_index cuts.now 0 ≡ slice_index times.now 0 }
    ensures { IsTrue result ↔ All (Contains times.now) cuts.now }
{
    let mut at = 0;
    for k in 0..cuts.len() - 1 {
        at = first_from(times, at, cuts[k + 1]);
        if !is_at(times, at, cuts[k + 1]) {
            return false;
        }
    }
    true
}

/// Whether the cuts are among the times, from the first of these to the last.
fn fits_in(times: &[u64], cuts: &[u64]) -> bool
    requires ascending { IsStrictlyIncreasing times.now }
    requires rising { IsStrictlyIncreasing cuts.now }
    requires times { 0 < length times.now }
    requires cuts { 0 < length cuts.now }
    ensures { IsTrue result ↔ IsFitting times.now cuts.now }
{
    if cuts[0] != times[0] {
        return false;
    }
    if cuts[cuts.len() - 1] != times[times.len() - 1] {
        return false;
    }
    are_among(times, cuts)
}

/// Whether a size is within the factor of a number of postings alive.
pub(crate) fn is_within(size: u64, factor: Fraction, alive: u64) -> bool
    requires size { size < 2 ^ 38 }
    requires alive { alive < 2 ^ 38 }
    ensures { IsTrue result ↔ (size * factor.under ≤ factor.over * alive) }
{
    u128::from(size) * u128::from(factor.under) <= u128::from(factor.over) * u128::from(alive)
}

/// Whether the segment between boundaries `j` and `k` is admissible.
fn is_admissible_between(table: &Table, factor: Fraction, j: usize, k: usize) -> bool
    requires order { j < k }
    requires inside { k < length table.now.boundaries }
    ensures { IsTrue result ↔ AdmissibleBetween table.now factor j k }
{
    let size = table.size(j, k);
    for i in j..k {
        if !is_within(size, factor, table.alive(i)) {
            return false;
        }
    }
    true
}

/// The place among the boundaries of the cut after cut `k`, which stands at place `at`. Costs time in the
/// boundaries between.
fn next_place(table: &Table, cuts: &[u64], k: usize, at: usize) -> usize
    requires ascending { IsStrictlyIncreasing cuts.now }
    requires among { All (Contains table.now.boundaries) cuts.now }
    requires more { k + 1 < length cuts.now }
    requires inside { at < length table.now.boundaries }
    requires here { slice_index table.now.boundaries at ≡ slice_index cuts.now k }
    ensures after { at < result }
    ensures inside { result < length table.now.boundaries }
    ensures there { slice_index table.now.boundaries result ≡ slice_index cuts.now (k + 1) }
{
    first_from(table.boundaries(), at, cuts[k + 1])
}

/// Whether each segment between the cuts is admissible. Costs time in the boundaries.
fn are_admissible(table: &Table, factor: Fraction, cuts: &[u64]) -> bool
    requires ascending { IsStrictlyIncreasing cuts.now }
    requires some { 0 < length cuts.now }
    requires first { slice_index cuts.now 0 ≡ slice_index table.now.boundaries 0 }
    requires inside { All (Contains table.now.boundaries) cuts.now }
    ensures { (list : List Posting) (horizon : ℕ) → Tabulates list horizon table.now
        → (IsTrue result ↔ Covers list factor (slice_index cuts.now 0) (drop 1 cuts.now) (slice_index cuts.now (length cuts.now - 1))) }
{
    let mut at = 0;
    for k in 0..cuts.len() - 1 {
        let next = next_place(table, cuts, k, at);
        if !is_admissible_between(table, factor, at, next) {
            return false;
        }
        at = next;
    }
    true
}

/// The sizes of the segments between the cuts, added up. Costs time in the boundaries.
fn space_between(table: &Table, cuts: &[u64]) -> u128
    requires ascending { IsStrictlyIncreasing cuts.now }
    requires some { 0 < length cuts.now }
    requires first { slice_index cuts.now 0 ≡ slice_index table.now.boundaries 0 }
    requires inside { All (Contains table.now.boundaries) cuts.now }
    ensures value { (list : List Posting) (horizon : ℕ) → Tabulates list horizon table.now
        → result ≡ space list (slice_index cuts.now 0) (drop 1 cuts.now) }
    ensures bound { result ≤ (length cuts.now - 1) * 2 ^ 38 }
{
    let mut at = 0;
    let mut total = 0;
    for k in 0..cuts.len() - 1 {
        let next = next_place(table, cuts, k, at);
        total += u128::from(table.size(at, next));
        at = next;
    }
    total
}

/// The sizes of the segments between the cuts. Costs time in the boundaries.
fn sizes_between(alloc: Global, table: &Table, cuts: &[u64]) -> Result<Vec<u64>, AllocError>
    requires ascending { IsStrictlyIncreasing cuts.now }
    requires some { 0 < length cuts.now }
    requires first { slice_index cuts.now 0 ≡ slice_index table.now.boundaries 0 }
    requires inside { All (Contains table.now.boundaries) cuts.now }
    ensures many { IfOk result (λ v. length cuts.now ≡ length v.items + 1) }
    ensures value { IfOk result (λ v. (list : List Posting) (horizon : ℕ) → Tabulates list horizon table.now
        → v.items ≡ sizes list (slice_index cuts.now 0) (drop 1 cuts.now)) }
{
    let mut at = 0;
    let mut sizes = Vec::with_capacity(alloc, cuts.len() - 1)?;
    for k in 0..cuts.len() - 1 {
        let next = next_place(table, cuts, k, at);
        sizes.push(table.size(at, next))?;
        at = next;
    }
    Ok(sizes)
}
