//! The bound on space. A plan under it may be cut anywhere, so its segments are measured between the
//! boundaries around them.
ghost use Rattle.std.specs.Prelude.{◌≡◌, ℕ, ◌-◌, ◌*◌, ◌<◌, ◌≤◌, ◌^◌, ◌↔◌, List, drop, length, slice_index, IsTrue};
ghost use Rattle.std.specs.List.Sorted.{IsStrictlyIncreasing};
ghost use Rattle.base_types.specs.declared.posting.Posting.{Posting};
ghost use Rattle.lists_postings.specs.Sizes.{size};
ghost use Rattle.plans_partitions.specs.Counts.{Tabulates};
ghost use Rattle.plans_partitions.specs.Partitions.{space};
ghost use Rattle.plans_space.specs.Caps.{cap};
ghost use Rattle.plans_kinds.specs.Steps.{IsNext};

use base_types::Fraction;
use plans_partitions::{Partition, Table};

/// The place of the first of the ascending times that is after `t`, where one isn't and the last one is.
/// Costs the logarithm of the times.
fn first_after(times: &[u64], t: u64) -> usize
    requires ascending { IsStrictlyIncreasing times.now }
    requires some { 0 < length times.now }
    requires first { slice_index times.now 0 ≤ t }
    requires last { t < slice_index times.now (length times.now - 1) }
    ensures { IsNext times.now t result }
{
    times.partition_point(|x| *x <= t)
}

/// How many postings have a time in `[f, g)`: as many as between the last boundary at or before `f` and
/// the first one at or behind `g`. Costs the logarithm of the boundaries.
fn size_of(table: &Table, f: u64, g: u64) -> u64
    requires first { slice_index table.now.boundaries 0 ≤ f }
    requires order { f < g }
    requires last { g ≤ slice_index table.now.boundaries (length table.now.boundaries - 1) }
    ensures bound { result < 2 ^ 38 }
    ensures count { (list : List Posting) (horizon : ℕ) → Tabulates list horizon table.now → result ≡ size f g list }
{
    let times = table.boundaries();
    let from = first_after(times, f) - 1;
    let to = first_after(times, g - 1);
    table.size(from, to)
}

/// The sizes of the segments between the cuts, added up. Costs time in the cuts, and for each the
/// logarithm of the boundaries.
#[tactic(auto, using(plans_partitions::proofs::Places::not_falling, plans_partitions::proofs::Places::rises))]
fn space_of(table: &Table, cuts: &[u64]) -> u128
    requires ascending { IsStrictlyIncreasing cuts.now }
    requires some { 0 < length cuts.now }
    requires first { slice_index table.now.boundaries 0 ≤ slice_index cuts.now 0 }
    requires last { slice_index cuts.now (length cuts.now - 1) ≤ slice_index table.now.boundaries (length table.now.boundaries - 1) }
    ensures { (list : List Posting) (horizon : ℕ) → Tabulates list horizon table.now
        → result ≡ space list (slice_index cuts.now 0) (drop 1 cuts.now) }
{
    let mut total = 0;
    for k in 0..cuts.len() - 1 {
        total += u128::from(size_of(table, cuts[k], cuts[k + 1]));
    }
    total
}

/// The most postings that a plan of a list of so many may take under a factor.
fn cap_of(factor: Fraction, postings: u64) -> u128
    ensures { result ≡ cap factor postings }
{
    u128::from(factor.over) * u128::from(postings) / u128::from(factor.under)
}

/// Whether a partition begins at the table's first boundary, and its segments together have at most the
/// factor times the list's postings. Costs time in the cuts, and for each the logarithm of the
/// boundaries.
pub(crate) fn keeps_cap(table: &Table, partition: &Partition, factor: Fraction) -> bool
    requires last { slice_index partition.now (length partition.now - 1) ≤ slice_index table.now.boundaries
        (length table.now.boundaries - 1) }
    ensures { (list : List Posting) (horizon : ℕ) → Tabulates list horizon table.now
        → (IsTrue result ↔ ((slice_index partition.now 0 ≡ slice_index table.now.boundaries 0)
        × (space list (slice_index partition.now 0) (drop 1 partition.now) ≤ cap factor (length list)))) }
{
    let cuts = partition.cuts();
    cuts[0] == table.boundaries()[0] && space_of(table, cuts) <= cap_of(factor, table.postings())
}
