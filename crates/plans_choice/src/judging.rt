//! Whether a plan that is there is what its kind promises.
ghost use Rattle.std.specs.Prelude.{◌≡◌, ◌<◌, ◌≤◌, ◌^◌, ◌↔◌, ◌-◌, ◌++◌, ◌∷◌, [], ℕ, List, map, length, drop, slice_index, All, IfOk, IsTrue};
ghost use Rattle.base_types.specs.declared.posting.Posting.{Posting as PlainPosting};
ghost use Rattle.base_types.specs.declared.time.Time.{Time as PlainTime};
ghost use Rattle.plans_partitions.specs.Counts.{Tabulates};
ghost use Rattle.plans_partitions.specs.Partitions.{Covers, IsFitting, IsPartition, widest};
ghost use Rattle.plans_kinds.specs.Plans.{IsBestPlan, IsGoodPlan, each_second_since};

use crate::loads::is_best_since;
use base_commands::Kind;
use base_types::{Fraction, Posting, Time};
use plans_guarantee::{PlanError, WIDEST, plan};
use plans_kinds::partition_of;
use plans_partitions::{Partition, Table};
use std::alloc::{AllocError, Global};

/// Whether a plan of a list up to the horizon is what its kind promises: a least one of those that keep to
/// a guarantee, or a best one of those that may be chosen under a bound on space. Its own cuts are tested,
/// and then its space, or its expected cost, is compared with that of the plan that the planner of its
/// kind makes. Costs what `choose` does, and time and memory in the cuts.
pub fn is_good(
    alloc: Global,
    list: &[Posting],
    kind: Kind,
    factor: Fraction,
    cuts: &[Time],
    horizon: Time,
) -> Result<bool, AllocError>
    requires some { 0 < length list.now }
    requires few { length list.now < 2 ^ 38 }
    requires early { All (λ p. p.span.to ≤ horizon.seconds) list.now }
    ensures { IfOk result (λ b. IsTrue b ↔ IsGoodPlan kind list.now factor cuts.now horizon.seconds) }
{
    let Some(partition) = partition_of(alloc, cuts, horizon)? else {
        return Ok(false);
    };
    let table = Table::new(alloc, list, horizon)?;
    match kind {
        Kind::Guarantee => takes_least(alloc, &table, &partition, factor),
        Kind::Uniform => costs_least(alloc, &table, &partition, factor, 0),
        Kind::Since { at } => costs_least(alloc, &table, &partition, factor, at.seconds()),
    }
}

/// Whether a partition is a best one under the bound, where each second from a time on is as likely to be
/// asked for.
fn costs_least(
    alloc: Global,
    table: &Table,
    partition: &Partition,
    factor: Fraction,
    since: u64,
) -> Result<bool, AllocError>
    ensures { IfOk result (λ b. (list : List PlainPosting) (cuts : List PlainTime) (horizon : PlainTime)
        → Tabulates list horizon.seconds table.now → IsPartition partition.now
        → partition.now ≡ map (λ (t : PlainTime). t.seconds) (cuts ++ horizon ∷ [])
        → (IsTrue b ↔ IsBestPlan (each_second_since since) list factor cuts horizon.seconds)) }
{
    if !spans(table, partition) {
        return Ok(false);
    }
    is_best_since(alloc, table, factor, since, partition)
}

/// Whether a partition begins at the table's first boundary and ends at its last.
fn spans(table: &Table, partition: &Partition) -> bool
    ensures yes { IsTrue result ↔ ((slice_index partition.now 0 ≡ slice_index table.now.boundaries 0)
        × (slice_index partition.now (length partition.now - 1) ≡ slice_index table.now.boundaries (length table.now.boundaries - 1))) }
{
    let cuts = partition.cuts();
    let times = table.boundaries();
    cuts[0] == times[0] && cuts[cuts.len() - 1] == times[times.len() - 1]
}

/// Whether a partition keeps the factor in the least space, with its cuts at the table's boundaries.
fn takes_least(
    alloc: Global,
    table: &Table,
    partition: &Partition,
    factor: Fraction,
) -> Result<bool, AllocError>
    ensures { IfOk result (λ b. (list : List PlainPosting) (cuts : List PlainTime) (horizon : PlainTime)
        → Tabulates list horizon.seconds table.now → IsPartition partition.now
        → partition.now ≡ map (λ (t : PlainTime). t.seconds) (cuts ++ horizon ∷ [])
        → (IsTrue b ↔ IsGoodPlan Kind.Guarantee list factor cuts horizon.seconds)) }
{
    if !keeps(table, partition, factor) {
        return Ok(false);
    }
    match plan(alloc, table, factor) {
        Ok((least, _)) => Ok(partition.whole_space(table) == least.whole_space(table)),
        Err(PlanError::TooWide { .. }) => Ok(false),
        Err(PlanError::Memory) => Err(AllocError),
    }
}

/// Whether the table has few enough boundaries, and a partition has its cuts at these, from the first
/// to the last, and keeps the factor.
fn keeps(table: &Table, partition: &Partition, factor: Fraction) -> bool
    ensures keeps { (list : List PlainPosting) (horizon : ℕ) → Tabulates list horizon table.now
        → (IsTrue result ↔ ((length table.now.boundaries ≤ widest) × IsFitting table.now.boundaries partition.now
        × Covers list factor (slice_index partition.now 0) (drop 1 partition.now) horizon)) }
    ensures narrow { IsTrue result → length table.now.boundaries ≤ widest }
    ensures fits { IsTrue result → IsFitting table.now.boundaries partition.now }
{
    table.boundaries().len() <= WIDEST
        && partition.fits(table)
        && partition.admissible(table, factor)
}
