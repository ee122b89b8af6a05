//! The test of a stored plan.
ghost use Rattle.std.specs.Prelude.{◌≡◌, ℕ, ◌-◌, ◌<◌, ◌≤◌, ◌^◌, ◌↔◌, List, [], ◌∷◌, ◌++◌, map, drop, length, slice_index, All, IsTrue, IsSome, IfSome, IfOk};
ghost use Rattle.base_types.specs.declared.time.Time.{Time};
ghost use Rattle.base_types.specs.declared.posting.Posting.{Posting};
ghost use Rattle.plans_partitions.specs.Counts.{Tabulates};
ghost use Rattle.plans_partitions.specs.Partitions.{IsPartition, IsFitting, Covers};
ghost use Rattle.plans_kinds.specs.Plans.{IsFitFor};

use crate::capping::keeps_cap;
use base_commands::Kind;
use base_types::{Fraction, Posting, Time};
use plans_partitions::{Partition, Table};
use std::alloc::{AllocError, Global};

/// The most boundaries of a list whose plan keeps to a guarantee.
const WIDEST: usize = 1_048_576;

/// The cuts in seconds, and then the horizon.
fn seconds_of(alloc: Global, cuts: &[Time], horizon: Time) -> Result<Vec<u64>, AllocError>
    ensures { IfOk result (λ v. v.items ≡ map (λ (t : Time). t.seconds) (cuts.now ++ horizon ∷ [])) }
{
    let mut seconds: Vec<u64> = cuts.iter().map(|t| t.seconds).collect(alloc)?;
    seconds.push(horizon.seconds)?;
    Ok(seconds)
}

/// The partition of a plan's cuts, up to its horizon; None where the cuts and then the horizon don't
/// ascend, or there is no cut. Costs time and memory in the cuts.
pub fn partition_of(
    alloc: Global,
    cuts: &[Time],
    horizon: Time,
) -> Result<Option<Partition>, AllocError>
    ensures valid { IfOk result (λ o. IsSome o ↔ IsPartition (map (λ (t : Time). t.seconds) (cuts.now ++ horizon ∷ []))) }
    ensures value { IfOk result (λ o. IfSome o (λ p. p ≡ map (λ (t : Time). t.seconds) (cuts.now ++ horizon ∷ []))) }
{
    let seconds = seconds_of(alloc, cuts, horizon)?;
    Ok(Partition::new(seconds))
}

/// Whether the table has at most 1,048,576 boundaries, and a partition has its cuts at these, from the
/// first to the last, and keeps the factor. Costs time in the boundaries and in the cuts.
fn keeps_guarantee(table: &Table, partition: &Partition, factor: Fraction) -> bool
    ensures { (list : List Posting) (horizon : ℕ) → Tabulates list horizon table.now
        → (IsTrue result ↔ ((length table.now.boundaries ≤ 1048576) × IsFitting table.now.boundaries partition.now
        × Covers list factor (slice_index partition.now 0) (drop 1 partition.now) horizon)) }
{
    table.boundaries().len() <= WIDEST
        && partition.fits(table)
        && partition.admissible(table, factor)
}

/// Whether a plan with the partition's cuts may be loaded, which is tested by its kind.
fn keeps(table: &Table, partition: &Partition, kind: Kind, factor: Fraction) -> bool
    requires last { slice_index partition.now (length partition.now - 1) ≤ slice_index table.now.boundaries
        (length table.now.boundaries - 1) }
    ensures { (list : List Posting) (cuts : List Time) (horizon : Time) → Tabulates list horizon.seconds table.now
        → IsPartition partition.now → partition.now ≡ map (λ (t : Time). t.seconds) (cuts ++ horizon ∷ [])
        → (IsTrue result ↔ IsFitFor kind list factor cuts horizon.seconds) }
{
    match kind {
        Kind::Guarantee => keeps_guarantee(table, partition, factor),
        Kind::Uniform | Kind::Since { .. } => keeps_cap(table, partition, factor),
    }
}

/// Whether a plan of a list may be loaded. One that keeps to a guarantee: the list has at most 1,048,576
/// boundaries, and the cuts with the horizon are an admissible partition at boundaries, from the first
/// one on. One under a space bound: the cuts with the horizon are a partition from the first boundary
/// on, cut anywhere, of which the segments together have at most the factor times the list's postings.
/// Costs time in `n log n` for `n` postings, and in the cuts, for a space bound with the logarithm of
/// `n` for each; memory in both.
pub fn is_fit(
    alloc: Global,
    list: &[Posting],
    kind: Kind,
    factor: Fraction,
    cuts: &[Time],
    horizon: Time,
) -> Result<bool, AllocError>
    requires some { 0 < length list.now }
    requires few { length list.now < 2 ^ 38 }
    requires early { All (λ p. p.span.to ≤ horizon.seconds) list.now }
    ensures { IfOk result (λ b. IsTrue b ↔ IsFitFor kind list.now factor cuts.now horizon.seconds) }
{
    let Some(partition) = partition_of(alloc, cuts, horizon)? else {
        return Ok(false);
    };
    let table = Table::new(alloc, list, horizon)?;
    Ok(keeps(&table, &partition, kind, factor))
}
