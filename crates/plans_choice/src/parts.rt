//! Partitions as plans.
ghost use Rattle.std.specs.Prelude.{◌≡◌, ℕ, ◌+◌, ◌-◌, ◌<◌, ◌≤◌, ◌^◌, ◌++◌, ◌∷◌, [], List, drop, length, map, slice_index, IfOk, OnOk};
ghost use Rattle.std.specs.List.Sorted.{IsStrictlyIncreasing};
ghost use Rattle.base_types.specs.declared.posting.Posting.{Posting};
ghost use Rattle.base_types.specs.declared.time.Time.{Time as PlainTime};
ghost use Rattle.plans_partitions.specs.Counts.{Tabulates};
ghost use Rattle.plans_partitions.specs.Partitions.{IsFitting, space};

use crate::choice::Choice;
use base_types::Time;
use plans_partitions::{Partition, Table};
use std::alloc::{AllocError, Global};

/// A partition that fits the table, as a plan with this cost. Costs time in the boundaries, and memory
/// in the cuts.
pub(crate) fn choice_of(
    alloc: Global,
    table: &Table,
    partition: &Partition,
    cost: Option<u128>,
    horizon: Time,
) -> Result<Choice, AllocError>
    requires fits { IsFitting table.now.boundaries partition.now }
    requires few { length partition.now ≤ 2 ^ 24 + 1 }
    requires last { slice_index partition.now (length partition.now - 1) ≡ horizon.seconds }
    ensures cuts { IfOk result (λ c. map (λ (t : PlainTime). t.seconds) c.cuts.items ++ horizon.seconds ∷ [] ≡ partition.now) }
    ensures some { IfOk result (λ c. 0 < length c.cuts.items) }
    ensures space { IfOk result (λ c. (list : List Posting) (horizon : ℕ) → Tabulates list horizon table.now
        → c.space ≡ space list (slice_index partition.now 0) (drop 1 partition.now)) }
    ensures cost { IfOk result (λ c. c.cost ≡ cost) }
{
    let cuts = times_of(alloc, partition.cuts(), horizon)?;
    let space = partition.space(table);
    Ok(Choice { cuts, space, cost })
}

/// The times of all cuts but the last, which is the horizon. Costs their number.
fn times_of(alloc: Global, cuts: &[u64], horizon: Time) -> Result<Vec<Time>, AllocError>
    requires many { 2 ≤ length cuts.now }
    requires ascending { IsStrictlyIncreasing cuts.now }
    requires last { slice_index cuts.now (length cuts.now - 1) ≡ horizon.seconds }
    ensures { IfOk result (λ v. map (λ (t : PlainTime). t.seconds) v.items ++ horizon.seconds ∷ [] ≡ cuts.now) }
{
    let mut times = Vec::with_capacity(alloc, cuts.len() - 1)?;
    for cut in &cuts[..cuts.len() - 1] {
        push_time(&mut times, *cut)?;
    }
    Ok(times)
}

/// Adds a time of so many seconds.
fn push_time(times: &mut Vec<Time>, seconds: u64) -> Result<(), AllocError>
    requires { seconds < 2 ^ 40 }
    ensures { OnOk result ((time : PlainTime) × ((time.seconds ≡ seconds) × (times.new.items ≡ times.old.items ++ time ∷ []))) }
{
    if let Some(time) = Time::new(seconds) {
        times.push(time)?;
    }
    Ok(())
}
