//! Best partitions for a load that answers by a function of the span.
ghost use Rattle.std.specs.Prelude.{◌≡◌, ◌↔◌, ◌-◌, ◌≤◌, ◌^◌, ℕ, List, length, drop, slice_index, IfOk, IsTrue};
ghost use Rattle.base_types.specs.declared.posting.Posting.{Posting};
ghost use Rattle.plans_partitions.specs.Counts.{Tabulates};
ghost use Rattle.plans_space.specs.Loads.{weights_by};
ghost use Rattle.plans_space.specs.Plans.{IsBestUnder};
ghost use Rattle.plans_partitions.specs.Partitions.{IsFitting};
ghost use Rattle.plans_kinds.specs.Plans.{each_second_since};
ghost use Rattle.plans_choice.specs.Bests.{IsBestFor};

use base_types::{Fraction, Span};
use plans_partitions::{Partition, Table};
use plans_space::{Load, is_best, plan};
use std::alloc::{AllocError, Global};

/// A best partition where each second from a time on is as likely to be asked for, and its cost. Costs
/// what `plans_space::plan` does.
pub(crate) fn best_since(
    alloc: Global,
    table: &Table,
    factor: Fraction,
    since: u64,
) -> Result<(Partition, u128), AllocError>
    ensures fits { IfOk result (λ p. IsFitting table.now.boundaries p.0) }
    ensures best { IfOk result (λ p. IsBestFor (each_second_since since) table.now factor p.0 p.1) }
{
    let load = Load::new(
        move |span: Span| -> u64
            ensures value { result ≡ each_second_since since span.from span.to }
            ensures few { result ≤ 2 ^ 40 }
        { span.to.saturating_sub(span.from.max(since)) },
    );
    let (partition, cost) = plan(alloc, table, factor, &load)?;
    Ok((partition, cost))
}

/// Whether a partition, from the first boundary to the last, is a best one where each second from a time
/// on is as likely to be asked for. Costs what `plans_space::plan` does.
pub(crate) fn is_best_since(
    alloc: Global,
    table: &Table,
    factor: Fraction,
    since: u64,
    partition: &Partition,
) -> Result<bool, AllocError>
    requires first { slice_index partition.now 0 ≡ slice_index table.now.boundaries 0 }
    requires last { slice_index partition.now (length partition.now - 1) ≡ slice_index table.now.boundaries
        (length table.now.boundaries - 1) }
    ensures { IfOk result (λ b. (list : List Posting) (horizon : ℕ) → Tabulates list horizon table.now
        → (IsTrue b ↔ IsBestUnder list table.now.boundaries (weights_by (each_second_since since) table.now.boundaries) factor
        (slice_index table.now.boundaries 0) horizon (drop 1 partition.now))) }
{
    let load = Load::new(
        move |span: Span| -> u64
            ensures value { result ≡ each_second_since since span.from span.to }
            ensures few { result ≤ 2 ^ 40 }
        { span.to.saturating_sub(since.max(span.from)) },
    );
    let best = is_best(alloc, table, factor, &load, partition)?;
    Ok(best)
}
