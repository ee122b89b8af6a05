//! Whether a plan is a least one.
ghost use Rattle.std.specs.Prelude.{◌≡◌, ◌+◌, ◌<◌, ◌≤◌, ◌^◌, ◌++◌, ◌∷◌, [], ℕ, List, None, drop, length, map, slice_index, All, IfOk, IfSome, IsErrOf, MatchOption};
ghost use Rattle.base_types.specs.declared.posting.Posting.{Posting as PlainPosting};
ghost use Rattle.base_types.specs.declared.time.Time.{Time as PlainTime};
ghost use Rattle.plans_partitions.specs.Counts.{Tabulates};
ghost use Rattle.plans_partitions.specs.Partitions.{Covers, IsFitting, IsLeast};
ghost use Rattle.plans_kinds.specs.Plans.{IsFitFor, IsLeastPlan};
ghost use Rattle.archive_check.specs.Checking.{IsBeaten, IsExcess};

use crate::error::VerifyError;
use archive_entries::are_many;
use base_commands::Kind;
use base_types::{Fraction, Posting, Time};
use plans_guarantee::{check, plan};
use plans_kinds::{is_fit, partition_of};
use plans_partitions::{Partition, Table};
use std::alloc::Global;

/// What a plan takes, and what it has to.
#[derive(Clone, Copy)]
pub(crate) struct Excess {
    pub(crate) taken: u64,
    pub(crate) least: u64,
}

/// What a plan takes, where it keeps to a guarantee, is fit for the list and isn't a least one. Costs
/// `n log n` in the list's postings, and memory in them.
pub(crate) fn excess_of(
    alloc: Global,
    list: &[Posting],
    factor: Fraction,
    cuts: &[Time],
    horizon: Time,
) -> Result<Option<Excess>, VerifyError>
    requires early { All (λ p. p.span.to ≤ horizon.seconds) list.now }
    ensures fair { IsErrOf result VerifyError.Failed → ⊥ }
    ensures found { IfOk result (λ o. MatchOption o
        (IsFitFor Kind.Guarantee list.now factor cuts.now horizon.seconds → IsLeastPlan list.now factor cuts.now horizon.seconds)
        (λ e. IsExcess list.now factor cuts.now horizon.seconds e.taken e.least)) }
{
    if list.is_empty() {
        return Ok(None);
    }
    if are_many(list) {
        return Err(VerifyError::Memory);
    }
    if !is_fit(alloc, list, Kind::Guarantee, factor, cuts, horizon)? {
        return Ok(None);
    }
    excess_of_fit(alloc, list, factor, cuts, horizon)
}

/// What a fit plan takes, where it isn't a least one.
fn excess_of_fit(
    alloc: Global,
    list: &[Posting],
    factor: Fraction,
    cuts: &[Time],
    horizon: Time,
) -> Result<Option<Excess>, VerifyError>
    requires some { 0 < length list.now }
    requires few { length list.now < 2 ^ 38 }
    requires early { All (λ p. p.span.to ≤ horizon.seconds) list.now }
    requires fit { IsFitFor Kind.Guarantee list.now factor cuts.now horizon.seconds }
    ensures fair { IsErrOf result VerifyError.Failed → ⊥ }
    ensures found { IfOk result (λ o. MatchOption o
        (IsLeastPlan list.now factor cuts.now horizon.seconds)
        (λ e. IsExcess list.now factor cuts.now horizon.seconds e.taken e.least)) }
{
    let table = Table::new(alloc, list, horizon)?;
    let stored = partition_on(alloc, &table, cuts, horizon)?;
    excess_by(alloc, &table, factor, &stored)
}

/// The partition of a plan's cuts, which are boundaries of the table; whatever else can't be is answered
/// as out of memory.
fn partition_on(
    alloc: Global,
    table: &Table,
    cuts: &[Time],
    horizon: Time,
) -> Result<Partition, VerifyError>
    ensures fair { IsErrOf result VerifyError.Failed → ⊥ }
    ensures cuts { IfOk result (λ p. p ≡ map (λ (t : PlainTime). t.seconds) (cuts.now ++ horizon ∷ [])) }
    ensures fits { IfOk result (λ p. IsFitting table.now.boundaries p) }
{
    let Some(partition) = partition_of(alloc, cuts, horizon)? else {
        return Err(VerifyError::Memory);
    };
    if !partition.fits(table) {
        return Err(VerifyError::Memory);
    }
    Ok(partition)
}

/// What the stored partition takes, where it isn't a least one: the planner gives the least space up to
/// each boundary, and `check` judges the stored cuts by these numbers. Costs time in the boundaries, and
/// what `plan` and `check` take of memory.
fn excess_by(
    alloc: Global,
    table: &Table,
    factor: Fraction,
    stored: &Partition,
) -> Result<Option<Excess>, VerifyError>
    requires some { (list : List PlainPosting) × (horizon : ℕ) × Tabulates list horizon table.now }
    requires fits { IsFitting table.now.boundaries stored.now }
    requires few { length stored.now ≤ 2 ^ 24 + 1 }
    ensures fair { IsErrOf result VerifyError.Failed → ⊥ }
    // None exactly where `check` says yes, and so no partition that keeps the factor takes less.
    ensures least { IfOk result (λ o. o ≡ None → (list : List PlainPosting) (horizon : ℕ) → Tabulates list horizon table.now
        → IsLeast list factor (slice_index stored.now 0) (drop 1 stored.now) horizon) }
    // Where it says no, one that keeps the factor takes more than the least, since the best numbers certify each least one.
    ensures beaten { IfOk result (λ o. IfSome o (λ e. (list : List PlainPosting) (horizon : ℕ) → Tabulates list horizon table.now
        → Covers list factor (slice_index stored.now 0) (drop 1 stored.now) horizon
        → IsBeaten list factor horizon stored.now e.taken e.least)) }
{
    let (_, best) = plan(alloc, table, factor)?;
    if check(alloc, table, factor, stored, &best)? {
        return Ok(None);
    }
    let numbers = best.pi();
    Ok(Some(Excess {
        taken: stored.space(table),
        least: numbers[numbers.len() - 1],
    }))
}
