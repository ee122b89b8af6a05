//! Plans by their kind.
ghost use Rattle.std.specs.Prelude.{◌≡◌, ◌<◌, ◌≤◌, ◌^◌, ℕ, List, length, drop, slice_index, All, IfOk, IsErrOf, Some, None};
ghost use Rattle.base_types.specs.declared.posting.Posting.{Posting as PlainPosting};
ghost use Rattle.plans_partitions.specs.Boundaries.{AreBoundaries};
ghost use Rattle.plans_partitions.specs.Counts.{Tabulates};
ghost use Rattle.plans_partitions.specs.Partitions.{IsFitting, IsLeast, widest};
ghost use Rattle.plans_choice.specs.Bests.{IsChosenFor};
ghost use Rattle.plans_kinds.specs.Plans.{IsGoodPlan, IsCostOf, plan_space};

use crate::choice::{Choice, ChoiceError};
use crate::loads::best_since;
use crate::parts::choice_of;
use base_commands::Kind;
use base_types::{Fraction, Posting, Time};
use plans_guarantee::{PlanError, plan};
use plans_partitions::{Partition, Table};
use std::alloc::Global;

/// A plan of a list up to the horizon that is what its kind promises: a least one of those that keep to
/// a guarantee; or, of those that may be chosen under a bound on space, one whose reads are expected to
/// cost least.
///
/// `TooWide`: the plan is to keep to a guarantee, and the list has more than 1,048,576 boundaries. Costs
/// time in `n log n` for `n` postings, and in what the planner of its kind needs; memory in both.
pub fn choose(
    alloc: Global,
    list: &[Posting],
    kind: Kind,
    factor: Fraction,
    horizon: Time,
) -> Result<Choice, ChoiceError>
    requires some { 0 < length list.now }
    requires few { length list.now < 2 ^ 38 }
    requires early { All (λ p. p.span.to ≤ horizon.seconds) list.now }
    ensures good { IfOk result (λ c. IsGoodPlan kind list.now factor c.cuts.items horizon.seconds) }
    ensures space { IfOk result (λ c. c.space ≡ plan_space list.now c.cuts.items horizon.seconds) }
    ensures cost { IfOk result (λ c. IsCostOf kind list.now c.cuts.items horizon.seconds c.cost) }
    ensures wide { (n : ℕ) → IsErrOf result (ChoiceError.TooWide n)
        → (kind ≡ Kind.Guarantee)
        × ((times : List ℕ) × AreBoundaries list.now horizon.seconds times × (widest < length times) × (n ≡ length times)) }
{
    let table = Table::new(alloc, list, horizon)?;
    let (partition, cost) = chosen(alloc, &table, kind, factor)?;
    let choice = choice_of(alloc, &table, &partition, cost, horizon)?;
    Ok(choice)
}

/// A partition that is what the kind promises, and its cost, or that there are too many boundaries.
fn chosen(
    alloc: Global,
    table: &Table,
    kind: Kind,
    factor: Fraction,
) -> Result<(Partition, Option<u128>), ChoiceError>
    ensures fits { IfOk result (λ p. IsFitting table.now.boundaries p.0) }
    ensures chosen { IfOk result (λ p. IsChosenFor kind table.now factor p.0 p.1) }
    ensures wide { (n : ℕ) → IsErrOf result (ChoiceError.TooWide n) → (kind ≡ Kind.Guarantee) × (widest < length table.now.boundaries)
        × (n ≡ length table.now.boundaries) }
{
    let since = match kind {
        Kind::Guarantee => return Ok((planned(alloc, table, factor)?, None)),
        Kind::Uniform => 0,
        Kind::Since { at } => at.seconds(),
    };
    let (partition, cost) = best_since(alloc, table, factor, since)?;
    Ok((partition, Some(cost)))
}

/// A least partition, or that there are too many boundaries.
fn planned(alloc: Global, table: &Table, factor: Fraction) -> Result<Partition, ChoiceError>
    ensures within { IfOk result (λ _. length table.now.boundaries ≤ widest) }
    ensures wide { (n : ℕ) → IsErrOf result (ChoiceError.TooWide n) → (widest < length table.now.boundaries)
        × (n ≡ length table.now.boundaries) }
    ensures fits { IfOk result (λ p. IsFitting table.now.boundaries p) }
    ensures least { IfOk result (λ p. (list : List PlainPosting) (horizon : ℕ) → Tabulates list horizon table.now
        → IsLeast list factor (slice_index p 0) (drop 1 p) horizon) }
{
    match plan(alloc, table, factor) {
        Ok((partition, _)) => Ok(partition),
        Err(PlanError::TooWide { boundaries }) => Err(ChoiceError::TooWide { boundaries }),
        Err(PlanError::Memory) => Err(ChoiceError::Memory),
    }
}
