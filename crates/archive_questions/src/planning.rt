//! What is planned for a word.
ghost use Rattle.std.specs.Prelude.{◌≡◌, ◌<◌, ◌≤◌, ◌^◌, ℕ, List, length, drop, slice_index, All, IfOk, IsErrOf};
ghost use Rattle.base_types.specs.declared.posting.Posting.{Posting as PlainPosting};
ghost use Rattle.plans_partitions.specs.Counts.{Tabulates};
ghost use Rattle.plans_partitions.specs.Partitions.{IsFitting, IsLeast, AreBest, widest};
ghost use Rattle.machine_model.specs.States.{DiskState};
ghost use Rattle.plans_kinds.specs.Proposals.{IsProposal};
ghost use Rattle.model_archive.specs.Histories.{History};
ghost use Rattle.model_archive.specs.Planning.{OfBoundaries};
ghost use Rattle.model_archive.specs.Steps.{Proposed, Proposes, Refused};
ghost use Rattle.archive_hand.specs.States.{StandsFor, AreInStepBy};
ghost use Rattle.archive_hand.specs.Stored.{Store};
ghost use Rattle.archive_hand.specs.Takes.{TakesBy};
ghost use Rattle.archive_questions.specs.Endings.{proposed};
ghost use Rattle.base_commands.specs.declared.command.Command.TheVariants as commands;
ghost use Rattle.base_commands.specs.declared.command.Item.TheVariants as items;

use archive_entries::Declined;
use archive_hand::Archive;
use base_commands::Phrase;
use base_types::{Fraction, Posting, Time};
use model_archive::Refusal;
use plans_guarantee::{Certificate, PlanError, plan};
use plans_kinds::Proposal;
use plans_partitions::{Partition, Table};
use std::alloc::Global;

/// A least plan of a word's list up to the last time, in which each read costs at most the factor
/// times what is alive, with the least space up to each boundary. Nothing is stored or changed, and
/// no disk is asked.
///
/// `Refused`: for the first cause in order, the phrase isn't one term, no text has the word, it has no
/// posting before the last time, or its list has too many boundaries. `Memory`: an allocation failed.
/// Costs `n log n` in the word's postings, and memory in them.
pub fn propose(
    alloc: Global,
    archive: &Archive,
    word: &Phrase,
    factor: Fraction,
) -> Result<Proposal, Declined>
    // Whatever history it stands for: a refusal comes exactly where that has the cause (unless memory runs out), and what is proposed is
    // of it.
    ensures refused { (h : History) → StandsFor archive.now h → (why : Refusal) → IsErrOf result (Declined.Refused why)
        → Proposes h word.now factor (Refused why) }
    ensures proposes { (h : History) → StandsFor archive.now h
        → IfOk result (λ p. Proposes h word.now factor (Proposed p.segments.items p.nodes.items p.space)) }
    // In step by what reads give, whatever lies in Pages, it is a step.
    ensures by_reads { (d : DiskState) (s : Store) → AreInStepBy d archive.now s
        → TakesBy s (items.Command (commands.Propose word.now factor)) (proposed result) d d archive.now }
{
    let sealed = archive.sealed(alloc, word)?;
    least_plan(alloc, &sealed.list, sealed.horizon, factor)
}

/// A least plan of a list, as it is shown, or why there is none.
fn least_plan(
    alloc: Global,
    list: &[Posting],
    horizon: Time,
    factor: Fraction,
) -> Result<Proposal, Declined>
    requires some { 0 < length list.now }
    requires few { length list.now < 2 ^ 38 }
    requires early { All (λ p. p.span.to ≤ horizon.seconds) list.now }
    ensures refused { (why : Refusal) → IsErrOf result (Declined.Refused why)
        → OfBoundaries horizon.seconds list.now (λ because. why ≡ because) ⊥ }
    ensures least { IfOk result
        (λ p. OfBoundaries horizon.seconds list.now (λ because. ⊥)
        (IsProposal list.now factor horizon.seconds p.segments.items p.nodes.items p.space)) }
{
    let table = Table::new(alloc, list, horizon)?;
    let (partition, certificate) = planned(alloc, &table, factor)?;
    let proposal = Proposal::of(alloc, &table, &partition, certificate.pi())?;
    Ok(proposal)
}

/// A least partition with the least space up to each boundary, or that there are too many boundaries.
pub(crate) fn planned(
    alloc: Global,
    table: &Table,
    factor: Fraction,
) -> Result<(Partition, Certificate), Declined>
    ensures within { IfOk result (λ _. length table.now.boundaries ≤ widest) }
    ensures refused { (why : Refusal) → IsErrOf result (Declined.Refused why) → (widest < length table.now.boundaries)
        × (why ≡ Refusal.TooWide (length table.now.boundaries)) }
    ensures fits { IfOk result (λ p. IsFitting table.now.boundaries p.0) }
    ensures least { IfOk result (λ p. (list : List PlainPosting) (horizon : ℕ) → Tabulates list horizon table.now
        → IsLeast list factor (slice_index p.0 0) (drop 1 p.0) horizon) }
    ensures best { IfOk result (λ p. (list : List PlainPosting) (horizon : ℕ) → Tabulates list horizon table.now
        → AreBest list factor horizon table.now.boundaries p.1) }
{
    match plan(alloc, table, factor) {
        Ok(planned) => Ok(planned),
        Err(PlanError::TooWide { boundaries }) => {
            Err(Declined::Refused(Refusal::TooWide { boundaries }))
        }
        Err(PlanError::Memory) => Err(Declined::Memory),
    }
}
