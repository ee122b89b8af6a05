//! The certificate of a plan that is stored.
ghost use Rattle.std.specs.Prelude.{◌≡◌, ◌<◌, ◌≤◌, ◌^◌, length, All, IfOk, IsErrOf, Some};
ghost use Rattle.machine_model.specs.States.{DiskState};
ghost use Rattle.plans_kinds.specs.Plans.{IsFitPlan};
ghost use Rattle.model_archive.specs.Histories.{History};
ghost use Rattle.model_archive.specs.Plans.{plan_of};
ghost use Rattle.model_archive.specs.Steps.{Certifies, IsCertificate, Proposed, Refused, CertifiesLive, CertifiesPlan};
ghost use Rattle.archive_hand.specs.States.{StandsFor, AreInStepBy};
ghost use Rattle.archive_hand.specs.Stored.{Store};
ghost use Rattle.archive_hand.specs.Takes.{TakesBy};
ghost use Rattle.archive_questions.specs.Endings.{proposed};
ghost use Rattle.base_commands.specs.declared.command.Command.TheVariants as commands;
ghost use Rattle.base_commands.specs.declared.command.Item.TheVariants as items;

use crate::planning::planned;
use archive_entries::{Declined, are_many};
use archive_hand::Archive;
use base_commands::{Kind, Phrase};
use base_types::{Key, Posting};
use journal_entries::PlanEntry;
use model_archive::Refusal;
use plans_kinds::{Proposal, partition_of};
use plans_partitions::Table;
use std::alloc::{AllocError, Global};
use text_words::one_term;

/// The stored plan of a word, if it keeps to a guarantee: its segments with their sizes, its space, and
/// the least space up to each boundary of the list; where the last of these is its own space, the plan
/// is least. Nothing is changed, and no disk is asked.
///
/// `Refused`: for the first cause in order, the phrase isn't one term, no text has the word, or it has
/// no stored plan that keeps to a guarantee. `Memory`: an allocation failed.
/// Costs `n log n` in the word's postings, and memory in them.
pub fn certificate(alloc: Global, archive: &Archive, word: &Phrase) -> Result<Proposal, Declined>
    // Whatever history it stands for, what is told is the stored plan, and a refusal comes exactly where that history has the cause (but for
    // want of memory).
    ensures refused { (h : History) → StandsFor archive.now h → (why : Refusal) → IsErrOf result (Declined.Refused why)
        → Certifies h word.now (Refused why) }
    ensures certifies { (h : History) → StandsFor archive.now h
        → IfOk result (λ p. Certifies h word.now (Proposed p.segments.items p.nodes.items p.space)) }
    // In step by what reads give, whatever lies in Pages, it is a step.
    ensures by_reads { (d : DiskState) (s : Store) → AreInStepBy d archive.now s
        → TakesBy s (items.Command (commands.Certificate word.now)) (proposed result) d d archive.now }
{
    certificate_of(alloc, archive, word)
}

/// The certificate of a phrase's word.
fn certificate_of(alloc: Global, archive: &Archive, word: &Phrase) -> Result<Proposal, Declined>
    ensures refused { (h : History) → StandsFor archive.now h → (why : Refusal) → IsErrOf result (Declined.Refused why)
        → Certifies h word.now (Refused why) }
    ensures certifies { (h : History) → StandsFor archive.now h
        → IfOk result (λ p. Certifies h word.now (Proposed p.segments.items p.nodes.items p.space)) }
{
    let Some(key) = one_term(alloc, word.as_str())? else {
        return Err(Declined::Refused(Refusal::NotOneTerm));
    };
    if !archive.knows(&key) {
        return Err(Declined::Refused(Refusal::UnknownWord));
    }
    certificate_of_word(alloc, archive, &key)
}

/// The certificate of a word's live plan.
fn certificate_of_word(alloc: Global, archive: &Archive, word: &Key) -> Result<Proposal, Declined>
    ensures refused { (h : History) → StandsFor archive.now h → (why : Refusal) → IsErrOf result (Declined.Refused why)
        → CertifiesLive h (plan_of h word.now) (Refused why) }
    ensures certifies { (h : History) → StandsFor archive.now h
        → IfOk result (λ p. CertifiesLive h (plan_of h word.now) (Proposed p.segments.items p.nodes.items p.space)) }
{
    let Some(stored) = archive.shelf().plan_of(word) else {
        return Err(Declined::Refused(Refusal::NoPlan));
    };
    match stored.plan.kind {
        Kind::Guarantee => {
            let proposal = certificate_of_plan(alloc, archive, &stored.plan)?;
            Ok(proposal)
        }
        Kind::Uniform => Err(Declined::Refused(Refusal::NoPlan)),
        Kind::Since { .. } => Err(Declined::Refused(Refusal::NoPlan)),
    }
}

/// The certificate of a live plan that keeps to a guarantee.
fn certificate_of_plan(
    alloc: Global,
    archive: &Archive,
    plan: &PlanEntry,
) -> Result<Proposal, AllocError>
    requires live { (h : History) → StandsFor archive.now h → plan_of h plan.now.word ≡ Some plan.now }
    requires kind { plan.now.kind ≡ Kind.Guarantee }
    ensures { (h : History) → StandsFor archive.now h
        → IfOk result (λ p. CertifiesPlan h plan.now Kind.Guarantee (Proposed p.segments.items p.nodes.items p.space)) }
{
    let list = archive.list_until(alloc, &plan.word, plan.horizon)?;
    if list.is_empty() || are_many(&list) {
        return Err(AllocError);
    }
    certified(alloc, &list, plan)
}

/// The certificate of a plan of a list. Whatever can't be, as that the list has too many boundaries, is
/// answered as out of memory.
fn certified(alloc: Global, list: &[Posting], plan: &PlanEntry) -> Result<Proposal, AllocError>
    requires some { 0 < length list.now }
    requires few { length list.now < 2 ^ 38 }
    requires early { All (λ p. p.span.to ≤ plan.now.horizon.seconds) list.now }
    ensures { IfOk result (λ p. IsFitPlan list.now plan.now.fraction plan.now.cuts plan.now.horizon.seconds
        → IsCertificate list.now plan.now.fraction plan.now.cuts plan.now.horizon.seconds p.segments.items p.nodes.items p.space) }
{
    let table = Table::new(alloc, list, plan.horizon)?;
    let Ok((_, certificate)) = planned(alloc, &table, plan.fraction) else {
        return Err(AllocError);
    };
    let Some(partition) = partition_of(alloc, plan.cuts.as_slice(), plan.horizon)? else {
        return Err(AllocError);
    };
    if !partition.fits(&table) {
        return Err(AllocError);
    }
    let proposal = Proposal::of(alloc, &table, &partition, certificate.pi())?;
    Ok(proposal)
}
