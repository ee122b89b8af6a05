//! How a budget is best shared among words.
ghost use Rattle.std.specs.Prelude.{◌≡◌, ◌<◌, ◌≤◌, ◌^◌, ◌+◌, ◌++◌, ◌∷◌, ℕ, length, filter, sum_by, All, IfOk, IsErrOf};
ghost use Rattle.machine_model.specs.States.{DiskState};
ghost use Rattle.plans_share.specs.Asked.{asked_in};
ghost use Rattle.plans_share.specs.Choices.{ArePicks};
ghost use Rattle.plans_share.specs.Offers.{AreOffers, IsOffer};
ghost use Rattle.plans_share.specs.Steps.{AreCheap};
ghost use Rattle.model_archive.specs.Histories.{History};
ghost use Rattle.model_archive.specs.Planning.{last_second};
ghost use Rattle.model_archive.specs.Sharing.{IsShared, OfPhrases, shares_of};
ghost use Rattle.model_archive.specs.Steps.{RefusedIn, Shared, Shares};
ghost use Rattle.archive_hand.specs.States.{StandsFor, AreInStepBy};
ghost use Rattle.archive_hand.specs.Stored.{Store};
ghost use Rattle.archive_hand.specs.Takes.{TakesBy};
ghost use Rattle.archive_questions.specs.Endings.{shared};
ghost use Rattle.archive_questions.specs.Sharers.{EndsAt, IsPlannable, sharers, stands_apart};
ghost use Rattle.base_commands.specs.declared.command.Command.TheVariants as commands;
ghost use Rattle.base_commands.specs.declared.command.Item.TheVariants as items;

use crate::error::ShareError;
use archive_entries::Declined;
use archive_hand::{Archive, Sealed};
use base_commands::{Phrase, ShareFraction, ShareWords};
use base_types::Key;
use model_archive::{Refusal, Share, Sharing};
use plans_partitions::Table;
use plans_share::{Asked, Choice, Offer, combine, offer_for};
use plans_space::{Limits, limits_of};
use std::alloc::{AllocError, Global};

/// How one budget, the factor times the words' lists up to the last time, is best spent on plans of these
/// words, under the times for which the archive was asked for them. Nothing is stored or changed, and no
/// disk is asked.
///
/// `Refused`: for the first phrase that isn't one term, whose word no text has, or that has no posting before
/// the last time, with its number. `Memory`: an allocation failed.
/// Costs a sort of each word's times, what `plans_space::front` does for each word, and what
/// `plans_share::combine` does.
pub fn share(
    alloc: Global,
    archive: &Archive,
    words: &ShareWords,
    factor: ShareFraction,
) -> Result<Sharing, ShareError>
    // Whatever history it stands for: a refusal comes exactly where that has the cause (unless memory runs out), and what is told is of a
    // best choice.
    ensures refused { (h : History) → StandsFor archive.now h → (why : Refusal) (index : ℕ) → IsErrOf result (ShareError.Refused why index)
        → Shares archive.now.asked h words.now factor.fraction (RefusedIn why index) }
    ensures shares { (h : History) → StandsFor archive.now h
        → IfOk result (λ s. Shares archive.now.asked h words.now factor.fraction (Shared s.shares.items s.unit s.budget s.cost)) }
    // In step by what reads give, whatever lies in Pages, it is a step.
    ensures by_reads { (d : DiskState) (s : Store) → AreInStepBy d archive.now s
        → TakesBy s (items.Command (commands.Share factor words.now)) (shared result) d d archive.now }
{
    let sealed = match sealed_from(alloc, archive, words.as_slice(), 1) {
        Ok(sealed) => sealed,
        Err(error) => return Err(error),
    };
    match shared_of(alloc, archive, &sealed, factor) {
        Ok(sharing) => Ok(sharing),
        Err(_) => Err(ShareError::Memory),
    }
}

/// How one budget is best spent on some words.
fn shared_of(
    alloc: Global,
    archive: &Archive,
    sealed: &[Sealed],
    factor: ShareFraction,
) -> Result<Sharing, AllocError>
    requires few { length sealed.now ≤ 16 }
    requires plannable { All IsPlannable sealed.now }
    ensures { (horizon : ℕ) → All (EndsAt horizon) sealed.now → IfOk result (λ s. IsShared archive.now.asked horizon factor.fraction
        (sharers sealed.now) s.shares.items s.unit s.budget s.cost) }
{
    let limits = limits_of(factor.fraction(), postings(sealed));
    let offers = offers_for(alloc, archive.asked(), sealed, limits)?;
    let choice = combine(alloc, &offers, limits.budget as u64)?;
    let shares = shares_by(alloc, sealed, &offers, &choice)?;
    Ok(Sharing {
        shares,
        unit: limits.unit,
        budget: limits.budget as u64,
        cost: choice.cost,
    })
}

/// The words of phrases, of which the first has this number, each at its first place, with their lists.
fn sealed_from(
    alloc: Global,
    archive: &Archive,
    phrases: &[Phrase],
    number: u32,
) -> Result<Vec<Sealed>, ShareError>
    requires few { length phrases.now + number ≤ 17 }
    ensures refused { (h : History) → StandsFor archive.now h → (why : Refusal) (index : ℕ) → IsErrOf result (ShareError.Refused why index)
        → OfPhrases h number phrases.now (λ n because. (n ≡ index) × (because ≡ why)) (λ words. ⊥) }
    ensures sealed { (h : History) → StandsFor archive.now h
        → IfOk result (λ v. OfPhrases h number phrases.now (λ n because. ⊥) (λ words. words ≡ sharers v.items)) }
    ensures plannable { IfOk result (λ v. All IsPlannable v.items) }
    ensures horizon { (h : History) → StandsFor archive.now h → IfOk result (λ v. All (EndsAt (last_second h)) v.items) }
    ensures few { IfOk result (λ v. length v.items ≤ length phrases.now) }
{
    let Some((phrase, rest)) = phrases.split_first() else {
        return Ok(Vec::new(alloc));
    };
    let first = match archive.sealed(alloc, phrase) {
        Ok(sealed) => sealed,
        Err(Declined::Refused(why)) => return Err(ShareError::Refused { why, index: number }),
        Err(Declined::Memory) => return Err(ShareError::Memory),
    };
    let rest = match sealed_from(alloc, archive, rest, number + 1) {
        Ok(rest) => rest,
        Err(error) => return Err(error),
    };
    let words = with_first(alloc, first, rest)?;
    Ok(words)
}

/// A word in front of others, among which it doesn't count again.
fn with_first(alloc: Global, first: Sealed, rest: Vec<Sealed>) -> Result<Vec<Sealed>, AllocError>
    ensures { IfOk result (λ v. v.items ≡ first ∷ filter (stands_apart first.word) rest.items) }
{
    let word = first.word.clone()?;
    let mut words = Vec::new(alloc);
    words.push(first)?;
    let words = with_others(words, rest, &word)?;
    Ok(words)
}

/// Some words, and those others that aren't this word.
fn with_others(
    mut words: Vec<Sealed>,
    rest: Vec<Sealed>,
    word: &Key,
) -> Result<Vec<Sealed>, AllocError>
    ensures { IfOk result (λ v. v.items ≡ words.items ++ filter (stands_apart word.now) rest.items) }
{
    for sealed in rest {
        if sealed.word != *word {
            words.push(sealed)?;
        }
    }
    Ok(words)
}

/// How many postings the lists have together.
fn postings(sealed: &[Sealed]) -> u64
    requires few { length sealed.now ≤ 16 }
    requires plannable { All IsPlannable sealed.now }
    ensures value { result ≡ sum_by (λ s. length s.list.items) sealed.now }
    ensures bound { result < 2 ^ 43 }
{
    let mut postings = 0u64;
    for word in sealed {
        postings += word.list.len() as u64;
    }
    postings
}

/// What is offered for each of the words.
fn offers_for(
    alloc: Global,
    asked: &Asked,
    sealed: &[Sealed],
    limits: Limits,
) -> Result<Vec<Offer>, AllocError>
    requires plannable { All IsPlannable sealed.now }
    ensures offers { (horizon : ℕ) → All (EndsAt horizon) sealed.now
        → IfOk result (λ v. AreOffers asked.now horizon limits.unit (sharers sealed.now) v.items) }
    ensures long { IfOk result (λ v. length v.items ≡ length sealed.now) }
    ensures fronts { IfOk result (λ v. All (λ o. length o.front ≤ 4097) v.items) }
    ensures cheap { IfOk result (λ v. All AreCheap v.items) }
{
    let mut offers = Vec::new(alloc);
    for word in sealed {
        let offer = offered(alloc, asked, word, limits)?;
        offers.push(offer)?;
    }
    Ok(offers)
}

/// What is offered for a word.
fn offered(alloc: Global, asked: &Asked, word: &Sealed, limits: Limits) -> Result<Offer, AllocError>
    requires plannable { IsPlannable word.now }
    ensures offer { IfOk result
        (λ o. IsOffer (asked_in asked.now word.now.word) word.now.list.items word.now.horizon.seconds limits.unit o) }
    ensures few { IfOk result (λ o. length o.front ≤ 4097) }
    ensures cheap { IfOk result AreCheap }
{
    let table = Table::new(alloc, &word.list, word.horizon)?;
    let times = asked.times(alloc, &word.word)?;
    let offer = offer_for(alloc, &table, &times, limits)?;
    Ok(offer)
}

/// The shares that a choice gives.
fn shares_by(
    alloc: Global,
    sealed: &[Sealed],
    offers: &[Offer],
    choice: &Choice,
) -> Result<Vec<Share>, AllocError>
    requires picks { ArePicks offers.now choice.now.picks.items }
    requires long { length offers.now ≡ length sealed.now }
    ensures { IfOk result (λ v. v.items ≡ shares_of (sharers sealed.now) offers.now choice.now.picks.items) }
{
    let mut shares = Vec::new(alloc);
    for index in 0..sealed.len() {
        let word = sealed[index].word.clone()?;
        let taken = offers[index].point(choice.picks[index]);
        shares.push(Share { word, taken })?;
    }
    Ok(shares)
}
