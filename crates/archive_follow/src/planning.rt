//! A plan of another archive is taken.
ghost use Rattle.std.specs.Prelude.{◌≡◌, ◌↔◌, ◌<◌, None, All, IfOk, IsTrue, option_map};
ghost use Rattle.journal_entries.specs.PlanSpelling.{IsPlanEntry, plan_spelling};
ghost use Rattle.model_archive.specs.Histories.{History};
ghost use Rattle.model_archive.specs.Planning.{last_second};
ghost use Rattle.archive_hand.specs.States.{AreInStepBy, Reaches, StandsFor};
ghost use Rattle.archive_hand.specs.Stored.{Store};
ghost use Rattle.archive_follow.specs.Taken.{AfterTaking, ComesBehind, IsBeforeLive, IsFoundOf, IsProper, TakesBody, TakesBy, as_put};

use crate::error::TakeEntryError;
use archive_entries::{Declined, are_many};
use archive_hand::{Archive, PutError};
use base_types::{Posting, Time};
use journal_entries::{Place, PlanEntry};
use machine_model::Disk;
use model_follow::what_runs_make_can_be_followed;
use plans_choice::is_good;
use std::alloc::{AllocError, Global};

/// Takes a plan that was read from these bytes: it is tested, and stored in its own places.
pub(crate) fn take_plan<D: Disk>(
    alloc: Global,
    disk: &mut D,
    archive: &mut Archive,
    plan: PlanEntry,
    body: &[u8],
) -> Result<u64, TakeEntryError>
    requires live { IsTrue archive.old.live }
    requires within { Reaches (D.disk disk.old).reach archive.old }
    requires ranges { IsPlanEntry plan }
    requires spelled { body.now ≡ plan_spelling plan }
    ensures only { D.Disk.only disk.old disk.new }
    ensures after { AfterTaking D.disk_tells (disk.new ≡ disk.old) result (D.disk disk.old) (D.disk disk.new) archive.old archive.new }
    ensures stands { (h : History) → StandsFor archive.old h → ComesBehind h body.now result archive.new }
    ensures takes { (h : History) → StandsFor archive.old h → archive.old.job ≡ None → TakesBody h body.now result archive.new }
    ensures by_reads { D.disk_tells → (s : Store) → AreInStepBy (D.disk disk.old) archive.old s → s.job ≡ None
        → TakesBy s body.now result (D.disk disk.old) (D.disk disk.new) archive.new }
{
    what_runs_make_can_be_followed();
    if !are_proper(plan.places.as_slice()) {
        return Err(TakeEntryError::NotNext);
    }
    match list_for(alloc, archive, &plan) {
        Ok(Some(list)) => put(archive.store_at(alloc, disk, plan, &list, body)),
        Ok(None) => Err(TakeEntryError::NotNext),
        Err(_) => {
            archive.give_up(Declined::Memory);
            Err(TakeEntryError::Memory)
        }
    }
}

/// The list of a plan's word up to its horizon, where the plan may come next but for its places and the
/// journal's room: its horizon isn't after the last time, nor before that of the word's live plan; the list isn't
/// empty; and the plan is what its kind promises.
fn list_for(
    alloc: Global,
    archive: &Archive,
    plan: &PlanEntry,
) -> Result<Option<Vec<Posting>>, AllocError>
    requires ranges { IsPlanEntry plan.now }
    ensures { (h : History) → StandsFor archive.now h → IfOk result (λ o. IsFoundOf h plan.now (option_map (λ l. l.items) o)) }
{
    if is_late(archive, plan) || is_before_live(archive, plan) {
        return Ok(None);
    }
    let list = archive.list_until(alloc, &plan.word, plan.horizon)?;
    if list.is_empty() {
        return Ok(None);
    }
    if are_many(&list) {
        return Err(AllocError);
    }
    let good = is_good(
        alloc,
        &list,
        plan.kind,
        plan.fraction,
        plan.cuts.as_slice(),
        plan.horizon,
    )?;
    Ok(if good { Some(list) } else { None })
}

/// Whether a plan's horizon is after the last time. Constant cost.
fn is_late(archive: &Archive, plan: &PlanEntry) -> bool
    ensures { (h : History) → StandsFor archive.now h → IsTrue result ↔ (last_second h < plan.now.horizon.seconds) }
{
    match archive.directory().last() {
        Some(last) => is_before(last, plan.horizon),
        None => plan.horizon.seconds() > 0,
    }
}

/// Whether a plan's horizon lies before that of its word's live plan. Costs the plans in front of that.
fn is_before_live(archive: &Archive, plan: &PlanEntry) -> bool
    ensures { (h : History) → StandsFor archive.now h → IsTrue result ↔ IsBeforeLive h plan.now }
{
    match archive.shelf().plan_of(&plan.word) {
        Some(live) => is_before(plan.horizon, live.plan.horizon),
        None => false,
    }
}

/// Whether a time lies before another one.
fn is_before(at: Time, other: Time) -> bool
    ensures { IsTrue result ↔ (at.seconds < other.seconds) }
{
    at.seconds() < other.seconds()
}

/// Whether each place without bytes is at page 0. Costs the places.
fn are_proper(places: &[Place]) -> bool
    ensures { IsTrue result ↔ All IsProper places.now }
{
    places
        .iter()
        .all(|place| place.extent.bytes > 0 || place.extent.first == 0)
}

/// What comes of a plan by what came of storing it.
fn put(stored: Result<u64, PutError>) -> Result<u64, TakeEntryError>
    ensures { result ≡ as_put stored }
{
    match stored {
        Ok(length) => Ok(length),
        Err(PutError::NoRoom) => Err(TakeEntryError::NotNext),
        Err(PutError::Failed) => Err(TakeEntryError::Failed),
        Err(PutError::Memory) => Err(TakeEntryError::Memory),
    }
}
