//! Plans that are made ready to be stored.
ghost use Rattle.std.specs.Prelude.{◌≡◌, ◌+◌, ◌<◌, ◌≤◌, ◌^◌, ◌++◌, List, length, IfOk, OnOk, OnErr, IsErrOf};
ghost use Rattle.journal_gates.specs.Records.{gate_bytes, new_bytes};
ghost use Rattle.base_types.specs.Limits.{limit_of};
ghost use Rattle.base_types.specs.declared.extent.Extent.{Extent as PlainExtent};
ghost use Rattle.pages_area.specs.Taken.{HasTaken};
ghost use Rattle.lists_postings.specs.Lists.{IsList};
ghost use Rattle.plans_kinds.specs.Plans.{IsGoodPlan, plan_space};
ghost use Rattle.pages_sublists.specs.Preparing.{extents};
ghost use Rattle.journal_entries.specs.PlanSpelling.{plan_spelling};
ghost use Rattle.archive_plans.specs.Readying.{IsReady, IsFull, HasPlaces, plan_with, tells_of};

use crate::shelf::Shelf;
use archive_entries::{Declined, full_journal};
use base_commands::Kind;
use base_types::{Fraction, Key, Posting, Time, Which};
use journal_entries::{Layout, Listed, Place, PlanEntry, encode_plan};
use journal_gates::{Frame, GATE_BYTES};
use model_archive::{Refusal, StoredPlan, Summary};
use pages_area::TakeError;
use pages_sublists::Prepared;
use std::alloc::Global;

/// A plan of a word's list up to the last time that is what its kind promises, of which nothing is stored yet.
#[derive(Drop)]
pub struct Draft {
    /// The word.
    pub word: Key,
    /// What it keeps to.
    pub kind: Kind,
    /// The factor of its bound: on each read, or on the space.
    pub factor: Fraction,
    /// The word's list up to the horizon.
    pub list: Vec<Posting>,
    /// The horizon, which is the last time.
    pub horizon: Time,
    /// Where each segment begins, in order.
    pub cuts: Vec<Time>,
    /// The sizes of the segments' sublists added up, in postings.
    pub space: u64,
    /// What its reads are expected to cost, as a `Summary` tells it.
    pub cost: Option<u128>,
}

/// A plan whose sublists and whose entry are ready to be written.
#[derive(Drop)]
pub struct Ready {
    /// The plan with its places, and the gate that its entry will have.
    pub stored: StoredPlan,
    /// Its entry's body, as the journal takes it.
    pub frame: Frame,
    /// The length of its entry's body, in bytes.
    pub bytes: u64,
    /// Its sublists, spelled, with their places.
    pub prepared: Prepared,
    /// What will be told of it.
    pub summary: Summary,
}

/// Takes the pages of a draft's sublists and spells its entry, if the journal, which ends there behind so
/// many entries, has room for it. Where there is none, or no memory, the pages are free again.
///
/// `Refused`: Pages have no run that is long enough, or the journal has no room. `Memory`: an allocation failed.
/// Costs what `Shelf::prepare` does, and the entry's length.
pub fn make_ready(
    alloc: Global,
    end: u64,
    count: u64,
    shelf: &mut Shelf,
    draft: Draft,
) -> Result<Ready, Declined>
    requires list { IsList draft.list.items }
    requires taken { (taken : List PlainExtent) × HasTaken shelf.old.pages taken }
    requires good { IsGoodPlan draft.kind draft.list.items draft.factor draft.cuts.items draft.horizon.seconds }
    requires space { draft.space ≡ plan_space draft.list.items draft.cuts.items draft.horizon.seconds }
    requires low { new_bytes ≤ end }
    requires high { end ≤ 2 ^ 40 }
    requires few { count < 2 ^ 40 }
    ensures plans { shelf.new.plans ≡ shelf.old.plans }
    ensures cache { shelf.new.cache ≡ shelf.old.cache }
    ensures ready { IfOk result (λ r. IsReady draft end count r) }
    ensures placed { (taken : List PlainExtent) → HasTaken shelf.old.pages taken
        → IfOk result (λ r. HasPlaces draft taken r.prepared.places) }
    ensures taken { (taken : List PlainExtent) → HasTaken shelf.old.pages taken
        → IfOk result (λ r. HasTaken shelf.new.pages (extents r.prepared.places ++ taken)) }
    ensures room { OnOk result (2 ≤ shelf.new.room) }
    ensures more { shelf.old.room ≤ shelf.new.room }
    ensures none { (taken : List PlainExtent) → HasTaken shelf.old.pages taken → OnErr result (HasTaken shelf.new.pages taken) }
    ensures full { (taken : List PlainExtent) → HasTaken shelf.old.pages taken → (why : Refusal) → IsErrOf result (Declined.Refused why)
        → IsFull draft taken end why }
{
    shelf.make_room()?;
    let prepared = match shelf.prepare(alloc, &draft.list, &draft.cuts, draft.horizon) {
        Ok(prepared) => prepared,
        Err(TakeError::Full) => return Err(Declined::Refused(full_pages())),
        Err(TakeError::Memory) => return Err(Declined::Memory),
    };
    let summary = summary_of(&draft, count);
    match spell_entry(alloc, end, draft, prepared.places()) {
        Ok(spelled) => Ok(Ready {
            stored: StoredPlan {
                gate: end - 1,
                plan: spelled.plan,
            },
            frame: spelled.frame,
            bytes: spelled.bytes,
            prepared,
            summary,
        }),
        Err(why) => {
            shelf.forget(prepared);
            Err(why)
        }
    }
}

/// What is told of a draft, behind so many entries.
fn summary_of(draft: &Draft, count: u64) -> Summary
    requires few { count < 2 ^ 40 }
    requires space { draft.now.space ≡ plan_space draft.now.list.items draft.now.cuts.items draft.now.horizon.seconds }
    ensures { result ≡ tells_of draft.now (count + 1) }
{
    Summary {
        length: count + 1,
        segments: draft.cuts.len() as u64,
        space: draft.space,
        full: draft.list.len() as u64,
        horizon: draft.horizon,
        cost: draft.cost,
    }
}

/// The refusal of a plan for which Pages have no room.
fn full_pages() -> Refusal
    ensures { result ≡ Refusal.Full Which.Pages (limit_of Which.Pages) }
{
    Refusal::Full {
        which: Which::Pages,
        limit: Which::Pages.limit(),
    }
}

/// A plan with its entry's frame.
#[derive(Drop)]
struct Spelled {
    plan: PlanEntry,
    frame: Frame,
    bytes: u64,
}

/// The entry of a draft with these places, if the journal, which ends there, has room for it.
fn spell_entry(alloc: Global, end: u64, draft: Draft, places: &[Place]) -> Result<Spelled, Declined>
    requires good { IsGoodPlan draft.kind draft.list.items draft.factor draft.cuts.items draft.horizon.seconds }
    requires many { length places.now ≡ length draft.cuts.items }
    requires high { end ≤ 2 ^ 40 }
    ensures plan { IfOk result (λ s. s.plan ≡ plan_with draft places.now) }
    ensures frame { IfOk result (λ s. s.frame ≡ plan_spelling s.plan) }
    ensures bytes { IfOk result (λ s. s.bytes ≡ length s.frame) }
    ensures fits { IfOk result (λ s. end + gate_bytes + length s.frame ≤ limit_of Which.Journal) }
    ensures full { (why : Refusal) → IsErrOf result (Declined.Refused why)
        → (limit_of Which.Journal < end + gate_bytes + length (plan_spelling (plan_with draft places.now)))
        × (why ≡ Refusal.Full Which.Journal (limit_of Which.Journal)) }
{
    let places = Vec::from_slice(alloc, places)?;
    let plan = PlanEntry {
        word: draft.word,
        layout: Layout::Blocks,
        kind: draft.kind,
        fraction: draft.factor,
        horizon: draft.horizon,
        cuts: Listed::new(draft.cuts),
        places: Listed::new(places),
    };
    let body = encode_plan(alloc, &plan)?;
    let bytes = body.len() as u64;
    if Which::Journal.limit() < end + GATE_BYTES + bytes {
        return Err(Declined::Refused(full_journal()));
    }
    let frame = Frame::new(alloc, &body)?;
    Ok(Spelled { plan, frame, bytes })
}
