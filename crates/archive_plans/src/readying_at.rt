//! A plan with places of its own that is made ready to be stored.
ghost use Rattle.std.specs.Prelude.{◌≡◌, ◌+◌, ◌<◌, ◌≤◌, ◌^◌, ◌++◌, List, length, All, IfOk, OnOk, OnErr, IsErrOf};
ghost use Rattle.journal_gates.specs.Records.{new_bytes};
ghost use Rattle.base_types.specs.declared.extent.Extent.{Extent as PlainExtent};
ghost use Rattle.journal_entries.specs.PlanSpelling.{plan_spelling};
ghost use Rattle.journal_entries.specs.declared.place.Place.{Place as PlainPlace};
ghost use Rattle.lists_postings.specs.Lists.{IsList};
ghost use Rattle.pages_area.specs.Taken.{HasTaken};
ghost use Rattle.pages_sublists.specs.Preparing.{extents};
ghost use Rattle.archive_plans.specs.ReadyingAt.{IsReadyAt, IsUntaken};

use crate::readying::Ready;
use crate::shelf::Shelf;
use base_types::{Posting, Which};
use journal_entries::PlanEntry;
use journal_gates::{Frame, GATE_BYTES};
use model_archive::{StoredPlan, Summary};
use pages_sublists::PlaceError;
use std::alloc::Global;

/// Why a plan with places of its own isn't made ready.
#[derive(Clone, Copy, Debug, PartialEq, Eq)]
pub enum Untaken {
    /// One of its places is for other bytes than its sublist, or shares a page with what is taken or with an
    /// earlier one; or the journal has no room for its entry.
    NoRoom,
    /// There was no memory.
    Memory,
}

/// Takes a plan's own places for its sublists, if they are for them and free and the journal, which ends there
/// behind so many entries, has room for its entry, which these bytes spell. Where it isn't made ready, the pages
/// are free again.
///
/// Costs what `Shelf::prepare_at` does, and the entry's length.
pub fn ready_at(
    alloc: Global,
    end: u64,
    count: u64,
    shelf: &mut Shelf,
    plan: PlanEntry,
    list: &[Posting],
    body: &[u8],
) -> Result<Ready, Untaken>
    requires list { IsList list.now }
    requires as_many { length plan.places ≡ length plan.cuts }
    requires proper { All (λ (p : PlainPlace). p.extent.bytes ≡ 0 → p.extent.first ≡ 0) plan.places }
    requires spelled { body.now ≡ plan_spelling plan }
    requires short { length body.now < 2 ^ 32 }
    requires taken { (taken : List PlainExtent) × HasTaken shelf.old.pages taken }
    requires low { new_bytes ≤ end }
    requires high { end ≤ 2 ^ 40 }
    requires few { count < 2 ^ 40 }
    ensures plans { shelf.new.plans ≡ shelf.old.plans }
    ensures cache { shelf.new.cache ≡ shelf.old.cache }
    ensures ready { IfOk result (λ r. IsReadyAt plan list.now body.now end r) }
    ensures taken { (taken : List PlainExtent) → HasTaken shelf.old.pages taken
        → IfOk result (λ r. HasTaken shelf.new.pages (extents r.prepared.places ++ taken)) }
    ensures room { OnOk result (2 ≤ shelf.new.room) }
    ensures more { shelf.old.room ≤ shelf.new.room }
    ensures none { (taken : List PlainExtent) → HasTaken shelf.old.pages taken → OnErr result (HasTaken shelf.new.pages taken) }
    ensures refused { (taken : List PlainExtent) → HasTaken shelf.old.pages taken → IsErrOf result Untaken.NoRoom
        → IsUntaken plan list.now taken end (length body.now) }
{
    if Which::Journal.limit() < end + GATE_BYTES + body.len() as u64 {
        return Err(Untaken::NoRoom);
    }
    if shelf.make_room().is_err() {
        return Err(Untaken::Memory);
    }
    let Ok(frame) = Frame::new(alloc, body) else {
        return Err(Untaken::Memory);
    };
    let prepared = match shelf.prepare_at(alloc, &plan, list) {
        Ok(prepared) => prepared,
        Err(PlaceError::Memory) => return Err(Untaken::Memory),
        Err(_) => return Err(Untaken::NoRoom),
    };
    // Nobody is told of a plan that is taken: its cost and space aren't looked at.
    let summary = Summary {
        length: count + 1,
        segments: plan.cuts.as_slice().len() as u64,
        space: 0,
        full: list.len() as u64,
        horizon: plan.horizon,
        cost: None,
    };
    Ok(Ready {
        stored: StoredPlan {
            gate: end - 1,
            plan,
        },
        frame,
        bytes: body.len() as u64,
        prepared,
        summary,
    })
}
