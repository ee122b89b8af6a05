//! A plan is stored: its sublists are put down, and then its entry.
ghost use Rattle.std.specs.Prelude.{ℕ, ◌≡◌, ◌+◌, ◌≤◌, ◌^◌, ◌++◌, ◌∷◌, [], List, length, All, IsTrue, IfOk, OnOk, OnErr, ◌⊎◌, ◌↔◌, ◌<◌, Ok, Err, IsErrOf};
ghost use Rattle.journal_gates.specs.Records.{gate_bytes};
ghost use Rattle.machine_model.specs.Causes.{Rose};
ghost use Rattle.base_types.specs.declared.extent.Extent.{Extent as PlainExtent};
ghost use Rattle.journal_entries.specs.declared.place.Place.{Place as PlainPlace};
ghost use Rattle.journal_gates.specs.InStep.{IsInStep};
ghost use Rattle.pages_area.specs.Caches.{Kept, StandsFor as IsCacheOf};
ghost use Rattle.pages_area.specs.Live.{IsInside};
ghost use Rattle.pages_area.specs.Runs.{IsTaken};
ghost use Rattle.pages_area.specs.Taken.{HasTaken};
ghost use Rattle.pages_area.specs.Wrote.{extents_of};
ghost use Rattle.pages_sublists.specs.Preparing.{extents, pieces};
ghost use Rattle.model_archive.specs.Plans.{with_plan};
ghost use Rattle.model_archive.specs.Worlds.{taken_in};
ghost use Rattle.archive_hand.specs.Jobs.{plain_job};
ghost use Rattle.archive_plans.specs.Shelves.{extents_all};
ghost use Rattle.archive_hand.specs.Storing.{HasPutDown, HasStopped, IsDraft, IsStoredAs, IsStoredBy};
ghost use Rattle.model_archive.specs.Histories.{History};
ghost use Rattle.journal_entries.specs.declared.plan.PlanEntry.{PlanEntry};
ghost use Rattle.archive_plans.specs.Readying.{IsFull, tells_of};
ghost use Rattle.archive_hand.specs.States.{StandsFor, CacheStands, AreInStepBy, Reaches};
ghost use Rattle.archive_hand.specs.Changing.{KeepsBy};
ghost use Rattle.archive_hand.specs.Stored.{Store};
ghost use Rattle.archive_hand.specs.Adding.{IsDone, IsSpent};
ghost use Rattle.journal_entries.specs.declared.entry.Entry.TheVariants as entries;

use crate::archive::Archive;
use crate::error::ChangeError;
use archive_plans::{Draft, Ready, Shelf, make_ready};
use journal_gates::{AppendError, Frame, Journal};
use machine_model::{Disk, Failed};
use model_archive::{Refusal, Summary};
use pages_sublists::{Prepared, Sublists};
use std::alloc::Global;

impl Archive {
    /// Stores a plan that was drafted, if there is room for it: first its sublists, and then its entry. It
    /// takes the place of its word's plan, if there is one. At `Ok` it is durable. All memory is taken
    /// before the first write.
    ///
    /// `Refused`: Pages or the journal are full. `Failed`, `Memory`: the archive is spent, and keeps what it
    /// had.
    /// Costs what `Sublists::prepare` does; the sublists' bytes, hashed and written once; a sync; and two
    /// synced writes of the entry.
    pub fn store<D: Disk>(
        &mut self,
        alloc: Global,
        disk: &mut D,
        draft: Draft,
    ) -> Result<Summary, ChangeError>
        requires live { IsTrue self.old.live }
        requires within { Reaches (D.disk disk.old).reach self.old }
        requires drafted { (h : History) → StandsFor self.old h → IsDraft h draft }
        ensures only { D.Disk.only disk.old disk.new }
        ensures failed { IsErrOf result ChangeError.Failed → Rose (D.disk disk.old).faults (D.disk disk.new).faults }
        ensures within { Reaches (D.disk disk.new).reach self.new }
        ensures live { IsTrue self.new.live ↔ IsDone result }
        ensures same { (why : Refusal) → IsErrOf result (ChangeError.Refused why) → disk.new ≡ disk.old }
        ensures memory { IsErrOf result ChangeError.Memory → disk.new ≡ disk.old }
        ensures cached { D.disk_tells → CacheStands (D.disk disk.old) self.old → IsDone result → CacheStands (D.disk disk.new) self.new }
        ensures spent { (IsErrOf result ChangeError.Memory ⊎ IsErrOf result ChangeError.Failed) → IsSpent self.old self.new }
        ensures unasked { self.new.asked ≡ self.old.asked }
        ensures idle { self.new.job ≡ self.old.job }
        ensures refused { (h : History) → StandsFor self.old h → (why : Refusal) → IsErrOf result (ChangeError.Refused why)
            → IsFull draft (taken_in (plain_job self.old.job) h) self.old.end why × StandsFor self.new h }
        ensures stores { (h : History) → StandsFor self.old h
            → IfOk result (λ r. (plan : PlanEntry)
            × (IsStoredAs (plain_job self.old.job) h draft plan × (r ≡ tells_of draft (length h + 1))
            × StandsFor self.new (h ++ entries.Planned plan ∷ []))) }
        // By what reads give, whatever lies in Pages: at Ok the draft's plan comes behind the history; where the disk failed, all is as it was, or it does.
        ensures puts { D.disk_tells → (s : Store) → AreInStepBy (D.disk disk.old) self.old s →
            IfOk result (λ r. (next : Store)
            × (IsStoredBy s next draft (D.disk disk.old) (D.disk disk.new) × (r ≡ tells_of draft (length s.history + 1))
            × AreInStepBy (D.disk disk.new) self.new next)) }
        ensures stops { D.disk_tells → (s : Store) → AreInStepBy (D.disk disk.old) self.old s → IsErrOf result ChangeError.Failed →
            KeepsBy s (D.disk disk.old) (D.disk disk.new) ⊎ ((next : Store) × IsStoredBy s next draft (D.disk disk.old) (D.disk disk.new)) }
        ensures stays { (h : History) → StandsFor self.old h → ((why : Refusal) × IsErrOf result (ChangeError.Refused why))
            ⊎ IsErrOf result ChangeError.Memory → StandsFor self.new h }
    {
        let ready = match make_ready(
            alloc,
            self.journal.end(),
            self.entries,
            &mut self.shelf,
            draft,
        ) {
            Ok(ready) => ready,
            Err(why) => return Err(self.give_up(why)),
        };
        self.live = false;
        match write_ready(disk, &mut self.journal, &mut self.shelf, ready) {
            Ok(summary) => {
                self.entries += 1;
                self.live = true;
                Ok(summary)
            }
            Err(_) => Err(ChangeError::Failed),
        }
    }
}

/// Writes what is ready, first the sublists and then the entry; the plan takes the place of the one that its
/// word had, whose pages are free only then. Takes no memory.
pub(crate) fn write_ready<D: Disk>(
    disk: &mut D,
    journal: &mut Journal,
    shelf: &mut Shelf,
    ready: Ready,
) -> Result<Summary, Failed>
    requires live { IsTrue journal.old.live }
    requires fits { journal.old.end + gate_bytes + length ready.frame ≤ 2 ^ 40 }
    requires room { 1 ≤ shelf.old.room }
    requires places { ready.stored.plan.places ≡ ready.prepared.places }
    requires taken { (more : List PlainExtent)
        × HasTaken shelf.old.pages (extents ready.prepared.places ++ (more ++ extents_all shelf.old.plans)) }
    ensures only { D.Disk.only disk.old disk.new }
    ensures failed { OnErr result (Rose (D.disk disk.old).faults (D.disk disk.new).faults) }
    ensures summary { IfOk result (λ r. r ≡ ready.summary) }
    ensures live { OnOk result (IsTrue journal.new.live) }
    ensures end { OnOk result (journal.new.end ≡ journal.old.end + gate_bytes + length ready.frame) }
    ensures reached { OnOk result (journal.new.end ≤ (D.disk disk.new).reach.journal) }
    ensures inside { OnOk result (All (λ (p : PlainPlace). IsInside (D.disk disk.new).reach.pages p.extent) ready.prepared.places) }
    ensures plans { OnOk result (shelf.new.plans ≡ with_plan shelf.old.plans ready.stored) }
    ensures room { OnOk result (shelf.old.room ≤ shelf.new.room + 1) }
    ensures pages { (more : List PlainExtent)
        → HasTaken shelf.old.pages (extents ready.prepared.places ++ (more ++ extents_all shelf.old.plans))
        → OnOk result (HasTaken shelf.new.pages (more ++ extents_all shelf.new.plans)) }
    ensures cached { D.disk_tells → IsCacheOf shelf.old.cache (D.disk disk.old).holds.pages
        → OnOk result (IsCacheOf shelf.new.cache (D.disk disk.new).holds.pages) }
    ensures others { D.disk_tells → (ks : List Kept) → All (λ k. IsTaken (extents_of (pieces ready.prepared)) k.page → ⊥) ks
        → IsCacheOf ks (D.disk disk.old).holds.pages → OnOk result (IsCacheOf ks (D.disk disk.new).holds.pages) }
    ensures spent { OnErr result ((journal.new.end ≡ journal.old.end) × (shelf.new.plans ≡ shelf.old.plans)
        × (shelf.new.cache ≡ shelf.old.cache) × (shelf.new.room ≡ shelf.old.room)) }
    ensures freed { (live : List PlainExtent) → HasTaken shelf.old.pages (extents ready.prepared.places ++ live)
        → OnErr result (HasTaken shelf.new.pages live) }
    // Whatever lies in Pages: what each image left since has.
    ensures puts { D.disk_tells → (bodies : List (List ℕ)) → IsInStep (D.disk disk.old) journal.old.end bodies
        → OnOk result (HasPutDown bodies ready.frame (pieces ready.prepared) (D.disk disk.old) (D.disk disk.new)) }
    ensures stops { D.disk_tells → (bodies : List (List ℕ)) → IsInStep (D.disk disk.old) journal.old.end bodies
        → OnErr result (HasStopped bodies ready.frame (pieces ready.prepared) (D.disk disk.old) (D.disk disk.new)) }
    ensures entered { D.disk_tells → (bodies : List (List ℕ)) → IsInStep (D.disk disk.old) journal.old.end bodies
        → OnOk result (IsInStep (D.disk disk.new) journal.new.end (bodies ++ ready.frame ∷ [])) }
{
    let Ready {
        stored,
        frame,
        prepared,
        summary,
        ..
    } = ready;
    match put_down(disk, journal, shelf.sublists(), &frame, &prepared) {
        Ok(()) => {
            shelf.put(stored, prepared);
            Ok(summary)
        }
        Err(failed) => {
            shelf.forget(prepared);
            Err(failed)
        }
    }
}

/// Writes sublists and makes them durable, and then appends an entry.
fn put_down<D: Disk>(
    disk: &mut D,
    journal: &mut Journal,
    sublists: &Sublists,
    frame: &Frame,
    prepared: &Prepared,
) -> Result<(), Failed>
    requires live { IsTrue journal.old.live }
    requires fits { journal.old.end + gate_bytes + length frame.now ≤ 2 ^ 40 }
    requires taken { (live : List PlainExtent) × HasTaken sublists.now.pages (extents prepared.now.places ++ live) }
    requires unkept { All (λ k. IsTaken (extents prepared.now.places) k.page → ⊥) sublists.now.cache }
    ensures only { D.Disk.only disk.old disk.new }
    ensures failed { OnErr result (Rose (D.disk disk.old).faults (D.disk disk.new).faults) }
    ensures live { OnOk result (IsTrue journal.new.live) }
    ensures end { OnOk result (journal.new.end ≡ journal.old.end + gate_bytes + length frame.now) }
    ensures reached { OnOk result (journal.new.end ≤ (D.disk disk.new).reach.journal) }
    ensures inside { OnOk result (All (λ (p : PlainPlace). IsInside (D.disk disk.new).reach.pages p.extent) prepared.now.places) }
    ensures spent { OnErr result (journal.new.end ≡ journal.old.end) }
    ensures cached { D.disk_tells → IsCacheOf sublists.now.cache (D.disk disk.old).holds.pages
        → OnOk result (IsCacheOf sublists.now.cache (D.disk disk.new).holds.pages) }
    // Pages of others are as reads gave them.
    ensures others { D.disk_tells → (ks : List Kept) → All (λ k. IsTaken (extents_of (pieces prepared.now)) k.page → ⊥) ks
        → IsCacheOf ks (D.disk disk.old).holds.pages → OnOk result (IsCacheOf ks (D.disk disk.new).holds.pages) }
    // Whatever lies in Pages: what each image left since has.
    ensures puts { D.disk_tells → (bodies : List (List ℕ)) → IsInStep (D.disk disk.old) journal.old.end bodies
        → OnOk result (HasPutDown bodies frame.now (pieces prepared.now) (D.disk disk.old) (D.disk disk.new)) }
    ensures stops { D.disk_tells → (bodies : List (List ℕ)) → IsInStep (D.disk disk.old) journal.old.end bodies
        → OnErr result (HasStopped bodies frame.now (pieces prepared.now) (D.disk disk.old) (D.disk disk.new)) }
    ensures entered { D.disk_tells → (bodies : List (List ℕ)) → IsInStep (D.disk disk.old) journal.old.end bodies
        → OnOk result (IsInStep (D.disk disk.new) journal.new.end (bodies ++ frame.now ∷ [])) }
{
    sublists.write(disk, prepared)?;
    match journal.append(disk, frame) {
        Ok(_) => Ok(()),
        Err(AppendError::Failed) => Err(Failed),
        Err(AppendError::Full) => Ok(()),
    }
}
