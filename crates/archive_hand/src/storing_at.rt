//! A plan of another archive is stored in its own places.
ghost use Rattle.std.specs.Prelude.{◌≡◌, ◌⊎◌, ◌↔◌, ◌+◌, ◌<◌, ◌^◌, ◌++◌, ◌∷◌, [], length, All, IsTrue, IfOk, IsErrOf, IsOk};
ghost use Rattle.machine_model.specs.Causes.{Rose};
ghost use Rattle.journal_entries.specs.PlanSpelling.{plan_spelling};
ghost use Rattle.journal_entries.specs.declared.entry.Entry.TheVariants as entries;
ghost use Rattle.journal_entries.specs.declared.place.Place.{Place as PlainPlace};
ghost use Rattle.model_archive.specs.Histories.{History};
ghost use Rattle.model_archive.specs.Legal.{IsLegalEntry};
ghost use Rattle.model_archive.specs.Planning.{IsListUpTo};
ghost use Rattle.model_archive.specs.Worlds.{taken_in};
ghost use Rattle.archive_plans.specs.ReadyingAt.{IsUntaken};
ghost use Rattle.archive_hand.specs.Adding.{IsSpent};
ghost use Rattle.archive_hand.specs.Changing.{KeepsBy};
ghost use Rattle.archive_hand.specs.Jobs.{plain_job};
ghost use Rattle.archive_hand.specs.States.{AreInStepBy, CacheStands, Reaches, StandsFor};
ghost use Rattle.archive_hand.specs.Stored.{Store};
ghost use Rattle.archive_hand.specs.StoringAt.{HasOwnPlaces, IsPutBy};

use crate::archive::Archive;
use crate::storing::write_ready;
use archive_entries::Declined;
use archive_plans::{Untaken, ready_at};
use base_types::Posting;
use journal_entries::PlanEntry;
use machine_model::Disk;
use std::alloc::Global;

/// Why a plan with places of its own wasn't stored.
#[derive(Clone, Copy, Debug, PartialEq, Eq)]
pub enum PutError {
    /// One of its places is for other bytes, or isn't free; or the journal has no room. Nothing was changed.
    NoRoom,
    /// A call of the disk failed. The archive is spent: whether it has the plan shows when it is loaded again.
    Failed,
    /// There was no memory. The archive is spent; loaded again, it is as before.
    Memory,
}

impl Archive {
    /// Stores a legal plan in its own places, if they are for its sublists and free and the journal has room: first
    /// its sublists, and then its entry, which these bytes spell; and answers how many entries there are. It takes
    /// the place of its word's plan, if there is one. At `Ok` it is durable. All memory is taken before the first
    /// write.
    ///
    /// Costs what `Sublists::prepare_at` does; the sublists' bytes, hashed and written once; a sync; and two
    /// synced writes of the entry.
    pub fn store_at<D: Disk>(
        &mut self,
        alloc: Global,
        disk: &mut D,
        plan: PlanEntry,
        list: &[Posting],
        body: &[u8],
    ) -> Result<u64, PutError>
        requires live { IsTrue self.old.live }
        requires within { Reaches (D.disk disk.old).reach self.old }
        requires as_many { length plan.places ≡ length plan.cuts }
        requires proper { All (λ (p : PlainPlace). p.extent.bytes ≡ 0 → p.extent.first ≡ 0) plan.places }
        requires spelled { body.now ≡ plan_spelling plan }
        requires short { length body.now < 2 ^ 32 }
        requires legal { (h : History) → StandsFor self.old h → IsLegalEntry h (entries.Planned plan)
            × IsListUpTo h plan.word plan.horizon.seconds list.now }
        ensures only { D.Disk.only disk.old disk.new }
        ensures failed { IsErrOf result PutError.Failed → Rose (D.disk disk.old).faults (D.disk disk.new).faults }
        ensures within { Reaches (D.disk disk.new).reach self.new }
        ensures live { IsTrue self.new.live ↔ (IsOk result ⊎ IsErrOf result PutError.NoRoom) }
        ensures same { (IsErrOf result PutError.NoRoom ⊎ IsErrOf result PutError.Memory) → disk.new ≡ disk.old }
        ensures cached { D.disk_tells → CacheStands (D.disk disk.old) self.old → (IsOk result ⊎ IsErrOf result PutError.NoRoom)
            → CacheStands (D.disk disk.new) self.new }
        ensures spent { (IsErrOf result PutError.Memory ⊎ IsErrOf result PutError.Failed) → IsSpent self.old self.new }
        ensures unasked { self.new.asked ≡ self.old.asked }
        ensures idle { self.new.job ≡ self.old.job }
        ensures refused { (h : History) → StandsFor self.old h → IsErrOf result PutError.NoRoom
            → IsUntaken plan list.now (taken_in (plain_job self.old.job) h) self.old.end (length body.now) × StandsFor self.new h }
        ensures placed { (h : History) → StandsFor self.old h → (IsOk result ⊎ IsErrOf result PutError.Failed)
            → HasOwnPlaces (plain_job self.old.job) h plan list.now }
        ensures stores { (h : History) → StandsFor self.old h
            → IfOk result (λ n. StandsFor self.new (h ++ entries.Planned plan ∷ []) × (n ≡ length h + 1)) }
        // By what reads give, whatever lies in Pages: at Ok the plan comes behind the history; where the disk failed, all is as it was, or it does.
        ensures puts { D.disk_tells → (s : Store) → AreInStepBy (D.disk disk.old) self.old s →
            IfOk result (λ n. (next : Store)
            × (IsPutBy s next plan (D.disk disk.old) (D.disk disk.new) × AreInStepBy (D.disk disk.new) self.new next)) }
        ensures stops { D.disk_tells → (s : Store) → AreInStepBy (D.disk disk.old) self.old s → IsErrOf result PutError.Failed →
            KeepsBy s (D.disk disk.old) (D.disk disk.new) ⊎ ((next : Store) × IsPutBy s next plan (D.disk disk.old) (D.disk disk.new)) }
        ensures kept { D.disk_tells → (s : Store) → AreInStepBy (D.disk disk.old) self.old s → IsErrOf result PutError.NoRoom
            → AreInStepBy (D.disk disk.new) self.new s }
        ensures starved { D.disk_tells → (s : Store) → AreInStepBy (D.disk disk.old) self.old s → IsErrOf result PutError.Memory
            → KeepsBy s (D.disk disk.old) (D.disk disk.new) }
    {
        let ready = match ready_at(
            alloc,
            self.journal.end(),
            self.entries,
            &mut self.shelf,
            plan,
            list,
            body,
        ) {
            Ok(ready) => ready,
            Err(Untaken::NoRoom) => return Err(PutError::NoRoom),
            Err(Untaken::Memory) => {
                self.give_up(Declined::Memory);
                return Err(PutError::Memory);
            }
        };
        self.live = false;
        match write_ready(disk, &mut self.journal, &mut self.shelf, ready) {
            Ok(_) => {
                self.entries += 1;
                self.live = true;
                Ok(self.entries)
            }
            Err(_) => Err(PutError::Failed),
        }
    }
}
