//! Batches of changes that are made together with the journal's entry.
ghost use Rattle.std.specs.Prelude.{◌≡◌, ◌⊎◌, ◌↔◌, ◌+◌, ◌<◌, ◌≤◌, ◌^◌, ◌++◌, [], ◌∷◌, ℕ, List, length, Ok, Err, IsTrue, IfOk, OnOk, IsOk, IsErrOf};
ghost use Rattle.journal_gates.specs.Records.{gate_bytes};
ghost use Rattle.machine_model.specs.Causes.{Rose};
ghost use Rattle.base_types.specs.Limits.{limit_of};
ghost use Rattle.journal_gates.specs.InStep.{IsInStep};
ghost use Rattle.journal_gates.specs.Crash.{Appends, KeepsPages};
ghost use Rattle.model_archive.specs.Histories.{History};
ghost use Rattle.archive_hand.specs.States.{StandsFor, CacheStands, Reaches};
ghost use Rattle.base_commands.specs.Batches.{texts_bytes};
ghost use Rattle.journal_entries.specs.declared.act.Act.{Act};
ghost use Rattle.archive_hand.specs.Adding.{IsDone, IsSpentBut};
ghost use Rattle.archive_entries.specs.Batches.{EachMayFollow, IsNextBatch, IsPreparedBatch};
ghost use Rattle.journal_entries.specs.declared.entry.Entry.TheVariants as entries;

use crate::archive::Archive;
use crate::error::ChangeError;
use archive_entries::{
    BatchDeclined, PreparedBatch, full_journal, note_all, prepare_batch, take_in_all,
};
use base_commands::BatchItem;
use base_types::Which;
use journal_gates::{Frame, GATE_BYTES};
use machine_model::Disk;
use model_archive::Refusal;
use std::alloc::Global;

impl Archive {
    /// A batch that may come next, or why it may not. Nothing is changed.
    ///
    /// Costs what `prepare_batch` does.
    pub fn batch(
        &mut self,
        alloc: Global,
        items: &[BatchItem],
    ) -> Result<PreparedBatch, BatchDeclined>
        requires sized { (1 ≤ length items.now) × (length items.now ≤ 1000) }
        requires short { texts_bytes items.now ≤ 16777216 }
        ensures same { self.new ≡ self.old }
        ensures fits { IfOk result (λ p. length p.body.items < 2 ^ 32) }
        ensures allowed { IfOk result (λ p. EachMayFollow self.old.changes p.changes.items) }
        ensures prepared { (h : History) → StandsFor self.old h → IsPreparedBatch h items.now result }
    {
        prepare_batch(
            alloc,
            &self.directory,
            &mut self.index,
            self.marked,
            self.journal.end(),
            items,
        )
    }

    /// Makes the changes of a batch that may come next, all at once, if the journal has room for its entry, and
    /// answers how many entries there are. At `Ok` it is durable.
    ///
    /// `Refused`: the journal is full; nothing was changed. `Failed`, `Memory`: the archive is spent, and keeps
    /// its entries, its texts and its plans; what it tells of words isn't claimed.
    /// Costs two synced writes, and for each act what `Index::take_in` does.
    pub fn commit_batch<D: Disk>(
        &mut self,
        alloc: Global,
        disk: &mut D,
        prepared: PreparedBatch,
    ) -> Result<u64, ChangeError>
        requires live { IsTrue self.old.live }
        requires within { Reaches (D.disk disk.old).reach self.old }
        requires fits { length prepared.body.items < 2 ^ 32 }
        requires allowed { EachMayFollow self.old.changes prepared.changes.items }
        requires next { (h : History) → StandsFor self.old h → (batch : List Act) × IsNextBatch h batch prepared }
        ensures only { D.Disk.only disk.old disk.new }
        ensures failed { IsErrOf result ChangeError.Failed → Rose (D.disk disk.old).faults (D.disk disk.new).faults }
        ensures within { Reaches (D.disk disk.new).reach self.new }
        ensures live { IsTrue self.new.live ↔ IsDone result }
        ensures refused { (why : Refusal) → IsErrOf result (ChangeError.Refused why)
            → (why ≡ Refusal.Full Which.Journal (limit_of Which.Journal))
            × (limit_of Which.Journal < self.old.end + gate_bytes + length prepared.body.items) }
        ensures allowed { (IsOk result ⊎ IsErrOf result ChangeError.Failed)
            → self.old.end + gate_bytes + length prepared.body.items ≤ limit_of Which.Journal }
        ensures same { (why : Refusal) → IsErrOf result (ChangeError.Refused why) → (self.new ≡ self.old) × (disk.new ≡ disk.old) }
        // All memory is taken before the first call of the disk.
        ensures memory { IsErrOf result ChangeError.Memory → disk.new ≡ disk.old }
        ensures cached { D.disk_tells → CacheStands (D.disk disk.old) self.old → IsDone result → CacheStands (D.disk disk.new) self.new }
        ensures spent { (IsErrOf result ChangeError.Memory ⊎ IsErrOf result ChangeError.Failed) → IsSpentBut self.old self.new }
        ensures unasked { self.new.asked ≡ self.old.asked }
        ensures idle { self.new.job ≡ self.old.job }
        ensures stands { (h : History) (batch : List Act) → StandsFor self.old h → IsNextBatch h batch prepared
            → IfOk result (λ n. StandsFor self.new (h ++ entries.Batch batch ∷ []) × (n ≡ length h + 1)) }
        ensures crash { D.disk_tells → (bodies : List (List ℕ)) → IsInStep (D.disk disk.old) self.old.end bodies
            → Appends bodies prepared.body.items (D.disk disk.old) (D.disk disk.new) }
        ensures in_step { D.disk_tells → (bodies : List (List ℕ)) → IsInStep (D.disk disk.old) self.old.end bodies
            → OnOk result (IsInStep (D.disk disk.new) self.new.end (bodies ++ prepared.body.items ∷ [])) }
        ensures pages { D.disk_tells → KeepsPages (D.disk disk.old) (D.disk disk.new) }
        ensures pages_hold { D.disk_tells → OnOk result ((D.disk disk.new).holds.pages ≡ (D.disk disk.old).holds.pages) }
    {
        let PreparedBatch {
            changes,
            words,
            body,
        } = prepared;
        if Which::Journal.limit() < self.journal.end() + GATE_BYTES + body.len() as u64 {
            return Err(ChangeError::Refused(full_journal()));
        }
        self.live = false;
        let frame = Frame::new(alloc, &body)?;
        self.directory.reserve_all(changes.len())?;
        if take_in_all(&mut self.index, words).is_err() {
            return Err(ChangeError::Memory);
        }
        match self.journal.append(disk, &frame) {
            Ok(_) => {
                note_all(&mut self.directory, &changes);
                self.entries += 1;
                self.live = true;
                Ok(self.entries)
            }
            Err(_) => Err(ChangeError::Failed),
        }
    }
}
