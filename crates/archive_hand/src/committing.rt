//! Changes of documents, and the mark, that are made together with the journal's entry.
ghost use Rattle.std.specs.Prelude.{◌≡◌, ◌⊎◌, ◌↔◌, ◌+◌, ◌<◌, ◌≤◌, ◌^◌, ◌++◌, [], ◌∷◌, ℕ, List, length, Some, None, Ok, Err, IsTrue, IfOk, OnOk, IsOk, IsErrOf};
ghost use Rattle.journal_gates.specs.Records.{gate_bytes};
ghost use Rattle.machine_model.specs.Causes.{Rose};
ghost use Rattle.base_types.specs.Limits.{limit_of};
ghost use Rattle.journal_gates.specs.InStep.{IsInStep};
ghost use Rattle.journal_gates.specs.Crash.{Appends, KeepsPages};
ghost use Rattle.model_archive.specs.Histories.{History};
ghost use Rattle.model_archive.specs.Steps.{arrival_refusal, deletion_refusal, mark_refusal};
ghost use Rattle.journal_entries.specs.Spelling.{spelling};
ghost use Rattle.archive_hand.specs.States.{StandsFor, CacheStands, Reaches};
ghost use Rattle.journal_entries.specs.declared.entry.Entry.{Entry};
ghost use Rattle.archive_hand.specs.Adding.{IsDone, IsMore, IsSpent};
ghost use Rattle.archive_entries.specs.Entries.{IsNext, IsPrepared, document_of, text_of};
ghost use Rattle.lists_versions.specs.Refusals.{change_refusal};
ghost use Rattle.lists_index.specs.Indexes.{IsPreparedFor};
ghost use Rattle.journal_entries.specs.declared.entry.Entry.TheVariants as entries;

use crate::archive::Archive;
use crate::error::ChangeError;
use archive_entries::{
    Declined, Prepared, TEXT_AT, full_journal, note, placed, prepare_arrival, prepare_deletion,
};
use base_types::{DocId, Time, Which};
use journal_entries::{FORMAT_BYTES, encode_format};
use journal_gates::{Frame, GATE_BYTES};
use machine_model::Disk;
use model_archive::Refusal;
use std::alloc::Global;

impl Archive {
    /// An arrival that may come next, or why it may not. Nothing is changed.
    ///
    /// Costs what `prepare_arrival` does.
    pub fn arrival(
        &mut self,
        alloc: Global,
        doc: DocId,
        at: Time,
        text: &[u8],
    ) -> Result<Prepared, Declined>
        ensures same { self.new ≡ self.old }
        ensures fits { IfOk result (λ p. length p.body.items < 2 ^ 32) }
        ensures allowed { IfOk result (λ p. change_refusal p.change self.old.changes ≡ None) }
        ensures prepared { (h : History) → StandsFor self.old h
            → IsPrepared h self.old.index (entries.Arrive doc at text.now) (arrival_refusal h doc at text.now) result }
    {
        prepare_arrival(alloc, &self.directory, &mut self.index, doc, at, text)
    }

    /// A deletion that may come next, or why it may not. Nothing is changed.
    ///
    /// Costs what `prepare_deletion` does.
    pub fn deletion(&mut self, alloc: Global, doc: DocId, at: Time) -> Result<Prepared, Declined>
        ensures same { self.new ≡ self.old }
        ensures fits { IfOk result (λ p. length p.body.items < 2 ^ 32) }
        ensures allowed { IfOk result (λ p. change_refusal p.change self.old.changes ≡ None) }
        ensures prepared { (h : History) → StandsFor self.old h
            → IsPrepared h self.old.index (entries.Delete doc at) (deletion_refusal h doc at) result }
    {
        prepare_deletion(alloc, &self.directory, &mut self.index, doc, at)
    }

    /// Makes a change that may come next, if the journal has room for its entry, and answers how many entries
    /// there are. At `Ok` it is durable.
    ///
    /// `Refused`: the journal is full; nothing was changed. `Failed`, `Memory`: the archive is spent, and keeps
    /// what it had.
    /// Costs two synced writes, and for each word whose frequency changes a move of its later postings.
    pub fn commit<D: Disk>(
        &mut self,
        alloc: Global,
        disk: &mut D,
        prepared: Prepared,
    ) -> Result<u64, ChangeError>
        requires live { IsTrue self.old.live }
        requires within { Reaches (D.disk disk.old).reach self.old }
        requires fits { length prepared.body.items < 2 ^ 32 }
        requires allowed { change_refusal prepared.change self.old.changes ≡ None }
        requires next { (h : History) → StandsFor self.old h → (entry : Entry) × IsNext h entry prepared.change prepared.body.items
            × IsPreparedFor self.old.index (document_of entry) (text_of entry) prepared.words }
        ensures only { D.Disk.only disk.old disk.new }
        ensures failed { IsErrOf result ChangeError.Failed → Rose (D.disk disk.old).faults (D.disk disk.new).faults }
        ensures within { Reaches (D.disk disk.new).reach self.new }
        ensures live { IsTrue self.new.live ↔ IsDone result }
        ensures refused { (why : Refusal) → IsErrOf result (ChangeError.Refused why)
            → (why ≡ Refusal.Full Which.Journal (limit_of Which.Journal))
            × (limit_of Which.Journal < self.old.end + gate_bytes + length prepared.body.items) }
        ensures allowed { (IsOk result ⊎ IsErrOf result ChangeError.Failed)
            → self.old.end + gate_bytes + length prepared.body.items ≤ limit_of Which.Journal }
        ensures same { (why : Refusal) → IsErrOf result (ChangeError.Refused why) → (self.new ≡ self.old) × (disk.new ≡ disk.old) }
        // All memory is taken before the first call of the disk.
        ensures memory { IsErrOf result ChangeError.Memory → disk.new ≡ disk.old }
        ensures cached { D.disk_tells → CacheStands (D.disk disk.old) self.old → IsDone result → CacheStands (D.disk disk.new) self.new }
        ensures spent { (IsErrOf result ChangeError.Memory ⊎ IsErrOf result ChangeError.Failed) → IsSpent self.old self.new }
        ensures more { IfOk result (λ n. IsMore self.old self.new prepared.change prepared.body.items prepared.words
            × (n ≡ self.new.length)) }
        ensures crash { D.disk_tells → (bodies : List (List ℕ)) → IsInStep (D.disk disk.old) self.old.end bodies
            → Appends bodies prepared.body.items (D.disk disk.old) (D.disk disk.new) }
        ensures in_step { D.disk_tells → (bodies : List (List ℕ)) → IsInStep (D.disk disk.old) self.old.end bodies
            → OnOk result (IsInStep (D.disk disk.new) self.new.end (bodies ++ prepared.body.items ∷ [])) }
        ensures pages { D.disk_tells → KeepsPages (D.disk disk.old) (D.disk disk.new) }
        ensures pages_hold { D.disk_tells → OnOk result ((D.disk disk.new).holds.pages ≡ (D.disk disk.old).holds.pages) }
    {
        let Prepared {
            change,
            body,
            words,
        } = prepared;
        if Which::Journal.limit() < self.journal.end() + GATE_BYTES + body.len() as u64 {
            return Err(ChangeError::Refused(full_journal()));
        }
        self.live = false;
        let frame = Frame::new(alloc, &body)?;
        self.directory.reserve(change.doc)?;
        if self.index.make_room(&words).is_err() {
            return Err(ChangeError::Memory);
        }
        match self.journal.append(disk, &frame) {
            Ok(place) => {
                note(&mut self.directory, placed(change, place + TEXT_AT));
                self.index.commit(words, change.at);
                self.entries += 1;
                self.live = true;
                Ok(self.entries)
            }
            Err(_) => Err(ChangeError::Failed),
        }
    }

    /// Adds the mark of a journal that may have batches, and answers how many entries there are. At `Ok` it is
    /// durable. All memory is taken before the first write.
    ///
    /// `Refused`: for the first cause in order, the journal has the mark, or it is full; nothing was changed.
    /// `Failed`, `Memory`: the archive is spent, and keeps what it had.
    /// Costs two synced writes.
    pub fn mark<D: Disk>(&mut self, alloc: Global, disk: &mut D) -> Result<u64, ChangeError>
        requires live { IsTrue self.old.live }
        requires within { Reaches (D.disk disk.old).reach self.old }
        ensures only { D.Disk.only disk.old disk.new }
        ensures failed { IsErrOf result ChangeError.Failed → Rose (D.disk disk.old).faults (D.disk disk.new).faults }
        ensures within { Reaches (D.disk disk.new).reach self.new }
        ensures live { IsTrue self.new.live ↔ IsDone result }
        ensures refused { (h : History) → StandsFor self.old h → (why : Refusal) → IsErrOf result (ChangeError.Refused why)
            → mark_refusal h ≡ Some why }
        ensures allowed { (h : History) → StandsFor self.old h → (IsOk result ⊎ IsErrOf result ChangeError.Failed) → mark_refusal h ≡ None }
        ensures same { (why : Refusal) → IsErrOf result (ChangeError.Refused why) → (self.new ≡ self.old) × (disk.new ≡ disk.old) }
        // All memory is taken before the first call of the disk.
        ensures memory { IsErrOf result ChangeError.Memory → disk.new ≡ disk.old }
        ensures cached { D.disk_tells → CacheStands (D.disk disk.old) self.old → IsDone result → CacheStands (D.disk disk.new) self.new }
        ensures spent { (IsErrOf result ChangeError.Memory ⊎ IsErrOf result ChangeError.Failed) → IsSpent self.old self.new }
        ensures unasked { self.new.asked ≡ self.old.asked }
        ensures idle { self.new.job ≡ self.old.job }
        ensures stands { (h : History) → StandsFor self.old h
            → IfOk result (λ n. StandsFor self.new (h ++ entries.Format ∷ []) × (n ≡ length h + 1)) }
        ensures crash { D.disk_tells → (bodies : List (List ℕ)) → IsInStep (D.disk disk.old) self.old.end bodies
            → Appends bodies (spelling entries.Format) (D.disk disk.old) (D.disk disk.new) }
        ensures in_step { D.disk_tells → (bodies : List (List ℕ)) → IsInStep (D.disk disk.old) self.old.end bodies
            → OnOk result (IsInStep (D.disk disk.new) self.new.end (bodies ++ spelling entries.Format ∷ [])) }
        ensures pages { D.disk_tells → KeepsPages (D.disk disk.old) (D.disk disk.new) }
        ensures pages_hold { D.disk_tells → OnOk result ((D.disk disk.new).holds.pages ≡ (D.disk disk.old).holds.pages) }
    {
        if self.marked {
            return Err(ChangeError::Refused(Refusal::HasFormat));
        }
        if Which::Journal.limit() < self.journal.end() + GATE_BYTES + FORMAT_BYTES as u64 {
            return Err(ChangeError::Refused(full_journal()));
        }
        self.live = false;
        let body = encode_format(alloc)?;
        let frame = Frame::new(alloc, &body)?;
        match self.journal.append(disk, &frame) {
            Ok(_) => {
                self.marked = true;
                self.entries += 1;
                self.live = true;
                Ok(self.entries)
            }
            Err(_) => Err(ChangeError::Failed),
        }
    }
}
