//! The open archive, and what it is asked that keeps it consistent.
ghost use Rattle.std.specs.Prelude.{◌≡◌, ◌+◌, ◌<◌, ◌≤◌, [], length, get_or, is_some, option_map, Some, None, Ok, Err, IfOk, IfErr, IsErr, IsTrue, OnOk};
ghost use Rattle.journal_gates.specs.Records.{new_bytes};
ghost use Rattle.machine_model.specs.Calls.{OnlyReads};
ghost use Rattle.pages_sublists.specs.Fetching.{IfDamaged, IfFailed};
ghost use Rattle.model_archive.specs.declared.stored.StoredPlan.{StoredPlan as PlainStored};
ghost use Rattle.model_archive.specs.Chosen.{GathersOf, pieces_chosen};
ghost use Rattle.machine_model.specs.Causes.{Rose};
ghost use Rattle.model_archive.specs.Histories.{History};
ghost use Rattle.archive_hand.specs.Asking.{HasAsked};
ghost use Rattle.archive_hand.specs.States.{StandsFor, StandsBut, CacheStands, IsSameButCache, Reaches};
ghost use Rattle.archive_hand.specs.Adding.{GivesUp};
ghost use Rattle.archive_plans.specs.Framing.{AreInTurn, IsFramedAt, IsUnframedAt};
ghost use Rattle.lists_index.specs.Indexes.{state_of};
ghost use Rattle.plans_share.specs.Asked.{noted_all};

use crate::error::ChangeError;
use crate::job::Job;
use archive_entries::Declined;
use archive_plans::{SegmentFrames, Shelf};
use base_types::{Key, Span, Time};
use journal_gates::Journal;
use lists_index::Index;
use lists_versions::Directory;
use machine_model::Disk;
use pages_sublists::{FetchError, Gathered};
use plans_share::Asked;
use std::alloc::{AllocError, Global};
use std::marker::Model;

/// An open archive.
#[derive(Drop)]
pub struct Archive {
    pub(crate) journal: Journal,
    pub(crate) directory: Directory,
    pub(crate) index: Index,
    pub(crate) shelf: Shelf,
    pub(crate) entries: u64,
    pub(crate) marked: bool,
    pub(crate) asked: Asked,
    pub(crate) live: bool,
    pub(crate) job: Option<Job>,
}

impl Model for Archive {
    ghost use Rattle.std.specs.Prelude.{◌+◌, ◌≤◌, IsTrue};
    ghost use Rattle.journal_gates.specs.Records.{new_bytes};
    ghost use Rattle.archive_hand.specs.States.{ArchiveState, IsSound};
    ghost use Rattle.lists_index.specs.Indexes.{state_of};

    ghost Value = { ArchiveState };

    ghost view = { λ a. record {
      end = a.journal.end;
      live = a.live;
      length = a.entries;
      changes = a.directory.changes;
      index = state_of a.index;
      shelf = a.shelf;
      marked = a.marked;
      asked = a.asked;
      job = a.job;
    } };

    // It stands for a history, which it shows on any disk; one that is spent within a batch but for what it tells of words.
    ghost invariant = { λ a. (IsTrue a.live → IsTrue a.journal.live) × (a.entries + new_bytes ≤ a.journal.end)
        × IsSound (record {
          end = a.journal.end;
          live = a.live;
          length = a.entries;
          changes = a.directory.changes;
          index = state_of a.index;
          shelf = a.shelf;
          marked = a.marked;
          asked = a.asked;
          job = a.job;
        }) };
}

impl Archive {
    // The archive of a journal that was asked nothing yet, by the changes of its entries, the index of their texts, the live plans, and whether
    // the mark is among the entries. It is live where the journal is, and no plan is being written.
    pub(crate) fn of(
        alloc: Global,
        journal: Journal,
        directory: Directory,
        index: Index,
        shelf: Shelf,
        entries: u64,
        marked: bool,
    ) -> Archive
        requires few { entries + new_bytes ≤ journal.end }
        requires stands { (h : History)
            × StandsFor (record {
              end = journal.end;
              live = journal.live;
              length = entries;
              changes = directory.changes;
              index = state_of index;
              shelf = shelf;
              marked = marked;
              asked = [];
              job = None;
            }) h }
        ensures { result ≡ record {
          end = journal.end;
          live = journal.live;
          length = entries;
          changes = directory.changes;
          index = state_of index;
          shelf = shelf;
          marked = marked;
          asked = [];
          job = None;
        } }
    {
        let live = journal.is_live();
        Archive {
            journal,
            directory,
            index,
            shelf,
            entries,
            marked,
            asked: Asked::new(alloc),
            live,
            job: None,
        }
    }

    /// Whether changes may be made: from the load until a change answers `Failed` or `Memory`, and
    /// never where the archive was opened to read. Constant cost.
    pub fn is_live(&self) -> bool
        ensures { result ≡ self.now.live }
    {
        self.live
    }

    /// The number of entries. Constant cost.
    pub fn length(&self) -> u64
        ensures { result ≡ self.now.length }
    {
        self.entries
    }

    /// Whether its journal has the mark of one that may have batches. Constant cost.
    pub fn has_format(&self) -> bool
        ensures { result ≡ self.now.marked }
    {
        self.marked
    }

    /// The plan that is being written, if one is. Constant cost.
    pub fn job(&self) -> Option<&Job>
        ensures { option_map (λ j. j.now) result ≡ self.now.job }
    {
        self.job.as_ref()
    }

    /// Whether a plan is being written. Constant cost.
    pub fn is_at_work(&self) -> bool
        ensures { result ≡ is_some self.now.job }
    {
        self.job.is_some()
    }

    /// The journal, whose end is the archive's. Constant cost.
    pub fn journal(&self) -> &Journal
        ensures { result.now.end ≡ self.now.end }
    {
        &self.journal
    }

    /// The changes of documents with the places of their texts. Constant cost.
    pub fn directory(&self) -> &Directory
        ensures changes { result.now.changes ≡ self.now.changes }
        ensures stands { (h : History) × StandsBut self.now h }
    {
        &self.directory
    }

    /// The index of the texts. Constant cost.
    pub fn index(&self) -> &Index
        ensures { state_of result.now ≡ self.now.index }
    {
        &self.index
    }

    /// The live plans. Constant cost.
    pub fn shelf(&self) -> &Shelf
        ensures shelf { result.now ≡ self.now.shelf }
        ensures stands { (h : History) × StandsBut self.now h }
    {
        &self.shelf
    }

    /// The headers of the blocks of the segment that has a time, of the plan that stands at this place, whose
    /// sublists are in blocks; None where no segment has the time. Nothing is changed but which pages are kept.
    ///
    /// `Damaged`: the place's bytes haven't the digest that the entry of the plan says, or no headers. `Failed`:
    /// the disk failed. `Memory`: an allocation failed. Costs what `Shelf::frames_at` does.
    pub fn frames_at<D: Disk>(
        &mut self,
        alloc: Global,
        disk: &mut D,
        place: usize,
        t: Time,
    ) -> Result<Option<SegmentFrames>, FetchError>
        requires within { Reaches (D.disk disk.old).reach self.old }
        requires there { place < length self.old.shelf.plans }
        ensures only { D.Disk.only disk.old disk.new }
        ensures failed { IfErr result (IfFailed (Rose (D.disk disk.old).faults (D.disk disk.new).faults)) }
        ensures same { OnlyReads (D.disk disk.old) (D.disk disk.new) }
        ensures but_cache { IsSameButCache self.old self.new }
        ensures cached { D.disk_tells → CacheStands (D.disk disk.old) self.old → CacheStands (D.disk disk.new) self.new }
        ensures asked { D.disk_tells → CacheStands (D.disk disk.old) self.old → (s : PlainStored)
            → s ≡ get_or self.old.shelf.plans place s → AreInTurn s.plan →
            OnOk result (HasAsked (pieces_chosen (D.disk disk.old).holds.pages (Some s.plan) t.seconds (t.seconds + 1)) self.old.shelf.cache
            self.new.shelf.cache (D.disk disk.old) (D.disk disk.new)) }
        ensures framed { D.disk_tells → CacheStands (D.disk disk.old) self.old → (s : PlainStored)
            → s ≡ get_or self.old.shelf.plans place s → AreInTurn s.plan
            → IfOk result (IsFramedAt (D.disk disk.old).holds.pages s.plan t.seconds) }
        ensures damaged { D.disk_tells → CacheStands (D.disk disk.old) self.old → (s : PlainStored)
            → s ≡ get_or self.old.shelf.plans place s → AreInTurn s.plan
            → IfErr result (IfDamaged (IsUnframedAt (D.disk disk.old).holds.pages s.plan t.seconds)) }
    {
        self.shelf.frames_at(alloc, disk, place, t)
    }

    /// What it was asked for, as far as it is noted. Constant cost.
    pub fn asked(&self) -> &Asked
        ensures { result.now ≡ self.now.asked }
    {
        &self.asked
    }

    /// A live archive stands for a history, which it shows on any disk. Does nothing.
    pub fn stands(&self)
        requires { IsTrue self.now.live }
        ensures { (h : History) × StandsFor self.now h }
    {
        let _ = &self.journal;
    }

    /// Notes that some words were asked for as of a time. An error leaves all as it was. Costs the words'
    /// length.
    pub fn note(&mut self, alloc: Global, words: &[Key], at: Time) -> Result<(), AllocError>
        ensures noted { OnOk result (self.new ≡ record self.old { asked = noted_all self.old.asked words.now at }) }
        ensures kept { IsErr result → self.new ≡ self.old }
    {
        self.asked.note_all(alloc, words, at)
    }

    /// What Pages have in a window of the list of the plan that stands at this place. Nothing is changed
    /// but which pages are kept.
    ///
    /// `Damaged`: a sublist that was read isn't what the entry of the plan says. `Failed`: the disk failed.
    /// `Memory`: an allocation failed. Costs what `Shelf::gather` does.
    pub fn gather<D: Disk>(
        &mut self,
        alloc: Global,
        disk: &mut D,
        place: usize,
        span: Span,
    ) -> Result<Gathered, FetchError>
        requires within { Reaches (D.disk disk.old).reach self.old }
        requires there { place < length self.old.shelf.plans }
        ensures only { D.Disk.only disk.old disk.new }
        ensures failed { IfErr result (IfFailed (Rose (D.disk disk.old).faults (D.disk disk.new).faults)) }
        ensures same { OnlyReads (D.disk disk.old) (D.disk disk.new) }
        ensures but_cache { IsSameButCache self.old self.new }
        ensures cached { D.disk_tells → CacheStands (D.disk disk.old) self.old → CacheStands (D.disk disk.new) self.new }
        ensures asked { D.disk_tells → CacheStands (D.disk disk.old) self.old → (s : PlainStored)
            → s ≡ get_or self.old.shelf.plans place s →
            OnOk result (HasAsked (pieces_chosen (D.disk disk.old).holds.pages (Some s.plan) span.from span.to) self.old.shelf.cache
            self.new.shelf.cache (D.disk disk.old) (D.disk disk.new)) }
        ensures gathered { D.disk_tells → CacheStands (D.disk disk.old) self.old → (s : PlainStored)
            → s ≡ get_or self.old.shelf.plans place s
            → IfOk result (λ g. GathersOf (D.disk disk.old).holds.pages s.plan span.from span.to (Ok (g.list.items, g.read))) }
        ensures damaged { D.disk_tells → CacheStands (D.disk disk.old) self.old → (s : PlainStored)
            → s ≡ get_or self.old.shelf.plans place s
            → IfErr result (IfDamaged (λ d. GathersOf (D.disk disk.old).holds.pages s.plan span.from span.to (Err d))) }
    {
        self.shelf.gather(alloc, disk, place, span)
    }

    /// What comes of a change, or a plan, that was declined: it is refused, which changes nothing, or there
    /// was no memory for it, and the archive is spent. Constant cost.
    pub fn give_up(&mut self, why: Declined) -> ChangeError
        ensures { GivesUp why result self.old self.new }
    {
        match why {
            Declined::Refused(why) => ChangeError::Refused(why),
            Declined::Memory => {
                self.live = false;
                ChangeError::Memory
            }
        }
    }
}
