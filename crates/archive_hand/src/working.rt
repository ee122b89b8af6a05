//! A plan that is written while other commands go on: it is begun, and then written by stints.
ghost use Rattle.std.specs.Prelude.{◌≡◌, ◌+◌, ◌-◌, ◌<◌, ◌≤◌, ◌^◌, ◌++◌, ◌∷◌, [], ℕ, List, length, take, All, None, IsTrue, IsSome, IsOk, IfOk, IfErr, IfSome, OnOk, OnErr, IsErrOf, ◌↔◌};
ghost use Rattle.std.specs.List.{AllZip};
ghost use Rattle.base_types.specs.declared.extent.Extent.{Extent as PlainExtent};
ghost use Rattle.machine_model.specs.Causes.{Rose};
ghost use Rattle.journal_gates.specs.InStep.{IsInStep};
ghost use Rattle.journal_gates.specs.Records.{gate_bytes};
ghost use Rattle.pages_area.specs.Caches.{StandsFor as IsCacheOf};
ghost use Rattle.pages_area.specs.Crash.{ChangesOnly};
ghost use Rattle.pages_area.specs.Runs.{IsTaken};
ghost use Rattle.pages_area.specs.Taken.{HasTaken};
ghost use Rattle.pages_sublists.specs.Paged.{ReachPages, WrotePages, page_ranges, some_pages};
ghost use Rattle.pages_sublists.specs.Preparing.{IsFor, extents, pieces};
ghost use Rattle.model_archive.specs.Histories.{History};
ghost use Rattle.model_archive.specs.Plans.{live_extents, with_plan};
ghost use Rattle.model_archive.specs.Steps.{left_of, pages_in};
ghost use Rattle.model_archive.specs.declared.refusal.Refusal.{Refusal as PlainRefusal};
ghost use Rattle.archive_plans.specs.Readying.{IsFull};
ghost use Rattle.archive_plans.specs.Shelves.{extents_all};
ghost use Rattle.archive_hand.specs.Adding.{IsSpent};
ghost use Rattle.archive_hand.specs.Jobs.{TellsLeft, job_pages, plain_job, written_of};
ghost use Rattle.archive_hand.specs.States.{AreInStepBy, CacheStands, Reaches, StandsFor};
ghost use Rattle.archive_hand.specs.Stored.{Store};
ghost use Rattle.archive_hand.specs.Storing.{HasPutDown, HasStopped, IsDraft, IsTakenOn};
ghost use Rattle.archive_hand.specs.Takes.{TakesStint};

use crate::archive::Archive;
use crate::job::{Begun, Job, STINT_PAGES, Stint};
use archive_entries::{Declined, full_journal};
use archive_plans::{Draft, Ready, Shelf, make_ready};
use base_commands::Kind;
use base_types::Which;
use journal_entries::Place;
use journal_gates::{AppendError, GATE_BYTES, Journal};
use machine_model::{Disk, Failed};
use model_archive::{StoredPlan, Summary};
use pages_sublists::Sublists;
use std::alloc::Global;

impl Archive {
    /// Begins a plan that was drafted, if there is room for it: takes its pages, and all the memory that it
    /// will need. Nothing is written.
    ///
    /// `Refused`: Pages or the journal are full. `Memory`: an allocation failed. Either way all is as it was.
    /// Costs what `Sublists::prepare` does.
    pub fn begin(&mut self, alloc: Global, draft: Draft) -> Result<Begun, Declined>
        requires live { IsTrue self.old.live }
        requires idle { self.old.job ≡ None }
        requires guarantee { draft.kind ≡ Kind.Guarantee }
        requires drafted { (h : History) → StandsFor self.old h → IsDraft h draft }
        ensures same { self.new ≡ record (self.old) {
          shelf = record (self.old.shelf) { pages = self.new.shelf.pages; room = self.new.shelf.room };
          job = self.new.job;
        } }
        ensures none { OnErr result (self.new.job ≡ None) }
        ensures unwritten { written_of self.new.job ≡ [] }
        ensures begun { (h : History) → StandsFor self.old h
            → IfOk result (λ b. IsTakenOn h draft (plain_job self.new.job) b × StandsFor self.new h) }
        ensures refused { (h : History) → StandsFor self.old h → (why : PlainRefusal) → IsErrOf result (Declined.Refused why)
            → IsFull draft (live_extents h) self.old.end why }
        ensures stays { (h : History) → StandsFor self.old h → OnErr result (StandsFor self.new h) }
    {
        let ready = match make_ready(
            alloc,
            self.journal.end(),
            self.entries,
            &mut self.shelf,
            draft,
        ) {
            Ok(ready) => ready,
            Err(why) => return Err(why),
        };
        let Some(pages) = pages_in_all(ready.prepared.places()) else {
            self.shelf.forget(ready.prepared);
            return Err(Declined::Memory);
        };
        let segments = ready.summary.segments;
        self.job = Some(Job {
            ready,
            pages,
            written: 0,
        });
        Ok(Begun { segments, pages })
    }

    /// Writes the next `STINT_PAGES` pages of the plan that is being written; or, where no more are left,
    /// these, and stores it: it takes the place of its word's plan, if there is one, and is durable then.
    /// Takes no memory. `Failed`: the archive is spent, and keeps what it had.
    /// Costs the logarithm of the places, a call of the disk for each place that has some of the pages,
    /// and at the end a sync and two synced writes of the entry.
    pub fn advance<D: Disk>(&mut self, disk: &mut D) -> Result<Stint, Failed>
        requires live { IsTrue self.old.live }
        requires working { IsSome self.old.job }
        requires within { Reaches (D.disk disk.old).reach self.old }
        ensures only { D.Disk.only disk.old disk.new }
        ensures failed { OnErr result (Rose (D.disk disk.old).faults (D.disk disk.new).faults) }
        ensures within { Reaches (D.disk disk.new).reach self.new }
        ensures live { IsTrue self.new.live ↔ IsOk result }
        ensures left { IfOk result (TellsLeft self.new.job) }
        ensures less { OnOk result (left_of (plain_job self.new.job) < left_of (plain_job self.old.job)) }
        ensures cached { D.disk_tells → CacheStands (D.disk disk.old) self.old → OnOk result (CacheStands (D.disk disk.new) self.new) }
        ensures spent { OnErr result (IsSpent self.old self.new) }
        ensures works { D.disk_tells → (s : Store) → AreInStepBy (D.disk disk.old) self.old s
            → TakesStint s result (D.disk disk.old) (D.disk disk.new) self.new }
    {
        let Some(job) = self.job.take() else {
            unreachable!()
        };
        self.live = false;
        if job.pages - job.written > STINT_PAGES {
            match write_next(disk, self.shelf.sublists(), job) {
                Ok(job) => {
                    let left = job.pages - job.written;
                    self.job = Some(job);
                    self.live = true;
                    Ok(Stint::Wrote { left })
                }
                Err(job) => {
                    self.job = Some(job);
                    Err(Failed)
                }
            }
        } else if Which::Journal.limit() < self.journal.end() + GATE_BYTES + job.ready.bytes {
            self.shelf.forget(job.ready.prepared);
            self.live = true;
            Ok(Stint::Dropped(full_journal()))
        } else {
            match finish(disk, &mut self.journal, &mut self.shelf, job, self.entries) {
                Ok(summary) => {
                    self.entries += 1;
                    self.live = true;
                    Ok(Stint::Done(summary))
                }
                Err(job) => {
                    self.job = Some(job);
                    Err(Failed)
                }
            }
        }
    }
}

/// How many pages these places take; None where there are more than a number holds.
fn pages_in_all(places: &[Place]) -> Option<u64>
    ensures { IfSome result (λ n. n ≡ pages_in (extents places.now)) }
{
    let mut all: u64 = 0;
    for place in places {
        all = all.checked_add(place.extent.pages())?;
    }
    Some(all)
}

/// Writes the next pages of a plan that leaves some, and gives it back, also where the disk fails. Takes no
/// memory.
fn write_next<D: Disk>(disk: &mut D, sublists: &Sublists, job: Job) -> Result<Job, Job>
    requires taken { (live : List PlainExtent) × HasTaken sublists.now.pages (extents job.ready.prepared.places ++ live) }
    requires unkept { All (λ k. IsTaken (extents job.ready.prepared.places) k.page → ⊥) sublists.now.cache }
    requires more { job.written + 8 ≤ job.pages }
    ensures only { D.Disk.only disk.old disk.new }
    ensures failed { OnErr result (Rose (D.disk disk.old).faults (D.disk disk.new).faults) }
    ensures wrote { IfOk result (λ j. j ≡ record job { written = job.written + 8 }) }
    ensures back { IfErr result (λ j. j ≡ job) }
    ensures inside { OnOk result (ReachPages (D.disk disk.new).reach.pages (some_pages job.written 8 job.ready.prepared)) }
    ensures images { D.disk_tells
        → ChangesOnly (page_ranges (some_pages job.written 8 job.ready.prepared)) (D.disk disk.old) (D.disk disk.new) }
    ensures holds { D.disk_tells
        → OnOk result (WrotePages (some_pages job.written 8 job.ready.prepared) (D.disk disk.old).holds (D.disk disk.new).holds) }
    ensures cached { D.disk_tells → IsCacheOf (sublists.now.cache ++ take job.written (job_pages job)) (D.disk disk.old).holds.pages
        → OnOk result (IsCacheOf (sublists.now.cache ++ take (job.written + 8) (job_pages job)) (D.disk disk.new).holds.pages) }
{
    match sublists.write_some(disk, &job.ready.prepared, job.written, STINT_PAGES) {
        Ok(_) => Ok(Job {
            ready: job.ready,
            pages: job.pages,
            written: job.written + STINT_PAGES,
        }),
        Err(Failed) => Err(job),
    }
}

/// Writes the pages that are left of a plan, makes all of them durable, and appends its entry. The plan takes
/// the place of the one that its word had, whose pages are free only then. Where the disk fails, it is given
/// back. Takes no memory.
fn finish<D: Disk>(
    disk: &mut D,
    journal: &mut Journal,
    shelf: &mut Shelf,
    job: Job,
    count: u64,
) -> Result<Summary, Job>
    requires live { IsTrue journal.old.live }
    requires fits { journal.old.end + gate_bytes + length job.ready.frame ≤ 2 ^ 40 }
    requires room { 1 ≤ shelf.old.room }
    requires few { count < 2 ^ 40 }
    requires places { job.ready.stored.plan.places ≡ job.ready.prepared.places }
    requires taken { HasTaken shelf.old.pages (extents job.ready.prepared.places ++ extents_all shelf.old.plans) }
    requires each { AllZip IsFor job.ready.prepared.places job.ready.prepared.spellings }
    requires last { length (job_pages job) ≤ job.written + 8 }
    ensures only { D.Disk.only disk.old disk.new }
    ensures failed { OnErr result (Rose (D.disk disk.old).faults (D.disk disk.new).faults) }
    ensures back { IfErr result (λ j. j ≡ job) }
    ensures summary { IfOk result (λ r. r ≡ record (job.ready.summary) { length = count + 1 }) }
    ensures live { OnOk result (IsTrue journal.new.live) }
    ensures end { OnOk result (journal.new.end ≡ journal.old.end + gate_bytes + length job.ready.frame) }
    ensures reached { OnOk result (journal.new.end ≤ (D.disk disk.new).reach.journal) }
    ensures inside { OnOk result (ReachPages (D.disk disk.new).reach.pages (some_pages job.written 8 job.ready.prepared)) }
    ensures plans { OnOk result (shelf.new.plans
        ≡ with_plan shelf.old.plans (record { gate = journal.old.end - 1; plan = job.ready.stored.plan })) }
    ensures pages { OnOk result (HasTaken shelf.new.pages (extents_all shelf.new.plans)) }
    ensures spent { OnErr result ((journal.new.end ≡ journal.old.end) × (shelf.new ≡ shelf.old)) }
    ensures cached { D.disk_tells → IsCacheOf (shelf.old.cache ++ take job.written (job_pages job)) (D.disk disk.old).holds.pages
        → OnOk result (IsCacheOf shelf.new.cache (D.disk disk.new).holds.pages) }
    // Whatever lies in Pages elsewhere: what each image left since has.
    ensures puts { D.disk_tells → (bodies : List (List ℕ)) → IsInStep (D.disk disk.old) journal.old.end bodies
        → IsCacheOf (shelf.old.cache ++ take job.written (job_pages job)) (D.disk disk.old).holds.pages
        → OnOk result (HasPutDown bodies job.ready.frame (pieces job.ready.prepared) (D.disk disk.old) (D.disk disk.new)) }
    ensures stops { D.disk_tells → (bodies : List (List ℕ)) → IsInStep (D.disk disk.old) journal.old.end bodies
        → IsCacheOf (shelf.old.cache ++ take job.written (job_pages job)) (D.disk disk.old).holds.pages
        → OnErr result (HasStopped bodies job.ready.frame (pieces job.ready.prepared) (D.disk disk.old) (D.disk disk.new)) }
    ensures entered { D.disk_tells → (bodies : List (List ℕ)) → IsInStep (D.disk disk.old) journal.old.end bodies
        → OnOk result (IsInStep (D.disk disk.new) journal.new.end (bodies ++ job.ready.frame ∷ [])) }
{
    let end = journal.end();
    match put_rest(disk, journal, shelf.sublists(), &job) {
        Ok(()) => Ok(adopt(shelf, job, end, count)),
        Err(Failed) => Err(job),
    }
}

/// A plan of which all is written takes the place of the one that its word had, behind a journal that ended
/// there with so many entries.
fn adopt(shelf: &mut Shelf, job: Job, end: u64, count: u64) -> Summary
    requires room { 1 ≤ shelf.old.room }
    requires few { count < 2 ^ 40 }
    requires begun { 1 ≤ end }
    requires places { job.ready.stored.plan.places ≡ job.ready.prepared.places }
    requires taken { HasTaken shelf.old.pages (extents job.ready.prepared.places ++ extents_all shelf.old.plans) }
    ensures summary { result ≡ record (job.ready.summary) { length = count + 1 } }
    ensures plans { shelf.new.plans ≡ with_plan shelf.old.plans (record { gate = end - 1; plan = job.ready.stored.plan }) }
    ensures pages { HasTaken shelf.new.pages (extents_all shelf.new.plans) }
    ensures stays { (pages : List ℕ) → IsCacheOf shelf.old.cache pages → IsCacheOf shelf.new.cache pages }
{
    let Ready {
        stored,
        prepared,
        summary,
        ..
    } = job.ready;
    let stored = StoredPlan {
        gate: end - 1,
        plan: stored.plan,
    };
    shelf.put(stored, prepared);
    Summary {
        length: count + 1,
        ..summary
    }
}

/// Writes the pages that are left of a plan's sublists, makes all of them durable, and then appends the
/// plan's entry. Takes no memory.
fn put_rest<D: Disk>(
    disk: &mut D,
    journal: &mut Journal,
    sublists: &Sublists,
    job: &Job,
) -> Result<(), Failed>
    requires live { IsTrue journal.old.live }
    requires fits { journal.old.end + gate_bytes + length job.now.ready.frame ≤ 2 ^ 40 }
    requires taken { (live : List PlainExtent) × HasTaken sublists.now.pages (extents job.now.ready.prepared.places ++ live) }
    requires unkept { All (λ k. IsTaken (extents job.now.ready.prepared.places) k.page → ⊥) sublists.now.cache }
    requires each { AllZip IsFor job.now.ready.prepared.places job.now.ready.prepared.spellings }
    requires last { length (job_pages job.now) ≤ job.now.written + 8 }
    ensures only { D.Disk.only disk.old disk.new }
    ensures failed { OnErr result (Rose (D.disk disk.old).faults (D.disk disk.new).faults) }
    ensures live { OnOk result (IsTrue journal.new.live) }
    ensures end { OnOk result (journal.new.end ≡ journal.old.end + gate_bytes + length job.now.ready.frame) }
    ensures reached { OnOk result (journal.new.end ≤ (D.disk disk.new).reach.journal) }
    ensures inside { OnOk result (ReachPages (D.disk disk.new).reach.pages (some_pages job.now.written 8 job.now.ready.prepared)) }
    ensures spent { OnErr result (journal.new.end ≡ journal.old.end) }
    ensures cached { D.disk_tells
        → IsCacheOf (sublists.now.cache ++ take job.now.written (job_pages job.now)) (D.disk disk.old).holds.pages
        → OnOk result (IsCacheOf sublists.now.cache (D.disk disk.new).holds.pages) }
    ensures puts { D.disk_tells → (bodies : List (List ℕ)) → IsInStep (D.disk disk.old) journal.old.end bodies
        → IsCacheOf (sublists.now.cache ++ take job.now.written (job_pages job.now)) (D.disk disk.old).holds.pages
        → OnOk result (HasPutDown bodies job.now.ready.frame (pieces job.now.ready.prepared) (D.disk disk.old) (D.disk disk.new)) }
    ensures stops { D.disk_tells → (bodies : List (List ℕ)) → IsInStep (D.disk disk.old) journal.old.end bodies
        → IsCacheOf (sublists.now.cache ++ take job.now.written (job_pages job.now)) (D.disk disk.old).holds.pages
        → OnErr result (HasStopped bodies job.now.ready.frame (pieces job.now.ready.prepared) (D.disk disk.old) (D.disk disk.new)) }
    ensures entered { D.disk_tells → (bodies : List (List ℕ)) → IsInStep (D.disk disk.old) journal.old.end bodies
        → OnOk result (IsInStep (D.disk disk.new) journal.new.end (bodies ++ job.now.ready.frame ∷ [])) }
{
    sublists.write_some(disk, &job.ready.prepared, job.written, STINT_PAGES)?;
    sublists.settle(disk)?;
    match journal.append(disk, &job.ready.frame) {
        Ok(_) => Ok(()),
        Err(AppendError::Failed) => Err(Failed),
        Err(AppendError::Full) => Ok(()),
    }
}
