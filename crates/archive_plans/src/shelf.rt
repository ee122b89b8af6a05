//! The live plans of an archive, and the pages that hold their sublists.
ghost use Rattle.std.specs.Prelude.{◌≡◌, ◌+◌, ◌<◌, ◌≤◌, ◌++◌, [], ℕ, List, true, length, get_or, All, Some, Ok, Err, IfOk, IfErr, OnOk, OnErr, IsErrOf, MatchOption};
ghost use Rattle.machine_model.specs.Areas.{replaced};
ghost use Rattle.machine_model.specs.Calls.{OnlyReads};
ghost use Rattle.machine_model.specs.Causes.{Rose};
ghost use Rattle.pages_sublists.specs.Fetching.{IfDamaged, IfFailed};
ghost use Rattle.model_archive.specs.declared.stored.StoredPlan.{StoredPlan as PlainStored};
ghost use Rattle.model_archive.specs.Chosen.{GathersOf, pieces_chosen};
ghost use Rattle.base_types.specs.declared.extent.Extent.{Extent as PlainExtent};
ghost use Rattle.pages_area.specs.Live.{AreLive, IsRefused};
ghost use Rattle.pages_area.specs.Placing.{ArePlaced, HaveNoRoom};
ghost use Rattle.pages_area.specs.Taken.{HasTaken};
ghost use Rattle.pages_area.specs.Caches.{StandsFor, after_asking_all, missed_by_all};
ghost use Rattle.pages_area.specs.CacheLaws.{LieIn};
ghost use Rattle.lists_postings.specs.Lists.{IsList};
ghost use Rattle.journal_entries.specs.declared.place.Layout.TheVariants.{Blocks};
ghost use Rattle.pages_sublists.specs.PlacedAt.{IsPlaceFault};
ghost use Rattle.pages_sublists.specs.Preparing.{IsFor, extents, sizes, spellings};
ghost use Rattle.journal_entries.specs.declared.place.Place.{Place as PlainPlace};
ghost use Rattle.pages_sublists.specs.Segments.{seconds};
ghost use Rattle.std.specs.List.{AllZip};
ghost use Rattle.model_archive.specs.Plans.{is_another, with_plan};
ghost use Rattle.archive_plans.specs.Shelves.{extents_all};
ghost use Rattle.archive_plans.specs.Shelves.{IsBadShelf, IsReadable, gates_all};
ghost use Rattle.archive_entries.specs.Live.{EachOnce, IsPlanAt};

use archive_entries::{LoadError, position_of, put_live};
use base_types::{Extent, Key, Posting, Span, Time};
use journal_entries::{Layout, Place, PlanEntry};
use machine_model::{Area, Disk, Failed};
use model_archive::StoredPlan;
use pages_area::{LiveError, TakeError};
use pages_sublists::{FetchError, Gathered, PlaceError, Prepared, Sublists};
use std::alloc::{AllocError, Global};
use std::marker::Model;

/// Live plans, each of another word, the pages that their sublists leave free, and the pages of theirs
/// that were read and are kept.
#[derive(Drop)]
pub struct Shelf {
    pub(crate) plans: Vec<StoredPlan>,
    pub(crate) sublists: Sublists,
}

impl Model for Shelf {
    ghost use Rattle.std.specs.Prelude.{◌-◌, vec_len, vec_capacity};
    ghost use Rattle.pages_area.specs.CacheLaws.{LieIn};
    ghost use Rattle.archive_entries.specs.Live.{EachOnce};
    ghost use Rattle.archive_plans.specs.Shelves.{ShelfState, extents_all};

    ghost Value = { ShelfState };

    ghost view = { λ s. record {
      plans = s.plans.items;
      pages = s.sublists.pages;
      cache = s.sublists.cache;
      room = vec_capacity s.plans - vec_len s.plans;
    } };

    ghost invariant = { λ s. EachOnce s.plans.items × LieIn (extents_all s.plans.items) s.sublists.cache };
}

impl Shelf {
    /// The shelf of these live plans, in Pages of so many bytes. No page is kept yet.
    ///
    /// `NotArchive`: a place lies outside Pages or shares a page with an earlier one, which shows at the
    /// gate of the first such place's plan. `Memory`: an allocation failed. Never `Failed`.
    /// Costs their segments, and a search among the free runs for each.
    pub fn of(alloc: Global, plans: Vec<StoredPlan>, reach: u64) -> Result<Shelf, LoadError>
        requires once { EachOnce plans.items }
        ensures plans { IfOk result (λ s. s.plans ≡ plans.items) }
        ensures taken { IfOk result (λ s. HasTaken s.pages (extents_all plans.items)) }
        ensures live { IfOk result (λ s. AreLive (extents_all plans.items) reach) }
        ensures cache { IfOk result (λ s. s.cache ≡ []) }
        ensures bad { (at : ℕ) → IsErrOf result (LoadError.NotArchive at) → IsBadShelf plans.items reach at }
        ensures fair { IsErrOf result LoadError.Failed → ⊥ }
    {
        let live = live_extents(alloc, &plans)?;
        match Sublists::from_live(alloc, &live, reach) {
            Ok(sublists) => Ok(Shelf { plans, sublists }),
            Err(why) => Err(bad_place(&plans, reach, why)),
        }
    }

    /// The live plans. Constant cost.
    pub fn plans(&self) -> &[StoredPlan]
        ensures { result.now ≡ self.now.plans }
    {
        &self.plans
    }

    /// The plan of a word. Costs the plans in front of it.
    pub fn plan_of(&self, word: &Key) -> Option<&StoredPlan>
        ensures { MatchOption result (All (λ s. is_another word.now s ≡ true) self.now.plans) (λ s. (at : ℕ)
            × IsPlanAt self.now.plans word.now at × (s.now ≡ get_or self.now.plans at s.now)) }
    {
        match position_of(&self.plans, word) {
            Some(at) => Some(&self.plans[at]),
            None => None,
        }
    }

    /// Where the plan of a word stands. Costs the plans in front of it.
    pub fn position(&self, word: &Key) -> Option<usize>
        ensures { MatchOption result (All (λ s. is_another word.now s ≡ true) self.now.plans) (IsPlanAt self.now.plans word.now) }
    {
        position_of(&self.plans, word)
    }

    /// What Pages have in a window of the list of the plan that stands there: where the cache stands for
    /// Pages, what reads give. Costs what `Sublists::gather` does.
    pub fn gather<D: Disk>(
        &mut self,
        alloc: Global,
        disk: &mut D,
        at: usize,
        span: Span,
    ) -> Result<Gathered, FetchError>
        requires there { at < length self.old.plans }
        requires readable { (s : PlainStored) → s ≡ get_or self.old.plans at s → IsReadable (D.disk disk.old).reach.pages s.plan }
        ensures only { D.Disk.only disk.old disk.new }
        ensures failed { IfErr result (IfFailed (Rose (D.disk disk.old).faults (D.disk disk.new).faults)) }
        ensures same { OnlyReads (D.disk disk.old) (D.disk disk.new) }
        // The pages of the places that are chosen are asked for, in order.
        ensures asked { D.disk_tells → StandsFor self.old.cache (D.disk disk.old).holds.pages → (s : PlainStored)
            → s ≡ get_or self.old.plans at s →
            OnOk result (self.new.cache ≡ after_asking_all (pieces_chosen (D.disk disk.old).holds.pages (Some s.plan) span.from span.to)
            self.old.cache) }
        // Those that are missed are read, and nothing else is.
        ensures count { D.disk_tells → StandsFor self.old.cache (D.disk disk.old).holds.pages → (s : PlainStored)
            → s ≡ get_or self.old.plans at s →
            OnOk result ((D.disk disk.new).bytes_read ≡ replaced (D.disk disk.old).bytes_read Area.Pages
            ((D.disk disk.old).bytes_read.pages + missed_by_all
            (pieces_chosen (D.disk disk.old).holds.pages (Some s.plan) span.from span.to) self.old.cache)) }
        ensures gathered { D.disk_tells → StandsFor self.old.cache (D.disk disk.old).holds.pages → (s : PlainStored)
            → s ≡ get_or self.old.plans at s
            → IfOk result (λ g. GathersOf (D.disk disk.old).holds.pages s.plan span.from span.to (Ok (g.list.items, g.read))) }
        ensures damaged { D.disk_tells → StandsFor self.old.cache (D.disk disk.old).holds.pages → (s : PlainStored)
            → s ≡ get_or self.old.plans at s
            → IfErr result (IfDamaged (λ d. GathersOf (D.disk disk.old).holds.pages s.plan span.from span.to (Err d))) }
        ensures stays { D.disk_tells → StandsFor self.old.cache (D.disk disk.old).holds.pages
            → StandsFor self.new.cache (D.disk disk.new).holds.pages }
        ensures kept { self.new ≡ record (self.old) { cache = self.new.cache } }
    {
        let plan = &self.plans[at].plan;
        self.sublists.gather(
            alloc,
            disk,
            plan.layout,
            plan.cuts.as_slice(),
            plan.horizon,
            plan.places.as_slice(),
            span,
        )
    }

    /// Spells the sublists of a plan in blocks, and takes their pages. Costs what
    /// `Sublists::prepare` does.
    pub fn prepare(
        &mut self,
        alloc: Global,
        list: &[Posting],
        cuts: &[Time],
        horizon: Time,
    ) -> Result<Prepared, TakeError>
        requires list { IsList list.now }
        requires taken { (taken : List PlainExtent) × HasTaken self.old.pages taken }
        ensures plans { self.new.plans ≡ self.old.plans }
        ensures cache { self.new.cache ≡ self.old.cache }
        ensures room { self.new.room ≡ self.old.room }
        ensures spelled { IfOk result (λ p. p.spellings ≡ spellings Blocks list.now (seconds cuts.now) horizon.seconds) }
        ensures each { IfOk result (λ p. AllZip IsFor p.places p.spellings) }
        ensures placed { (taken : List PlainExtent) → HasTaken self.old.pages taken
            → IfOk result (λ p. ArePlaced taken (sizes p.spellings) (extents p.places)) }
        ensures taken { (taken : List PlainExtent) → HasTaken self.old.pages taken
            → IfOk result (λ p. HasTaken self.new.pages (extents p.places ++ taken)) }
        ensures full { (taken : List PlainExtent) → HasTaken self.old.pages taken → IsErrOf result TakeError.Full
            → HaveNoRoom taken (sizes (spellings Blocks list.now (seconds cuts.now) horizon.seconds)) }
        ensures none { (taken : List PlainExtent) → HasTaken self.old.pages taken → OnErr result (HasTaken self.new.pages taken) }
    {
        self.sublists
            .prepare(alloc, Layout::Blocks, list, cuts, horizon)
    }

    /// Spells the sublists of a plan in its own layout, and takes the plan's own places for them. Costs what
    /// `Sublists::prepare_at` does.
    pub fn prepare_at(
        &mut self,
        alloc: Global,
        plan: &PlanEntry,
        list: &[Posting],
    ) -> Result<Prepared, PlaceError>
        requires list { IsList list.now }
        requires as_many { length plan.now.places ≡ length plan.now.cuts }
        requires proper { All (λ (p : PlainPlace). p.extent.bytes ≡ 0 → p.extent.first ≡ 0) plan.now.places }
        requires taken { (taken : List PlainExtent) × HasTaken self.old.pages taken }
        ensures plans { self.new.plans ≡ self.old.plans }
        ensures cache { self.new.cache ≡ self.old.cache }
        ensures room { self.new.room ≡ self.old.room }
        ensures spelled { IfOk result (λ p. p.spellings
            ≡ spellings plan.now.layout list.now (seconds plan.now.cuts) plan.now.horizon.seconds) }
        ensures places { IfOk result (λ p. p.places ≡ plan.now.places) }
        ensures each { IfOk result (λ p. AllZip IsFor p.places p.spellings) }
        ensures taken { (taken : List PlainExtent) → HasTaken self.old.pages taken
            → IfOk result (λ p. HasTaken self.new.pages (extents p.places ++ taken)) }
        ensures refused { (taken : List PlainExtent) → HasTaken self.old.pages taken
            → IfErr result (IsPlaceFault taken plan.now.places
            (spellings plan.now.layout list.now (seconds plan.now.cuts) plan.now.horizon.seconds)) }
        ensures none { (taken : List PlainExtent) → HasTaken self.old.pages taken → OnErr result (HasTaken self.new.pages taken) }
    {
        self.sublists.prepare_at(
            alloc,
            plan.layout,
            list,
            plan.cuts.as_slice(),
            plan.horizon,
            plan.places.as_slice(),
        )
    }

    /// Gives the pages of sublists back that were prepared. Takes no memory.
    pub fn forget(&mut self, prepared: Prepared)
        requires taken { (live : List PlainExtent) × HasTaken self.old.pages (extents prepared.places ++ live) }
        ensures plans { self.new.plans ≡ self.old.plans }
        ensures cache { self.new.cache ≡ self.old.cache }
        ensures room { self.new.room ≡ self.old.room }
        ensures freed { (live : List PlainExtent) → HasTaken self.old.pages (extents prepared.places ++ live)
            → HasTaken self.new.pages live }
    {
        self.sublists.forget(prepared);
    }

    /// The store of the sublists, whose kept pages are those of the plans' places alone. Constant cost.
    pub fn sublists(&self) -> &Sublists
        ensures value { result.now ≡ record { pages = self.now.pages; cache = self.now.cache } }
        ensures lie { LieIn (extents_all self.now.plans) self.now.cache }
    {
        &self.sublists
    }

    /// Makes room for two plans more: one that is stored at once, and one that is being written.
    pub fn make_room(&mut self) -> Result<(), AllocError>
        ensures more { self.old.room ≤ self.new.room }
        ensures plans { self.new.plans ≡ self.old.plans }
        ensures pages { self.new.pages ≡ self.old.pages }
        ensures cache { self.new.cache ≡ self.old.cache }
        ensures room { OnOk result (2 ≤ self.new.room) }
    {
        self.plans.reserve(2)
    }

    /// A plan takes the place of the one that its word had, whose pages are free then and kept no longer;
    /// others that are taken stay so. Takes no memory. Costs a search among the plans and what giving each
    /// old place back does.
    pub fn put(&mut self, stored: StoredPlan, prepared: Prepared)
        requires room { 1 ≤ self.old.room }
        requires places { extents stored.plan.places ≡ extents prepared.places }
        requires taken { (more : List PlainExtent)
            × HasTaken self.old.pages (extents prepared.places ++ (more ++ extents_all self.old.plans)) }
        ensures plans { self.new.plans ≡ with_plan self.old.plans stored }
        ensures room { self.old.room ≤ self.new.room + 1 }
        ensures taken { (more : List PlainExtent)
            → HasTaken self.old.pages (extents prepared.places ++ (more ++ extents_all self.old.plans))
            → HasTaken self.new.pages (more ++ extents_all self.new.plans) }
        ensures stays { (pages : List ℕ) → StandsFor self.old.cache pages → StandsFor self.new.cache pages }
    {
        match put_live(&mut self.plans, stored) {
            Some(old) => self.sublists.adopt(prepared, old.plan.places.as_slice()),
            None => self.sublists.adopt(prepared, &[]),
        }
    }
}

/// The extents of the places of plans, in order. Costs their segments.
fn live_extents(alloc: Global, plans: &[StoredPlan]) -> Result<Vec<Extent>, AllocError>
    ensures { IfOk result (λ v. v.items ≡ extents_all plans.now) }
{
    let mut all = Vec::new(alloc);
    for stored in plans {
        push_extents(&mut all, stored.plan.places.as_slice())?;
    }
    Ok(all)
}

/// Adds the extents of places.
fn push_extents(all: &mut Vec<Extent>, places: &[Place]) -> Result<(), AllocError>
    ensures { OnOk result (all.new.items ≡ all.old.items ++ extents places.now) }
{
    for place in places {
        all.push(place.extent)?;
    }
    Ok(())
}

/// Why places are refused, as a load tells it.
fn bad_place(plans: &[StoredPlan], reach: u64, why: LiveError) -> LoadError
    requires { IsRefused (extents_all plans.now) reach why }
    ensures bad { (at : ℕ) → result ≡ LoadError.NotArchive at → IsBadShelf plans.now reach at }
    ensures fair { result ≡ LoadError.Failed → ⊥ }
{
    match why {
        LiveError::Outside { index } => LoadError::NotArchive {
            at: gate_at(plans, index),
        },
        LiveError::Clash { index } => LoadError::NotArchive {
            at: gate_at(plans, index),
        },
        LiveError::Memory => LoadError::Memory,
    }
}

/// The gate of the entry to whose plan the place with this index belongs. Costs the plans in front.
fn gate_at(plans: &[StoredPlan], index: usize) -> u64
    ensures { result ≡ get_or (gates_all plans.now) index 0 }
{
    let mut left = index;
    for stored in plans {
        let count = stored.plan.places.as_slice().len();
        if left < count {
            return stored.gate;
        }
        left -= count;
    }
    0
}
