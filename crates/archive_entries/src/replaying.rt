//! Going over the entries of a loaded journal.
ghost use Rattle.std.specs.Prelude.{◌≡◌, ◌↔◌, ◌+◌, ◌<◌, ◌≤◌, ◌^◌, [], ◌∷◌, ◌++◌, ℕ, List, Option, length, map, sum_by, option_map, All, false, Ok, Some, None, IsTrue, IfOk, OnOk, IsErrOf};
ghost use Rattle.machine_model.specs.Causes.{Rose};
ghost use Rattle.machine_model.specs.Calls.{OnlyReads};
ghost use Rattle.journal_gates.specs.Records.{first_gate, gate_bytes};
ghost use Rattle.journal_gates.specs.Heads.{AreInRow, heads_of};
ghost use Rattle.journal_gates.specs.Spelled.{Spells};
ghost use Rattle.journal_gates.specs.Bodies.{BodiesState};
ghost use Rattle.base_types.specs.declared.text_place.TextPlace.{TextPlace};
ghost use Rattle.lists_versions.specs.Changes.{mapped};
ghost use Rattle.journal_entries.specs.Acts.{act_length, alone, IsAct, IsBatch};
ghost use Rattle.journal_entries.specs.Spelling.{IsEntry, spelling};
ghost use Rattle.journal_entries.specs.declared.entry.Entry.{Entry as PlainEntry};
ghost use Rattle.journal_entries.specs.declared.entry.Entry.TheVariants as entries;
ghost use Rattle.model_archive.specs.Histories.{History, changes, end_of, entry_refusal, is_marked};
ghost use Rattle.archive_entries.specs.Entries.{IsHeld, Makes, text_of};
ghost use Rattle.archive_entries.specs.Places.{pair_of, placed_act};
ghost use Rattle.lists_index.specs.Indexes.{state_of, Indexes};
ghost use Rattle.lists_index.specs.Loads.{Loads, loaded};
ghost use Rattle.model_archive.specs.Stands.{bodies_of};
ghost use Rattle.archive_entries.specs.Live.{EachOnce};
ghost use Rattle.archive_entries.specs.Replaying.{AreMet, HasAhead, IsReached, IsGoneOver, IsFaulty, IsReplayed, IsReplaying, IsStopped, IsBadAmong, IsFitIn, IsFirstUnfit, IsTimely};

use crate::change::{ACT_TEXT_AT, ACTS_AT, TEXT_AT, may_come, note, placed};
use crate::error::LoadError;
use crate::lists::{are_many, list_up_to};
use crate::live::live_of;
use base_commands::MOST_BATCH_BYTES;
use base_types::Time;
use journal_entries::{Act, CodecError, Entry, PlanEntry, decode};
use journal_gates::{Head, Journal};
use lists_index::{Index, Loader};
use lists_versions::{Change, Directory};
use machine_model::Disk;
use model_archive::StoredPlan;
use plans_kinds::is_fit;
use std::alloc::{AllocError, Global};
use text_words::NumberError;

/// What the entries of a journal make.
#[derive(Drop)]
pub struct Replayed {
    /// Their changes, with the places of the texts.
    pub directory: Directory,
    /// The index of their texts.
    pub index: Index,
    /// The live plans.
    pub plans: Vec<StoredPlan>,
    /// Whether the mark of a journal that may have batches is among them.
    pub marked: bool,
}

/// What was met so far.
#[derive(Drop)]
struct Met {
    directory: Directory,
    loader: Loader,
    plans: Vec<StoredPlan>,
    marked: bool,
}

impl Met {
    /// Nothing yet.
    fn new(alloc: Global) -> Result<Met, AllocError>
        ensures changes { IfOk result (λ m. m.directory.changes ≡ []) }
        ensures loads { IfOk result (λ m. Loads m.loader []) }
        ensures plans { IfOk result (λ m. m.plans.items ≡ []) }
        ensures marked { IfOk result (λ m. m.marked ≡ false) }
    {
        Ok(Met {
            directory: Directory::new(alloc)?,
            loader: Loader::new(alloc)?,
            plans: Vec::new(alloc),
            marked: false,
        })
    }
}

/// The directory, the index and the live plans of the entries that lie where these heads say.
///
/// `NotArchive`: an entry is cut short, is not allowed, or may not come after those before it, which shows
/// at that place. `Failed`: the disk failed. `Memory`: an allocation failed.
/// It reads the bodies in pieces of 64 KiB or a whole body, and costs time in their lengths, two look-ups
/// an entry, n log n in the words' counts and in the postings of each planned word, and a look at the live
/// plans for each plan.
pub fn replay<D: Disk>(
    alloc: Global,
    disk: &mut D,
    journal: &Journal,
    heads: &[Head],
) -> Result<Replayed, LoadError>
    requires reached { journal.now.end ≤ (D.disk disk.old).reach.journal }
    requires row { AreInRow first_gate heads.now journal.now.end }
    ensures only { D.Disk.only disk.old disk.new }
    ensures same { OnlyReads (D.disk disk.old) (D.disk disk.new) }
    ensures unread { D.disk_tells → (D.disk disk.new).bytes_read.pages ≡ (D.disk disk.old).bytes_read.pages }
    ensures failed { IsErrOf result LoadError.Failed → Rose (D.disk disk.old).faults (D.disk disk.new).faults }
    ensures stands { IfOk result (λ r. (h : History) × IsReplayed h heads.now r.directory.changes r.plans.items
        × Indexes (state_of r.index) (changes h) × (r.marked ≡ is_marked h)) }
    ensures counted { IfOk result (λ r. (h : History) → IsReplayed h heads.now r.directory.changes r.plans.items
        → (journal.now.end ≡ end_of h) × (length heads.now ≡ length h)) }
    ensures once { IfOk result (λ r. EachOnce r.plans.items) }
    ensures found { D.disk_tells → (bodies : List (List ℕ)) → heads.now ≡ heads_of first_gate bodies
        → Spells (D.disk disk.old).holds.journal bodies →
        IfOk result (λ r. (h : History) × IsReplayed h heads.now r.directory.changes r.plans.items × Indexes (state_of r.index) (changes h)
        × (bodies_of h ≡ bodies) × (r.marked ≡ is_marked h)) }
    ensures bad { D.disk_tells → (bodies : List (List ℕ)) → heads.now ≡ heads_of first_gate bodies
        → Spells (D.disk disk.old).holds.journal bodies →
        (at : ℕ) → IsErrOf result (LoadError.NotArchive at) → IsBadAmong bodies at }
{
    let mut met = Met::new(alloc)?;
    let fault = go_over(alloc, disk, journal, heads, &mut met)?;
    let Met {
        directory,
        loader,
        plans,
        marked,
    } = met;
    let index = loader.finish(alloc)?;
    if let Some(at) = first_unfit(alloc, &index, &plans)? {
        return Err(LoadError::NotArchive { at });
    }
    if let Some(at) = fault {
        return Err(LoadError::NotArchive { at });
    }
    let plans = live_of(alloc, plans)?;
    Ok(Replayed {
        directory,
        index,
        plans,
        marked,
    })
}

/// Goes over the entries, up to the first that shows by itself that this is no archive: the place where it
/// does, if there is one.
fn go_over<D: Disk>(
    alloc: Global,
    disk: &mut D,
    journal: &Journal,
    heads: &[Head],
    met: &mut Met,
) -> Result<Option<u64>, LoadError>
    requires reached { journal.now.end ≤ (D.disk disk.old).reach.journal }
    requires row { AreInRow first_gate heads.now journal.now.end }
    requires changes { met.old.directory.changes ≡ [] }
    requires loads { Loads met.old.loader [] }
    requires plans { met.old.plans.items ≡ [] }
    requires marked { met.old.marked ≡ false }
    ensures only { D.Disk.only disk.old disk.new }
    ensures same { OnlyReads (D.disk disk.old) (D.disk disk.new) }
    ensures unread { D.disk_tells → (D.disk disk.new).bytes_read.pages ≡ (D.disk disk.old).bytes_read.pages }
    ensures failed { IsErrOf result LoadError.Failed → Rose (D.disk disk.old).faults (D.disk disk.new).faults }
    ensures fair { (at : ℕ) → IsErrOf result (LoadError.NotArchive at) → ⊥ }
    ensures whole { result ≡ Ok None
        → (reader : BodiesState)
        × IsReplaying D.disk_tells (D.disk disk.old).holds.journal heads.now reader met.new.directory.changes met.new.plans.items
        met.new.marked (loaded met.new.loader)
        × (reader.left ≡ []) }
    ensures loads { IfOk result (λ _. (h : History) × Loads met.new.loader (changes h)) }
    ensures stopped { (at : ℕ) → result ≡ Ok (Some at)
        → IsStopped D.disk_tells (D.disk disk.old).holds.journal heads.now met.new.plans.items (loaded met.new.loader) at }
{
    let mut bodies = journal.bodies(alloc, heads);
    while let Some(head) = bodies.next(disk)? {
        match apply(alloc, met, &head, bodies.body(&head)) {
            Ok(()) => {}
            Err(LoadError::NotArchive { at }) => return Ok(Some(at)),
            Err(LoadError::Failed | LoadError::Memory) => return Err(LoadError::Memory),
        }
    }
    Ok(None)
}

/// Adds an entry, by its head and its body.
fn apply(alloc: Global, met: &mut Met, head: &Head, body: &[u8]) -> Result<(), LoadError>
    requires place { head.now.body ≡ head.now.gate + gate_bytes }
    requires within { head.now.body + head.now.bytes < 2 ^ 40 }
    requires len { length body.now ≡ head.now.bytes }
    ensures fair { IsErrOf result LoadError.Failed → ⊥ }
    ensures more { (h : History) → IsReached head.now.gate h met.old.directory.changes met.old.plans.items met.old.marked
        → Loads met.old.loader (changes h) →
        OnOk result (IsGoneOver head.now.gate h body.now met.new.directory.changes met.new.plans.items met.new.marked
        (loaded met.new.loader)) }
    ensures bad { (h : History) → IsReached head.now.gate h met.old.directory.changes met.old.plans.items met.old.marked
        → Loads met.old.loader (changes h) →
        (at : ℕ) → IsErrOf result (LoadError.NotArchive at) → IsFaulty head.now.gate h body.now at }
    // Where it isn't added, nothing but the first acts of a batch is.
    ensures left { (h : History) → IsReached head.now.gate h met.old.directory.changes met.old.plans.items met.old.marked
        → Loads met.old.loader (changes h) →
        (at : ℕ) → IsErrOf result (LoadError.NotArchive at) → (met.new.plans.items ≡ met.old.plans.items)
        × HasAhead h (loaded met.new.loader) }
{
    match decode(alloc, body) {
        Ok(entry) => apply_entry(alloc, met, head, entry),
        Err(CodecError::Memory) => Err(LoadError::Memory),
        Err(CodecError::Form { at }) => Err(LoadError::NotArchive { at: head.body + at }),
    }
}

/// Adds an entry that is spelled.
fn apply_entry(alloc: Global, met: &mut Met, head: &Head, entry: Entry) -> Result<(), LoadError>
    requires place { head.now.body ≡ head.now.gate + gate_bytes }
    requires within { head.now.body + head.now.bytes < 2 ^ 40 }
    requires ranges { IsEntry entry }
    requires long { length (spelling entry) ≡ head.now.bytes }
    ensures fair { IsErrOf result LoadError.Failed → ⊥ }
    ensures more { (h : History) → IsReached head.now.gate h met.old.directory.changes met.old.plans.items met.old.marked
        → Loads met.old.loader (changes h) →
        OnOk result (IsGoneOver head.now.gate h (spelling entry) met.new.directory.changes met.new.plans.items met.new.marked
        (loaded met.new.loader)) }
    ensures bad { (h : History) → IsReached head.now.gate h met.old.directory.changes met.old.plans.items met.old.marked
        → Loads met.old.loader (changes h) →
        (at : ℕ) → IsErrOf result (LoadError.NotArchive at) → IsFaulty head.now.gate h (spelling entry) at }
    // Where it isn't added, nothing but the first acts of a batch is.
    ensures left { (h : History) → IsReached head.now.gate h met.old.directory.changes met.old.plans.items met.old.marked
        → Loads met.old.loader (changes h) →
        (at : ℕ) → IsErrOf result (LoadError.NotArchive at) → (met.new.plans.items ≡ met.old.plans.items)
        × HasAhead h (loaded met.new.loader) }
{
    match entry {
        Entry::Arrive { doc, at, text } => {
            let text = text.as_str();
            let change = Change {
                doc,
                at,
                held: Some(text.len() as u32),
            };
            apply_change(alloc, met, head, change, Some(text))
        }
        Entry::Delete { doc, at } => {
            let change = Change {
                doc,
                at,
                held: None,
            };
            apply_change(alloc, met, head, change, None)
        }
        Entry::Planned(plan) => apply_plan(met, head, plan),
        Entry::Format => apply_mark(met, head),
        Entry::Batch(acts) => apply_batch(alloc, met, head, acts.as_slice()),
    }
}

/// Adds a change of a document, which an entry makes.
fn apply_change(
    alloc: Global,
    met: &mut Met,
    head: &Head,
    change: Change<u32>,
    text: Option<&str>,
) -> Result<(), LoadError>
    requires place { head.now.body ≡ head.now.gate + gate_bytes }
    requires within { head.now.body + head.now.bytes < 2 ^ 40 }
    requires makes { (entry : PlainEntry) × IsEntry entry × Makes entry change × (option_map (λ t. t.now) text ≡ text_of entry)
        × (length (spelling entry) ≡ head.now.bytes) }
    ensures fair { IsErrOf result LoadError.Failed → ⊥ }
    ensures more { (h : History) (entry : PlainEntry)
        → IsReached head.now.gate h met.old.directory.changes met.old.plans.items met.old.marked → Loads met.old.loader (changes h) →
        IsEntry entry → Makes entry change → option_map (λ t. t.now) text.entry ≡ text_of entry →
        OnOk result (IsGoneOver head.now.gate h (spelling entry) met.new.directory.changes met.new.plans.items met.new.marked
        (loaded met.new.loader)) }
    ensures bad { (h : History) (entry : PlainEntry)
        → IsReached head.now.gate h met.old.directory.changes met.old.plans.items met.old.marked → Loads met.old.loader (changes h) →
        IsEntry entry → Makes entry change → option_map (λ t. t.now) text.entry ≡ text_of entry →
        (at : ℕ) → IsErrOf result (LoadError.NotArchive at) → IsFaulty head.now.gate h (spelling entry) at }
    ensures kept { (at : ℕ) → IsErrOf result (LoadError.NotArchive at) → (met.new.directory.changes ≡ met.old.directory.changes)
        × (met.new.plans.items ≡ met.old.plans.items) × (met.new.marked ≡ met.old.marked)
        × (loaded met.new.loader ≡ loaded met.old.loader) }
{
    add_change(alloc, met, head.gate, head.body + TEXT_AT, change, text)
}

/// Adds the acts of a batch, in order.
fn apply_batch(alloc: Global, met: &mut Met, head: &Head, acts: &[Act]) -> Result<(), LoadError>
    requires place { head.now.body ≡ head.now.gate + gate_bytes }
    requires within { head.now.body + head.now.bytes < 2 ^ 40 }
    requires ranges { IsBatch acts.now }
    requires long { length (spelling (entries.Batch acts.now)) ≡ head.now.bytes }
    ensures fair { IsErrOf result LoadError.Failed → ⊥ }
    ensures more { (h : History) → IsReached head.now.gate h met.old.directory.changes met.old.plans.items met.old.marked
        → Loads met.old.loader (changes h) →
        OnOk result (IsGoneOver head.now.gate h (spelling (entries.Batch acts.now)) met.new.directory.changes met.new.plans.items
        met.new.marked (loaded met.new.loader)) }
    ensures bad { (h : History) → IsReached head.now.gate h met.old.directory.changes met.old.plans.items met.old.marked
        → Loads met.old.loader (changes h) →
        (at : ℕ) → IsErrOf result (LoadError.NotArchive at) → IsFaulty head.now.gate h (spelling (entries.Batch acts.now)) at }
    ensures left { (h : History) → IsReached head.now.gate h met.old.directory.changes met.old.plans.items met.old.marked
        → Loads met.old.loader (changes h) →
        (at : ℕ) → IsErrOf result (LoadError.NotArchive at) → (met.new.plans.items ≡ met.old.plans.items)
        × HasAhead h (loaded met.new.loader) }
{
    if !met.marked || texts_bytes(acts) > MOST_BATCH_BYTES {
        return Err(LoadError::NotArchive { at: head.gate });
    }
    let mut at = head.body + ACTS_AT;
    for act in acts {
        apply_act(alloc, met, head.gate, at, act)?;
        at += act.spelled_bytes();
    }
    Ok(())
}

/// How many bytes the texts of acts have together.
fn texts_bytes(acts: &[Act]) -> u64
    requires { IsBatch acts.now }
    ensures { result ≡ sum_by act_length acts.now }
{
    let mut bytes = 0;
    for act in acts {
        bytes += act.text_bytes();
    }
    bytes
}

/// Adds an act of a batch. Its length is at this place of the journal.
fn apply_act(alloc: Global, met: &mut Met, gate: u64, at: u64, act: &Act) -> Result<(), LoadError>
    requires within { at < 2 ^ 40 }
    requires ranges { IsAct act.now }
    ensures fair { IsErrOf result LoadError.Failed → ⊥ }
    ensures more { (h : History) → AreMet h met.old.directory.changes (loaded met.old.loader) →
        OnOk result ((entry_refusal h (alone act.now) ≡ None)
        × AreMet (h ++ alone act.now ∷ []) met.new.directory.changes (loaded met.new.loader)) }
    ensures placed { OnOk result (map (mapped pair_of) met.new.directory.changes ≡ map (mapped pair_of) met.old.directory.changes
        ++ placed_act at act.now ∷ []) }
    ensures bad { (h : History) → AreMet h met.old.directory.changes (loaded met.old.loader) →
        (place : ℕ) → IsErrOf result (LoadError.NotArchive place) → (place ≡ gate) × (entry_refusal h (alone act.now) ≡ None → ⊥) }
    ensures others { (met.new.plans.items ≡ met.old.plans.items) × (met.new.marked ≡ met.old.marked) }
    ensures kept { (place : ℕ) → IsErrOf result (LoadError.NotArchive place) → loaded met.new.loader ≡ loaded met.old.loader }
{
    match act {
        Act::Arrive {
            doc,
            at: time,
            text,
        } => {
            let text = text.as_str();
            let change = Change {
                doc: *doc,
                at: *time,
                held: Some(text.len() as u32),
            };
            add_change(alloc, met, gate, at + ACT_TEXT_AT, change, Some(text))
        }
        Act::Delete { doc, at: time } => {
            let change = Change {
                doc: *doc,
                at: *time,
                held: None,
            };
            add_change(alloc, met, gate, at + ACT_TEXT_AT, change, None)
        }
    }
}

/// Adds a change of a document. Its text, if it has one, lies at this place of the journal; the gate of its
/// entry at that one.
fn add_change(
    alloc: Global,
    met: &mut Met,
    gate: u64,
    text_at: u64,
    change: Change<u32>,
    text: Option<&str>,
) -> Result<(), LoadError>
    requires makes { (entry : PlainEntry) × IsEntry entry × Makes entry change × (option_map (λ t. t.now) text ≡ text_of entry) }
    ensures fair { IsErrOf result LoadError.Failed → ⊥ }
    ensures more { (h : History) (entry : PlainEntry) → AreMet h met.old.directory.changes (loaded met.old.loader) → Makes entry change
        → option_map (λ t. t.now) text.entry ≡ text_of entry →
        OnOk result ((entry_refusal h entry ≡ None) × AreMet (h ++ entry ∷ []) met.new.directory.changes (loaded met.new.loader)) }
    ensures placed { OnOk result ((held : Option TextPlace) × IsHeld text_at change.held held
        × (met.new.directory.changes ≡ met.old.directory.changes ++ record { doc = change.doc; at = change.at; held = held } ∷ [])) }
    ensures bad { (h : History) (entry : PlainEntry) → AreMet h met.old.directory.changes (loaded met.old.loader) → Makes entry change
        → option_map (λ t. t.now) text.entry ≡ text_of entry →
        (at : ℕ) → IsErrOf result (LoadError.NotArchive at) → (at ≡ gate) × (entry_refusal h entry ≡ None → ⊥) }
    ensures others { (met.new.plans.items ≡ met.old.plans.items) × (met.new.marked ≡ met.old.marked) }
    ensures kept { (at : ℕ) → IsErrOf result (LoadError.NotArchive at) → (met.new.directory.changes ≡ met.old.directory.changes)
        × (loaded met.new.loader ≡ loaded met.old.loader) }
{
    match may_come(&met.directory, change) {
        Ok(()) => {}
        Err(_) => return Err(LoadError::NotArchive { at: gate }),
    }
    match met.loader.add(alloc, change.doc, change.at, text) {
        Ok(()) => {}
        Err(NumberError::Full) => return Err(LoadError::NotArchive { at: gate }),
        Err(NumberError::Memory) => return Err(LoadError::Memory),
    }
    met.directory.reserve(change.doc)?;
    note(&mut met.directory, placed(change, text_at));
    Ok(())
}

/// Adds a plan, whose list is tested when all lists are there.
fn apply_plan(met: &mut Met, head: &Head, plan: PlanEntry) -> Result<(), LoadError>
    requires ranges { IsEntry (entries.Planned plan) }
    requires long { length (spelling (entries.Planned plan)) ≡ head.now.bytes }
    ensures fair { IsErrOf result LoadError.Failed → ⊥ }
    ensures more { (h : History) → IsReached head.now.gate h met.old.directory.changes met.old.plans.items met.old.marked
        → Loads met.old.loader (changes h) →
        OnOk result (IsGoneOver head.now.gate h (spelling (entries.Planned plan)) met.new.directory.changes met.new.plans.items
        met.new.marked (loaded met.new.loader)) }
    ensures bad { (h : History) → IsReached head.now.gate h met.old.directory.changes met.old.plans.items met.old.marked →
        (at : ℕ) → IsErrOf result (LoadError.NotArchive at) → IsFaulty head.now.gate h (spelling (entries.Planned plan)) at }
    ensures kept { (at : ℕ) → IsErrOf result (LoadError.NotArchive at) → (met.new.directory.changes ≡ met.old.directory.changes)
        × (met.new.plans.items ≡ met.old.plans.items) × (met.new.marked ≡ met.old.marked)
        × (loaded met.new.loader ≡ loaded met.old.loader) }
{
    if !is_timely(&met.directory, &plan) {
        return Err(LoadError::NotArchive { at: head.gate });
    }
    met.plans.reserve(1)?;
    met.plans.push_reserved(StoredPlan {
        gate: head.gate,
        plan,
    });
    Ok(())
}

/// Adds the mark of a journal that may have batches. There is one at most.
fn apply_mark(met: &mut Met, head: &Head) -> Result<(), LoadError>
    requires long { length (spelling entries.Format) ≡ head.now.bytes }
    ensures fair { IsErrOf result LoadError.Failed → ⊥ }
    ensures more { (h : History) → IsReached head.now.gate h met.old.directory.changes met.old.plans.items met.old.marked
        → Loads met.old.loader (changes h) →
        OnOk result (IsGoneOver head.now.gate h (spelling entries.Format) met.new.directory.changes met.new.plans.items met.new.marked
        (loaded met.new.loader)) }
    ensures bad { (h : History) → IsReached head.now.gate h met.old.directory.changes met.old.plans.items met.old.marked →
        (at : ℕ) → IsErrOf result (LoadError.NotArchive at) → IsFaulty head.now.gate h (spelling entries.Format) at }
    ensures kept { (at : ℕ) → IsErrOf result (LoadError.NotArchive at) → (met.new.directory.changes ≡ met.old.directory.changes)
        × (met.new.plans.items ≡ met.old.plans.items) × (met.new.marked ≡ met.old.marked)
        × (loaded met.new.loader ≡ loaded met.old.loader) }
{
    if met.marked {
        return Err(LoadError::NotArchive { at: head.gate });
    }
    met.marked = true;
    Ok(())
}

/// Whether a plan's horizon isn't later than the last time. Constant cost.
fn is_timely(directory: &Directory, plan: &PlanEntry) -> bool
    ensures { IsTrue result ↔ IsTimely directory.now.changes plan.now }
{
    match directory.last() {
        Some(last) => is_by(plan.horizon, last),
        None => false,
    }
}

/// Whether a time isn't later than another.
fn is_by(at: Time, last: Time) -> bool
    ensures { IsTrue result ↔ (at.seconds ≤ last.seconds) }
{
    at.seconds() <= last.seconds()
}

/// The gate of the first plan that doesn't keep the bound of its kind for its word's list. It costs
/// `n log n` in the postings of each plan's word, and the plan's cuts.
fn first_unfit(alloc: Global, index: &Index, plans: &[StoredPlan]) -> Result<Option<u64>, LoadError>
    ensures fair { IsErrOf result LoadError.Failed → ⊥ }
    ensures only_memory { (at : ℕ) → IsErrOf result (LoadError.NotArchive at) → ⊥ }
    ensures none { IfOk result (λ o. o ≡ None → (h : History) → Indexes (state_of index.now) (changes h) → All (IsFitIn h) plans.now) }
    ensures first { IfOk result (λ o. (at : ℕ) → o ≡ Some at → (h : History) → Indexes (state_of index.now) (changes h)
        → IsFirstUnfit h plans.now at) }
{
    for stored in plans {
        if !fits(alloc, index, stored)? {
            return Ok(Some(stored.gate));
        }
    }
    Ok(None)
}

/// Whether a plan keeps the bound of its kind, for its word's list up to its horizon.
fn fits(alloc: Global, index: &Index, stored: &StoredPlan) -> Result<bool, LoadError>
    ensures fair { IsErrOf result LoadError.Failed → ⊥ }
    ensures only_memory { (at : ℕ) → IsErrOf result (LoadError.NotArchive at) → ⊥ }
    ensures fits { IfOk result (λ b. (h : History) → Indexes (state_of index.now) (changes h) → (IsTrue b ↔ IsFitIn h stored.now)) }
{
    let plan = &stored.plan;
    let whole = index.list(alloc, &plan.word)?;
    let list = list_up_to(alloc, &whole, plan.horizon)?;
    if list.is_empty() {
        return Ok(false);
    }
    if are_many(&list) {
        return Err(LoadError::Memory);
    }
    let fit = is_fit(
        alloc,
        &list,
        plan.kind,
        plan.fraction,
        plan.cuts.as_slice(),
        plan.horizon,
    )?;
    Ok(fit)
}
