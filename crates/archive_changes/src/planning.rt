//! Plans that are stored, or begun.
ghost use Rattle.std.specs.Prelude.{◌≡◌, ◌<◌, ◌≤◌, ◌^◌, ℕ, bytes_eq, length, option_map, All, Some, None, IsTrue, IfOk, OnOk, OnErr, IsErrOf};
ghost use Rattle.machine_model.specs.Areas.{Both};
ghost use Rattle.machine_model.specs.States.{DiskState};
ghost use Rattle.model_archive.specs.Histories.{History};
ghost use Rattle.model_archive.specs.Steps.{Begins, Begun as BegunReply, OfIdle, OfStill, Planned, Plans, Refused, spelled_key};
ghost use Rattle.model_archive.specs.Worlds.{World};
ghost use Rattle.archive_hand.specs.Jobs.{plain_job};
ghost use Rattle.archive_hand.specs.Storing.{IsDraft};
ghost use Rattle.archive_hand.specs.States.{StandsFor, AreInStepBy, CacheStands, Reaches};
ghost use Rattle.archive_hand.specs.Stored.{Store};
ghost use Rattle.archive_hand.specs.Takes.{TakesBy};
ghost use Rattle.archive_changes.specs.Endings.{begun, planned};
ghost use Rattle.archive_changes.specs.After.{AfterChange};
ghost use Rattle.archive_hand.specs.Adding.{IsSpent};
ghost use Rattle.base_commands.specs.declared.command.Command.TheVariants as commands;
ghost use Rattle.base_commands.specs.declared.command.Item.TheVariants as items;
ghost use Rattle.plans_kinds.specs.Plans.{IsCostOf, IsGoodPlan, plan_space};
ghost use Rattle.text_words.specs.Terms.{one_term as term_of};
ghost use Rattle.model_archive.specs.Planning.{OfPhrase, OfWidth, IsKnown};

use archive_entries::Declined;
use archive_hand::{Archive, Begun, ChangeError, Sealed};
use archive_plans::Draft;
use base_commands::{Kind, Phrase};
use base_types::{Fraction, Key};
use machine_model::Disk;
use model_archive::{Refusal, Summary};
use plans_choice::{Choice, ChoiceError, choose};
use std::alloc::Global;

/// Stores a plan of a word's list up to the last time, in the place of the word's plan if it has one.
/// One that keeps to a guarantee takes least space of those in which each read costs at most the
/// factor times what is alive. One under a space bound takes at most the factor times the list, and
/// its reads are expected to cost least, where each second is as likely to be asked for, or each
/// second from a time on. At `Ok` it is durable: each image that a stop may leave has it, with its
/// sublists. All memory is taken before the first write.
///
/// `Refused`: for the first cause in order, the phrase isn't one term, no text has the word, it has no
/// posting before the last time, its list has too many boundaries for a guarantee, a plan of it is being
/// written, or Pages or the journal are full. `Failed`, `Memory`: the archive is spent, and keeps what it
/// had.
/// Costs `n log n` in the word's postings; what `choose` does; what `Sublists::prepare` does; the
/// sublists' bytes, hashed and written once; a sync; and two synced writes of the entry.
pub fn plan<D: Disk>(
    alloc: Global,
    disk: &mut D,
    archive: &mut Archive,
    word: &Phrase,
    kind: Kind,
    factor: Fraction,
) -> Result<Summary, ChangeError>
    requires live { IsTrue archive.old.live }
    requires within { Reaches (D.disk disk.old).reach archive.old }
    ensures only { D.Disk.only disk.old disk.new }
    ensures after { AfterChange IsSpent D.disk_tells (disk.new ≡ disk.old) (disk.new ≡ disk.old) result (D.disk disk.old)
        (D.disk disk.new) archive.old archive.new }
    // On any disk, whatever history it stood for: a refusal has its cause there, and comes wherever there is one (unless memory runs out); at Ok
    // the archive stands for a history with a plan that may be stored.
    ensures refused { (h : History) → StandsFor archive.old h → (why : Refusal) → IsErrOf result (ChangeError.Refused why)
        → Plans (plain_job archive.old.job) h word.now kind factor (Refused why) h × StandsFor archive.new h }
    ensures stores { (h : History) → StandsFor archive.old h
        → IfOk result (λ r. (next : History)
        × (Plans (plain_job archive.old.job) h word.now kind factor (Planned r) next × StandsFor archive.new next)) }
    // In step by what reads give, whatever lies in Pages, it is a step; each image left since stands for what was before it or after it.
    ensures by_reads { D.disk_tells → (s : Store) → AreInStepBy (D.disk disk.old) archive.old s
        → TakesBy s (items.Command (commands.Plan word.now kind factor)) (planned result) (D.disk disk.old) (D.disk disk.new) archive.new }
{
    match still_draft(alloc, archive, word, kind, factor) {
        Ok(draft) => archive.store(alloc, disk, draft),
        Err(declined) => Err(archive.give_up(declined)),
    }
}

/// Begins a plan of a word's list up to the last time that keeps to a guarantee, as `plan` chooses it: takes
/// its pages and all the memory that it will need. Nothing is written; that is left to `Archive::advance`.
///
/// `Refused`: for the first cause in order, the phrase isn't one term, no text has the word, it has no posting
/// before the last time, its list has too many boundaries, a plan of it is being written, one of another
/// word is, or Pages or the journal are full. `Memory`: an allocation failed. Either way all is as it was.
/// Costs `n log n` in the word's postings; what `choose` does; and what `Sublists::prepare` does.
pub fn begin(
    alloc: Global,
    archive: &mut Archive,
    word: &Phrase,
    factor: Fraction,
) -> Result<Begun, Declined>
    requires live { IsTrue archive.old.live }
    ensures same { archive.new ≡ record (archive.old) {
      shelf = record (archive.old.shelf) { pages = archive.new.shelf.pages; room = archive.new.shelf.room };
      job = archive.new.job;
    } }
    ensures kept { OnErr result (archive.new.job ≡ archive.old.job) }
    ensures within { (reach : Both ℕ) → Reaches reach archive.old → Reaches reach archive.new }
    ensures cached { (d : DiskState) → CacheStands d archive.old → CacheStands d archive.new }
    // On any disk, whatever history it stood for.
    ensures begun { (w : World) → StandsFor archive.old w.history → w.job ≡ plain_job archive.old.job
        → IfOk result (λ b. Begins w word.now factor (BegunReply b.segments b.pages) (record w { job = plain_job archive.new.job })) }
    ensures refused { (w : World) → StandsFor archive.old w.history → w.job ≡ plain_job archive.old.job → (why : Refusal)
        → IsErrOf result (Declined.Refused why) → Begins w word.now factor (Refused why) w }
    ensures stands { (h : History) → StandsFor archive.old h → StandsFor archive.new h }
    // In step by what reads give it is a step, and no disk is asked.
    ensures by_reads { (d : DiskState) (s : Store) → AreInStepBy d archive.old s
        → TakesBy s (items.Command (commands.Begin word.now factor)) (begun result) d d archive.new }
{
    let draft = idle_draft(alloc, archive, word, factor)?;
    archive.begin(alloc, draft)
}

/// A draft, where no plan of its word is being written.
fn still_draft(
    alloc: Global,
    archive: &Archive,
    word: &Phrase,
    kind: Kind,
    factor: Fraction,
) -> Result<Draft, Declined>
    ensures refused { (h : History) → StandsFor archive.now h → (why : Refusal) → IsErrOf result (Declined.Refused why) →
        OfPhrase kind h (spelled_key (term_of word.now)) (λ because. why ≡ because)
        (λ word list. OfStill (plain_job archive.now.job) word (λ because. why ≡ because) ⊥) }
    ensures known { (h : History) → StandsFor archive.now h → IfOk result (λ d. IsKnown h d.word) }
    ensures term { IfOk result (λ d. spelled_key (term_of word.now) ≡ Some d.word) }
    ensures kind { IfOk result (λ d. d.kind ≡ kind) }
    ensures factor { IfOk result (λ d. d.factor ≡ factor) }
    ensures drafted { (h : History) → StandsFor archive.now h → IfOk result (λ d. IsDraft h d) }
    ensures still { IfOk result (λ d. OfStill (plain_job archive.now.job) d.word (λ why. ⊥) (Unit {0})) }
{
    let draft = draft(alloc, archive, word, kind, factor)?;
    match is_written(archive, &draft.word) {
        Some(true) => Err(Declined::Refused(Refusal::Busy)),
        _ => Ok(draft),
    }
}

/// A draft of a plan that keeps to a guarantee, where no plan is being written.
fn idle_draft(
    alloc: Global,
    archive: &Archive,
    word: &Phrase,
    factor: Fraction,
) -> Result<Draft, Declined>
    ensures refused { (h : History) → StandsFor archive.now h → (why : Refusal) → IsErrOf result (Declined.Refused why) →
        OfPhrase Kind.Guarantee h (spelled_key (term_of word.now)) (λ because. why ≡ because)
        (λ word list. OfIdle (plain_job archive.now.job) word (λ because. why ≡ because) ⊥) }
    ensures known { (h : History) → StandsFor archive.now h → IfOk result (λ d. IsKnown h d.word) }
    ensures term { IfOk result (λ d. spelled_key (term_of word.now) ≡ Some d.word) }
    ensures kind { IfOk result (λ d. d.kind ≡ Kind.Guarantee) }
    ensures factor { IfOk result (λ d. d.factor ≡ factor) }
    ensures drafted { (h : History) → StandsFor archive.now h → IfOk result (λ d. IsDraft h d) }
    ensures idle { OnOk result (archive.now.job ≡ None) }
{
    let draft = draft(alloc, archive, word, Kind::Guarantee, factor)?;
    match is_written(archive, &draft.word) {
        None => Ok(draft),
        Some(true) => Err(Declined::Refused(Refusal::Busy)),
        Some(false) => Err(Declined::Refused(Refusal::OneJob)),
    }
}

/// Whether the plan that is being written is one of a word; None where none is being written.
fn is_written(archive: &Archive, word: &Key) -> Option<bool>
    ensures { result ≡ option_map (λ j. bytes_eq j.ready.stored.plan.word word.now) archive.now.job }
{
    match archive.job() {
        Some(job) => Some(job.ready.stored.plan.word == *word),
        None => None,
    }
}

/// A plan of the list of a phrase's word up to the last time that is what its kind promises, or why
/// there is none to store.
fn draft(
    alloc: Global,
    archive: &Archive,
    word: &Phrase,
    kind: Kind,
    factor: Fraction,
) -> Result<Draft, Declined>
    ensures refused { (h : History) → StandsFor archive.now h → (why : Refusal) → IsErrOf result (Declined.Refused why) →
        OfPhrase kind h (spelled_key (term_of word.now)) (λ because. why ≡ because) (λ word list. ⊥) }
    ensures known { (h : History) → StandsFor archive.now h → IfOk result (λ d. IsKnown h d.word) }
    ensures term { IfOk result (λ d. spelled_key (term_of word.now) ≡ Some d.word) }
    ensures kind { IfOk result (λ d. d.kind ≡ kind) }
    ensures factor { IfOk result (λ d. d.factor ≡ factor) }
    ensures drafted { (h : History) → StandsFor archive.now h → IfOk result (λ d. IsDraft h d) }
{
    let sealed = archive.sealed(alloc, word)?;
    draft_of(alloc, sealed, kind, factor)
}

/// A plan of a word's list up to the last time that is what its kind promises.
fn draft_of(alloc: Global, sealed: Sealed, kind: Kind, factor: Fraction) -> Result<Draft, Declined>
    requires some { 0 < length sealed.list.items }
    requires few { length sealed.list.items < 2 ^ 38 }
    requires early { All (λ p. p.span.to ≤ sealed.horizon.seconds) sealed.list.items }
    ensures refused { (why : Refusal) → IsErrOf result (Declined.Refused why)
        → OfWidth kind sealed.horizon.seconds sealed.list.items (λ because. why ≡ because) ⊥ }
    ensures word { IfOk result (λ d. d.word ≡ sealed.word) }
    ensures kind { IfOk result (λ d. d.kind ≡ kind) }
    ensures factor { IfOk result (λ d. d.factor ≡ factor) }
    ensures list { IfOk result (λ d. d.list.items ≡ sealed.list.items) }
    ensures horizon { IfOk result (λ d. d.horizon ≡ sealed.horizon) }
    ensures good { IfOk result (λ d. IsGoodPlan kind sealed.list.items factor d.cuts.items sealed.horizon.seconds) }
    ensures space { IfOk result (λ d. d.space ≡ plan_space sealed.list.items d.cuts.items sealed.horizon.seconds) }
    ensures cost { IfOk result (λ d. IsCostOf kind sealed.list.items d.cuts.items sealed.horizon.seconds d.cost) }
{
    let Sealed {
        word,
        list,
        horizon,
    } = sealed;
    match choose(alloc, &list, kind, factor, horizon) {
        Ok(Choice { cuts, space, cost }) => Ok(Draft {
            word,
            kind,
            factor,
            list,
            horizon,
            cuts,
            space,
            cost,
        }),
        Err(ChoiceError::TooWide { boundaries }) => {
            Err(Declined::Refused(Refusal::TooWide { boundaries }))
        }
        Err(ChoiceError::Memory) => Err(Declined::Memory),
    }
}
