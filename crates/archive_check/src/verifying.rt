//! The check.
ghost use Rattle.std.specs.Prelude.{◌≡◌, ◌+◌, ◌<◌, ◌≤◌, Ok, Some, None, List, ℕ, length, map, All, IfOk, IsErrOf, MatchOption};
ghost use Rattle.machine_model.specs.Causes.{Rose};
ghost use Rattle.machine_model.specs.Calls.{OnlyReads};
ghost use Rattle.lists_postings.specs.Lists.{IsList};
ghost use Rattle.lists_versions.specs.declared.change.Change.{Change as PlainChange};
ghost use Rattle.lists_index.specs.Indexes.{state_of, Indexes};
ghost use Rattle.plans_kinds.specs.Plans.{IsLeastPlan};
ghost use Rattle.archive_entries.specs.Texts.{LiesIn};
ghost use Rattle.archive_check.specs.Verdicts.{with_texts, AreInOrder, IsPlanned, IsSound, IsText, IsVerdict, LiesInside, Says, IsToBeLeast};
ghost use Rattle.archive_check.specs.Digests.{IsFinding};
ghost use Rattle.archive_check.specs.Checking.{AreAltered, DigestsTold, IsExcess, IsExcessOf, IsFaultOf, TellsAll};

use crate::digests::Digests;
use crate::error::VerifyError;
use crate::finding::Finding;
use crate::least::{Excess, excess_of};
use crate::ordering::{Ranked, by_number};
use crate::segments::{Looking, first_faults};
use crate::texts::{Texts, read_texts};
use archive_entries::list_up_to;
use base_commands::Kind;
use base_types::{Key, Posting};
use journal_entries::PlanEntry;
use journal_gates::Journal;
use lists_index::Index;
use lists_versions::Directory;
use machine_model::Disk;
use model_archive::{StoredPlan, Verdict};
use std::alloc::{AllocError, Global};

/// A segment of a word's plan whose digest isn't that of its bytes.
#[derive(Drop)]
pub(crate) struct Altered {
    pub(crate) word: Key,
    pub(crate) segment: u64,
}

/// What a check came to.
#[derive(Drop)]
pub(crate) struct Checked {
    pub(crate) verdict: Verdict,
    /// Where all is sound, and digests are asked: the first that is wrong.
    pub(crate) altered: Option<Altered>,
}

/// What is wrong with a plan.
#[derive(Drop)]
pub(crate) struct Tested {
    pub(crate) fault: Option<Verdict>,
    /// Where it has no fault, and digests are asked: the first segment whose digest is wrong.
    pub(crate) altered: Option<usize>,
}

/// Checks the plans of an archive by its texts, in the order of the numbers that their words have there:
/// that the place of each segment holds the bytes of its sublist, and that each plan is a least one that
/// keeps to a guarantee and may be loaded for its list. The first fault is the verdict; where a text
/// isn't UTF-8, that is. Without plans nothing is read. Nothing is changed.
///
/// `Failed`: the disk failed. `Memory`: an allocation failed, or the texts that were read have more than 2^20
/// words, which those of no archive have.
/// It reads each text and each sublist once, and holds the index of all words beside one text or one
/// sublist. It costs time in the texts, `n log n` in the words' counts and in the plans, and for each
/// plan `n log n` in its word's postings and passes over those that overlap its segments, for each
/// halving of these.
pub fn verify<D: Disk>(
    alloc: Global,
    disk: &mut D,
    journal: &Journal,
    directory: &Directory,
    plans: &[StoredPlan],
) -> Result<Verdict, VerifyError>
    requires reached { journal.now.end ≤ (D.disk disk.old).reach.journal }
    requires texts { All (λ c. LiesIn journal.now.end c.held) directory.now.changes }
    requires order { AreInOrder directory.now.changes }
    requires places { All (λ s. LiesInside (D.disk disk.old).reach.pages s.plan) plans.now }
    ensures only { D.Disk.only disk.old disk.new }
    ensures same { OnlyReads (D.disk disk.old) (D.disk disk.new) }
    ensures failed { IsErrOf result VerifyError.Failed → Rose (D.disk disk.old).faults (D.disk disk.new).faults }
    ensures unasked { length plans.now ≡ 0 → (result ≡ Ok (Verdict.Sound 0 0)) × (disk.new ≡ disk.old) }
    // By what reads give, and where texts and sublists lie.
    ensures verdict { D.disk_tells
        → IfOk result (IsVerdict (D.disk disk.old).holds.journal directory.now.changes (D.disk disk.old).holds.pages plans.now) }
{
    let checked = check(alloc, disk, Digests::Unasked, journal, directory, plans)?;
    Ok(checked.verdict)
}

/// Checks plans as `verify` does, and then the digests that the journal has of their sublists: where all
/// else is right, it tells the first that isn't the SHA-256 of the bytes that stand there, in the order of
/// `verify`.
///
/// Errors and cost are those of `verify`, and a digest of each sublist over the bytes that were read for
/// it: none is read twice.
pub fn verify_with_digests<D: Disk>(
    alloc: Global,
    disk: &mut D,
    journal: &Journal,
    directory: &Directory,
    plans: &[StoredPlan],
) -> Result<Finding, VerifyError>
    requires reached { journal.now.end ≤ (D.disk disk.old).reach.journal }
    requires texts { All (λ c. LiesIn journal.now.end c.held) directory.now.changes }
    requires order { AreInOrder directory.now.changes }
    requires places { All (λ s. LiesInside (D.disk disk.old).reach.pages s.plan) plans.now }
    ensures only { D.Disk.only disk.old disk.new }
    ensures same { OnlyReads (D.disk disk.old) (D.disk disk.new) }
    ensures failed { IsErrOf result VerifyError.Failed → Rose (D.disk disk.old).faults (D.disk disk.new).faults }
    // By what reads give, and by where texts and sublists lie and which digests they have.
    ensures finding { D.disk_tells
        → IfOk result (IsFinding (D.disk disk.old).holds.journal directory.now.changes (D.disk disk.old).holds.pages plans.now) }
{
    let checked = check(alloc, disk, Digests::Asked, journal, directory, plans)?;
    let Checked { verdict, altered } = checked;
    match altered {
        Some(altered) => Ok(Finding::BadDigest {
            word: altered.word,
            segment: altered.segment,
        }),
        None => Ok(Finding::Told(verdict)),
    }
}

/// Checks plans, with their digests or without.
fn check<D: Disk>(
    alloc: Global,
    disk: &mut D,
    digests: Digests,
    journal: &Journal,
    directory: &Directory,
    plans: &[StoredPlan],
) -> Result<Checked, VerifyError>
    requires reached { journal.now.end ≤ (D.disk disk.old).reach.journal }
    requires texts { All (λ c. LiesIn journal.now.end c.held) directory.now.changes }
    requires order { AreInOrder directory.now.changes }
    requires places { All (λ s. LiesInside (D.disk disk.old).reach.pages s.plan) plans.now }
    ensures only { D.Disk.only disk.old disk.new }
    ensures same { OnlyReads (D.disk disk.old) (D.disk disk.new) }
    ensures failed { IsErrOf result VerifyError.Failed → Rose (D.disk disk.old).faults (D.disk disk.new).faults }
    ensures unasked { length plans.now ≡ 0 → (result ≡ Ok (record { verdict = Verdict.Sound 0 0; altered = None }))
        × (disk.new ≡ disk.old) }
    ensures told { D.disk_tells
        → IfOk result (λ c. TellsAll digests c (with_texts (D.disk disk.old).holds.journal directory.now.changes)
        (D.disk disk.old).holds.pages plans.now) }
{
    if plans.is_empty() {
        return Ok(Checked {
            verdict: Verdict::Sound {
                words: 0,
                segments: 0,
            },
            altered: None,
        });
    }
    match read_texts(alloc, disk, journal, directory.changes())? {
        Texts::Good(index) => check_by_number(alloc, disk, digests, &index, plans),
        Texts::Bad(version) => Ok(Checked {
            verdict: Verdict::BadText {
                doc: version.doc,
                at: version.at,
            },
            altered: None,
        }),
    }
}

/// Checks plans by the index of the texts, in the order of the numbers of their words.
fn check_by_number<D: Disk>(
    alloc: Global,
    disk: &mut D,
    digests: Digests,
    index: &Index,
    plans: &[StoredPlan],
) -> Result<Checked, VerifyError>
    requires texts { (texts : List (PlainChange (List ℕ))) × Indexes (state_of index.now) texts }
    requires places { All (λ s. LiesInside (D.disk disk.old).reach.pages s.plan) plans.now }
    ensures only { D.Disk.only disk.old disk.new }
    ensures same { OnlyReads (D.disk disk.old) (D.disk disk.new) }
    ensures failed { IsErrOf result VerifyError.Failed → Rose (D.disk disk.old).faults (D.disk disk.new).faults }
    ensures told { D.disk_tells → (texts : List (PlainChange (List ℕ))) → Indexes (state_of index.now) texts → All IsText texts →
        IfOk result (λ c. TellsAll digests c texts (D.disk disk.old).holds.pages plans.now) }
{
    let ranked = by_number(alloc, index, plans)?;
    check_plans(alloc, disk, digests, index, &ranked)
}

/// Checks plans in turn.
fn check_plans<D: Disk>(
    alloc: Global,
    disk: &mut D,
    digests: Digests,
    index: &Index,
    ranked: &[Ranked],
) -> Result<Checked, VerifyError>
    requires texts { (texts : List (PlainChange (List ℕ))) × Indexes (state_of index.now) texts }
    requires places { All (λ t. LiesInside (D.disk disk.old).reach.pages t.stored.now.plan) ranked.now }
    ensures only { D.Disk.only disk.old disk.new }
    ensures same { OnlyReads (D.disk disk.old) (D.disk disk.new) }
    ensures failed { IsErrOf result VerifyError.Failed → Rose (D.disk disk.old).faults (D.disk disk.new).faults }
    ensures verdict { D.disk_tells → (texts : List (PlainChange (List ℕ))) → Indexes (state_of index.now) texts → All IsText texts →
        IfOk result (λ c. Says c.verdict texts (D.disk disk.old).holds.pages (map (λ t. t.stored.now) ranked.now)) }
    ensures altered { D.disk_tells → digests ≡ Digests.Asked
        → IfOk result (λ c. DigestsTold c (D.disk disk.old).holds.pages (map (λ t. t.stored.now) ranked.now)) }
{
    let mut segments = 0;
    let mut altered = None;
    for one in ranked {
        let plan = &one.stored.plan;
        let tested = test_plan(alloc, disk, digests, index, plan)?;
        let Tested {
            fault,
            altered: segment,
        } = tested;
        if let Some(fault) = fault {
            return Ok(Checked {
                verdict: fault,
                altered: None,
            });
        }
        altered = with_altered(altered, plan, segment)?;
        segments = with_segments(segments, plan)?;
    }
    Ok(Checked {
        verdict: Verdict::Sound {
            words: ranked.len() as u64,
            segments,
        },
        altered,
    })
}

/// The first digest that is wrong, with one plan more, of which this segment's is the first.
fn with_altered(
    before: Option<Altered>,
    plan: &PlanEntry,
    segment: Option<usize>,
) -> Result<Option<Altered>, AllocError>
    ensures first { IfOk result (λ o. MatchOption before
        (MatchOption segment (o ≡ None) (λ n. o ≡ Some (record { word = plan.now.word; segment = n })))
        (λ a. o ≡ Some a)) }
{
    match before {
        Some(altered) => Ok(Some(altered)),
        None => match segment {
            Some(at) => Ok(Some(Altered {
                word: plan.word.clone()?,
                segment: at as u64,
            })),
            None => Ok(None),
        },
    }
}

/// The segments of one plan more. There is no memory for plans with more than 2^64 segments.
fn with_segments(segments: u64, plan: &PlanEntry) -> Result<u64, VerifyError>
    ensures fair { IsErrOf result VerifyError.Failed → ⊥ }
    ensures sum { IfOk result (λ n. n ≡ segments + length plan.now.cuts) }
{
    match segments.checked_add(plan.cuts.as_slice().len() as u64) {
        Some(sum) => Ok(sum),
        None => Err(VerifyError::Memory),
    }
}

/// What is wrong with a plan.
fn test_plan<D: Disk>(
    alloc: Global,
    disk: &mut D,
    digests: Digests,
    index: &Index,
    plan: &PlanEntry,
) -> Result<Tested, VerifyError>
    requires texts { (texts : List (PlainChange (List ℕ))) × Indexes (state_of index.now) texts }
    requires places { LiesInside (D.disk disk.old).reach.pages plan.now }
    ensures only { D.Disk.only disk.old disk.new }
    ensures same { OnlyReads (D.disk disk.old) (D.disk disk.new) }
    ensures failed { IsErrOf result VerifyError.Failed → Rose (D.disk disk.old).faults (D.disk disk.new).faults }
    ensures fault { D.disk_tells → (texts : List (PlainChange (List ℕ))) → Indexes (state_of index.now) texts →
        IfOk result (λ t. MatchOption t.fault (IsSound texts (D.disk disk.old).holds.pages plan.now)
        (IsFaultOf texts (D.disk disk.old).holds.pages plan.now)) }
    ensures altered { D.disk_tells → digests ≡ Digests.Asked
        → IfOk result (λ t. t.fault ≡ None → AreAltered (D.disk disk.old).holds.pages plan.now.places t.altered) }
{
    let list = list_of(alloc, index, plan)?;
    let looking = Looking {
        layout: plan.layout,
        digests,
    };
    let cuts = plan.cuts.as_slice();
    let places = plan.places.as_slice();
    let faults = first_faults(alloc, disk, looking, &list, cuts, places, plan.horizon)?;
    match faults.wrong {
        Some(wrong) => Ok(Tested {
            fault: Some(Verdict::Differs {
                word: plan.word.clone()?,
                segment: wrong.segment as u64,
                place: wrong.spot.place,
                found: wrong.spot.found,
                wanted: wrong.spot.wanted,
            }),
            altered: None,
        }),
        None => Ok(Tested {
            fault: excess_fault(alloc, &list, plan)?,
            altered: faults.altered,
        }),
    }
}

/// That a plan takes more than it has to, as a verdict tells it.
fn excess_fault(
    alloc: Global,
    list: &[Posting],
    plan: &PlanEntry,
) -> Result<Option<Verdict>, VerifyError>
    requires early { All (λ p. p.span.to ≤ plan.now.horizon.seconds) list.now }
    ensures fair { IsErrOf result VerifyError.Failed → ⊥ }
    ensures least { IfOk result (λ o. MatchOption o
        (IsToBeLeast plan.now list.now → IsLeastPlan list.now plan.now.fraction plan.now.cuts plan.now.horizon.seconds)
        (IsExcessOf plan.now list.now)) }
{
    match excess_in(alloc, list, plan)? {
        Some(excess) => Ok(Some(Verdict::NotLeast {
            word: plan.word.clone()?,
            taken: excess.taken,
            least: excess.least,
        })),
        None => Ok(None),
    }
}

/// The list of a plan's word up to its horizon, by the index of the texts.
fn list_of(alloc: Global, index: &Index, plan: &PlanEntry) -> Result<Vec<Posting>, AllocError>
    requires texts { (texts : List (PlainChange (List ℕ))) × Indexes (state_of index.now) texts }
    ensures planned { IfOk result (λ v. (texts : List (PlainChange (List ℕ))) → Indexes (state_of index.now) texts
        → IsPlanned texts plan.now v.items) }
    ensures ordered { IfOk result (λ v. IsList v.items) }
    ensures early { IfOk result (λ v. All (λ p. p.span.to ≤ plan.now.horizon.seconds) v.items) }
{
    let whole = index.list(alloc, &plan.word)?;
    list_up_to(alloc, &whole, plan.horizon)
}

/// What a plan takes, where it has to be a least one and isn't.
fn excess_in(
    alloc: Global,
    list: &[Posting],
    plan: &PlanEntry,
) -> Result<Option<Excess>, VerifyError>
    requires early { All (λ p. p.span.to ≤ plan.now.horizon.seconds) list.now }
    ensures fair { IsErrOf result VerifyError.Failed → ⊥ }
    ensures least { IfOk result (λ o. MatchOption o
        (IsToBeLeast plan.now list.now → IsLeastPlan list.now plan.now.fraction plan.now.cuts plan.now.horizon.seconds)
        (λ e. (plan.now.kind ≡ Kind.Guarantee)
        × IsExcess list.now plan.now.fraction plan.now.cuts plan.now.horizon.seconds e.taken e.least)) }
{
    match plan.kind {
        Kind::Guarantee => excess_of(
            alloc,
            list,
            plan.fraction,
            plan.cuts.as_slice(),
            plan.horizon,
        ),
        Kind::Uniform => Ok(None),
        Kind::Since { .. } => Ok(None),
    }
}
