//! The texts of all versions, as they stand in the journal.
ghost use Rattle.std.specs.Prelude.{◌≡◌, ◌⊎◌, ◌↔◌, ◌+◌, ◌^◌, ◌<◌, ◌≤◌, ◌++◌, ◌∷◌, [], List, ℕ, length, All, IsTrue, IfOk, IfSome, IsErrOf, MatchOption, IsUtf8};
ghost use Rattle.std.specs.Option.{option_map};
ghost use Rattle.machine_model.specs.Causes.{Rose};
ghost use Rattle.machine_model.specs.Calls.{OnlyReads};
ghost use Rattle.lists_versions.specs.declared.change.Change.{Change as PlainChange};
ghost use Rattle.lists_versions.specs.Changes.{changes_of, mapped};
ghost use Rattle.lists_index.specs.Loads.{Loads, loaded};
ghost use Rattle.archive_entries.specs.Texts.{text_in, LiesIn};
ghost use Rattle.archive_check.specs.Verdicts.{with_texts, IsText, IsFirstBad, AreInOrder};
ghost use Rattle.archive_check.specs.Checking.{IsLoadedBehind, AreAllLoaded, IsStopped, AreRead};

use crate::error::VerifyError;
use base_types::{DocId, TextPlace, Time};
use journal_gates::Journal;
use lists_index::{Index, Loader};
use lists_versions::Change;
use machine_model::Disk;
use std::alloc::Global;
use std::str;

/// A version of a document.
#[derive(Clone, Copy)]
pub(crate) struct Version {
    pub(crate) doc: DocId,
    pub(crate) at: Time,
}

/// What all texts are.
#[derive(Drop)]
pub(crate) enum Texts {
    /// UTF-8, with this index.
    Good(Index),
    /// Not all UTF-8: in the order of (document, time) this is the first that isn't.
    Bad(Version),
}

/// Reads the texts of all changes. Costs a read of each, `n log n` in the words' counts, and memory of
/// the longest text and of the index; where one isn't UTF-8, a second read of the later ones at most.
pub(crate) fn read_texts<D: Disk>(
    alloc: Global,
    disk: &mut D,
    journal: &Journal,
    changes: &[Change<TextPlace>],
) -> Result<Texts, VerifyError>
    requires reached { journal.now.end ≤ (D.disk disk.old).reach.journal }
    requires inside { All (λ c. LiesIn journal.now.end c.held) changes.now }
    requires order { AreInOrder changes.now }
    ensures only { D.Disk.only disk.old disk.new }
    ensures same { OnlyReads (D.disk disk.old) (D.disk disk.new) }
    ensures failed { IsErrOf result VerifyError.Failed → Rose (D.disk disk.old).faults (D.disk disk.new).faults }
    ensures read { IfOk result (AreRead D.disk_tells (D.disk disk.old).holds.journal changes.now) }
{
    let mut loader = Loader::new(alloc)?;
    match load_texts(alloc, disk, journal, changes, &mut loader)? {
        None => Ok(Texts::Good(loader.finish(alloc)?)),
        Some(at) => {
            let (_, later) = changes.split_at(at + 1);
            let version = first_bad(alloc, disk, journal, changes[at], later)?;
            Ok(Texts::Bad(version))
        }
    }
}

/// Loads the texts of the changes, up to the first that isn't UTF-8: which change that is, if there is
/// one.
fn load_texts<D: Disk>(
    alloc: Global,
    disk: &mut D,
    journal: &Journal,
    changes: &[Change<TextPlace>],
    loader: &mut Loader,
) -> Result<Option<usize>, VerifyError>
    requires reached { journal.now.end ≤ (D.disk disk.old).reach.journal }
    requires inside { All (λ c. LiesIn journal.now.end c.held) changes.now }
    requires order { AreInOrder changes.now }
    requires loads { Loads loader.old [] }
    ensures only { D.Disk.only disk.old disk.new }
    ensures same { OnlyReads (D.disk disk.old) (D.disk disk.new) }
    ensures failed { IsErrOf result VerifyError.Failed → Rose (D.disk disk.old).faults (D.disk disk.new).faults }
    ensures loaded { IfOk result (λ o. MatchOption o
        (AreAllLoaded D.disk_tells (D.disk disk.old).holds.journal changes.now (loaded loader.new))
        (IsStopped D.disk_tells (D.disk disk.old).holds.journal changes.now)) }
{
    for at in 0..changes.len() {
        if !load_text(alloc, disk, journal, changes[at], loader)? {
            return Ok(Some(at));
        }
    }
    Ok(None)
}

/// Loads the text of a change; false where it isn't UTF-8.
fn load_text<D: Disk>(
    alloc: Global,
    disk: &mut D,
    journal: &Journal,
    change: Change<TextPlace>,
    loader: &mut Loader,
) -> Result<bool, VerifyError>
    requires reached { journal.now.end ≤ (D.disk disk.old).reach.journal }
    requires inside { LiesIn journal.now.end change.held }
    ensures only { D.Disk.only disk.old disk.new }
    ensures same { OnlyReads (D.disk disk.old) (D.disk disk.new) }
    ensures failed { IsErrOf result VerifyError.Failed → Rose (D.disk disk.old).faults (D.disk disk.new).faults }
    ensures loaded { IfOk result (λ b. IsTrue b → (texts : List (PlainChange (List ℕ))) → Loads loader.old texts
        → All (λ d. d.at.seconds < change.at.seconds) (changes_of change.doc texts) →
        IsLoadedBehind D.disk_tells (D.disk disk.old).holds.journal texts change (loaded loader.new)) }
    ensures bad { D.disk_tells → IfOk result (λ b. (IsTrue b → ⊥) → ¬ (IsText (mapped (text_in (D.disk disk.old).holds.journal) change))) }
{
    match change.held {
        Some(place) => {
            let bytes = text_at(alloc, disk, journal, place)?;
            load_bytes(alloc, change.doc, change.at, &bytes, loader)
        }
        None => {
            loader.add(alloc, change.doc, change.at, None)?;
            Ok(true)
        }
    }
}

/// Loads bytes as a document's text; false where they aren't UTF-8.
fn load_bytes(
    alloc: Global,
    doc: DocId,
    at: Time,
    bytes: &[u8],
    loader: &mut Loader,
) -> Result<bool, VerifyError>
    requires few { length bytes.now < 2 ^ 32 }
    ensures fair { IsErrOf result VerifyError.Failed → ⊥ }
    ensures loaded { IfOk result (λ b. IsTrue b → (texts : List (PlainChange (List ℕ))) → Loads loader.old texts
        → All (λ d. d.at.seconds < at.seconds) (changes_of doc texts) →
        Loads loader.new (texts ++ record { doc = doc; at = at; held = Some bytes.now } ∷ [])) }
    ensures utf8 { IfOk result (λ b. IsTrue b ↔ IsUtf8 bytes.now) }
{
    let Ok(text) = str::from_utf8(bytes) else {
        return Ok(false);
    };
    loader.add(alloc, doc, at, Some(text))?;
    Ok(true)
}

/// Of changes, the first of which has a text that isn't UTF-8, the version that is the first such in the
/// order of (document, time). Texts that come later than one that isn't UTF-8 aren't read.
fn first_bad<D: Disk>(
    alloc: Global,
    disk: &mut D,
    journal: &Journal,
    first: Change<TextPlace>,
    changes: &[Change<TextPlace>],
) -> Result<Version, VerifyError>
    requires reached { journal.now.end ≤ (D.disk disk.old).reach.journal }
    requires inside { All (λ c. LiesIn journal.now.end c.held) changes.now }
    ensures only { D.Disk.only disk.old disk.new }
    ensures same { OnlyReads (D.disk disk.old) (D.disk disk.new) }
    ensures failed { IsErrOf result VerifyError.Failed → Rose (D.disk disk.old).faults (D.disk disk.new).faults }
    ensures first { D.disk_tells → ¬ (IsText (mapped (text_in (D.disk disk.old).holds.journal) first))
        → IfOk result (λ v. IsFirstBad (with_texts (D.disk disk.old).holds.journal (first ∷ changes.now)) v.doc v.at) }
{
    let mut bad = Version {
        doc: first.doc,
        at: first.at,
    };
    for change in changes {
        bad = earlier_bad(alloc, disk, journal, bad, *change)?;
    }
    Ok(bad)
}

/// The first version whose text isn't UTF-8, where that was so far, with one change more.
fn earlier_bad<D: Disk>(
    alloc: Global,
    disk: &mut D,
    journal: &Journal,
    bad: Version,
    change: Change<TextPlace>,
) -> Result<Version, VerifyError>
    requires reached { journal.now.end ≤ (D.disk disk.old).reach.journal }
    requires inside { LiesIn journal.now.end change.held }
    ensures only { D.Disk.only disk.old disk.new }
    ensures same { OnlyReads (D.disk disk.old) (D.disk disk.new) }
    ensures failed { IsErrOf result VerifyError.Failed → Rose (D.disk disk.old).faults (D.disk disk.new).faults }
    ensures first { D.disk_tells → (texts : List (PlainChange (List ℕ))) → IsFirstBad texts bad.doc bad.at →
        IfOk result (λ v. IsFirstBad (texts ++ mapped (text_in (D.disk disk.old).holds.journal) change ∷ []) v.doc v.at) }
{
    if !comes_first(change, bad) {
        return Ok(bad);
    }
    if is_text(alloc, disk, journal, change.held)? {
        return Ok(bad);
    }
    Ok(Version {
        doc: change.doc,
        at: change.at,
    })
}

/// Whether a change stands in front of a version in the order of (document, time).
fn comes_first(change: Change<TextPlace>, version: Version) -> bool
    ensures { IsTrue result ↔ ((change.doc.0 < version.doc.0)
        ⊎ ((change.doc.0 ≡ version.doc.0) × (change.at.seconds < version.at.seconds))) }
{
    change.doc.0 < version.doc.0
        || change.doc.0 == version.doc.0 && change.at.seconds < version.at.seconds
}

/// Whether the text at a place is UTF-8, if there is one.
fn is_text<D: Disk>(
    alloc: Global,
    disk: &mut D,
    journal: &Journal,
    held: Option<TextPlace>,
) -> Result<bool, VerifyError>
    requires reached { journal.now.end ≤ (D.disk disk.old).reach.journal }
    requires inside { LiesIn journal.now.end held }
    ensures only { D.Disk.only disk.old disk.new }
    ensures same { OnlyReads (D.disk disk.old) (D.disk disk.new) }
    ensures failed { IsErrOf result VerifyError.Failed → Rose (D.disk disk.old).faults (D.disk disk.new).faults }
    ensures text { D.disk_tells → IfOk result (λ b. IsTrue b ↔ IfSome (option_map (text_in (D.disk disk.old).holds.journal) held) IsUtf8) }
{
    match held {
        Some(place) => {
            let bytes = text_at(alloc, disk, journal, place)?;
            Ok(str::from_utf8(&bytes).is_ok())
        }
        None => Ok(true),
    }
}

/// The bytes at a place of the journal, which lies in front of its end. Costs one read, and memory of the
/// place's length.
fn text_at<D: Disk>(
    alloc: Global,
    disk: &mut D,
    journal: &Journal,
    place: TextPlace,
) -> Result<Vec<u8>, VerifyError>
    requires reached { journal.now.end ≤ (D.disk disk.old).reach.journal }
    requires inside { place.at + place.bytes ≤ journal.now.end }
    ensures only { D.Disk.only disk.old disk.new }
    ensures same { OnlyReads (D.disk disk.old) (D.disk disk.new) }
    ensures failed { IsErrOf result VerifyError.Failed → Rose (D.disk disk.old).faults (D.disk disk.new).faults }
    ensures long { IfOk result (λ v. length v.items ≡ place.bytes) }
    ensures text { D.disk_tells → IfOk result (λ v. v.items ≡ text_in (D.disk disk.old).holds.journal place) }
{
    let mut text = vec![in alloc; 0; place.bytes as usize]?;
    journal.read(disk, place.at, &mut text)?;
    Ok(text)
}
