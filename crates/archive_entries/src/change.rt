//! A change of a document, on its way from an entry to the directory.
ghost use Rattle.std.specs.Prelude.{◌≡◌, ◌+◌, ◌<◌, ◌≤◌, ◌++◌, [], ◌∷◌, Some, None, MatchResult};
ghost use Rattle.lists_versions.specs.Refusals.{change_refusal};
ghost use Rattle.archive_entries.specs.Entries.{IsHeld};

use base_types::TextPlace;
use lists_versions::{Change, Directory, VersionRefusal};

/// Where the text of an arrival begins in its spelling, behind the tag, the document and the time.
pub const TEXT_AT: u64 = 13;

/// Where the first act of a batch begins in its spelling, behind the tag and how many acts there are.
pub const ACTS_AT: u64 = 5;

/// Where the text of an act begins behind the place of the act's length, which has four bytes.
pub const ACT_TEXT_AT: u64 = 4 + TEXT_AT;

/// Whether a change may come next, or the first cause why not. It costs one look-up.
pub(crate) fn may_come(directory: &Directory, change: Change<u32>) -> Result<(), VersionRefusal>
    ensures { MatchResult result (λ _. change_refusal change directory.now.changes ≡ None)
        (λ why. change_refusal change directory.now.changes ≡ Some why) }
{
    match change.held {
        Some(_) => directory.may_arrive(change.doc, change.at),
        None => directory.may_delete(change.doc, change.at),
    }
}

/// The change with its text's place in the place of its length. Constant cost.
pub fn placed(change: Change<u32>, text_at: u64) -> Change<TextPlace>
    ensures doc { result.doc ≡ change.doc }
    ensures at { result.at ≡ change.at }
    ensures held { IsHeld text_at change.held result.held }
{
    Change {
        doc: change.doc,
        at: change.at,
        held: place_of(text_at, change.held),
    }
}

/// The place of a text of so many bytes. Constant cost.
fn place_of(at: u64, bytes: Option<u32>) -> Option<TextPlace>
    ensures { IsHeld at bytes result }
{
    match bytes {
        Some(bytes) => Some(TextPlace { at, bytes }),
        None => None,
    }
}

/// Adds a change that may come, for which there is room. It costs two look-ups.
pub fn note(directory: &mut Directory, change: Change<TextPlace>)
    requires allowed { change_refusal change directory.old.changes ≡ None }
    requires room { 1 ≤ directory.old.room }
    ensures changes { directory.new.changes ≡ directory.old.changes ++ change ∷ [] }
    ensures room { directory.old.room ≤ directory.new.room + 1 }
{
    match change.held {
        Some(text) => directory.arrive(change.doc, change.at, text),
        None => directory.delete(change.doc, change.at),
    }
}
