//! Weights of words in a document.
ghost use Rattle.std.specs.Prelude.{◌<◌, ◌≤◌, ◌^◌};

use base_types::WordId;

/// How often a document has a word.
#[derive(Clone, Copy, Debug, PartialEq, Eq)]
pub struct Weight {
    /// The word.
    pub word: WordId,
    /// How often it occurs in the document's text, at least 1.
    pub tf: u32,
    pub ghost counted: { 1 ≤ tf },
    pub ghost bounded: { tf < 2 ^ 32 },
}
