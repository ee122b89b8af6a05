//! Parts of lists.
ghost use Rattle.std.specs.Prelude.{◌≤◌, ◌^◌};

use base_types::Posting;

/// The part of a word's list that a question needs.
#[derive(Debug, Drop)]
pub struct Part {
    /// Its postings.
    pub list: Vec<Posting>,
    /// How many postings were read for it.
    pub read: u64,
    pub ghost few: { read ≤ 2 ^ 40 },
}
