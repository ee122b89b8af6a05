//! What a word's list has in a span.
ghost use Rattle.std.specs.Prelude.{◌≤◌, ◌^◌};

use base_types::Posting;

/// What a word's list, as far as an index keeps it, has in a span of time, and how long that list
/// is.
#[derive(Debug, Drop)]
pub struct ListPart {
    /// The list's postings that have a time in the span, uncut, in the list's order.
    pub rows: Vec<Posting>,
    /// How many postings the list has in all.
    pub whole: u64,
    pub ghost few: { whole ≤ 2 ^ 40 },
}
