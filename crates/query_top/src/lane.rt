//! How far a word's blocks are gone through.

use base_types::Posting;

/// Behind all documents.
pub(crate) const END: u64 = 1 << 32;

/// How far a word's blocks are gone through. Blocks are counted from 0.
#[derive(Drop)]
pub(crate) struct Lane {
    /// The word's weight.
    pub(crate) weight: u64,
    /// The first block that doesn't end before the document in hand.
    pub(crate) cover: usize,
    /// The first block that begins behind it.
    pub(crate) after: usize,
    /// The first block that was neither opened nor passed over.
    pub(crate) opened: usize,
    /// The most that the document in hand has, and each up to the border.
    pub(crate) top: u32,
    /// Where other blocks cover the documents.
    pub(crate) border: u64,
    /// Where the next block begins.
    pub(crate) start: u64,
    /// The documents of the postings that were at hand, and their greatest frequency.
    pub(crate) flat_from: u64,
    pub(crate) flat_to: u64,
    pub(crate) flat_top: u32,
    /// Postings that are at hand or of opened blocks.
    pub(crate) hits: Vec<Posting>,
    /// The first hit that isn't passed.
    pub(crate) cursor: usize,
}
