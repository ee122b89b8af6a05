//! Where the sublists of a plan lie, and how they are spelled there.
use base_types::Extent;

/// How lists are spelled in pages.
#[derive(Clone, Copy, Debug, PartialEq, Eq)]
pub enum Layout {
    /// 24 bytes a posting.
    Flat,
    /// Blocks of at most 128 postings, with numbers as short as they can be.
    Blocks,
}

/// The place of a sublist in Pages.
#[derive(Clone, Copy, Debug, PartialEq, Eq)]
pub struct Place {
    /// Where its bytes lie.
    pub extent: Extent,
    /// Their SHA-256.
    pub digest: [u8; 32],
}
