//! The tags of entries. An entry's first byte, at offset 0 of its body, is its tag.

/// The tag of an arrival: a document in 4 bytes at offset 1, a time in 8 bytes at offset 5, and a
/// text from offset 13 to the end.
pub const ARRIVE: u8 = 1;

/// The tag of a deletion: a document in 4 bytes at offset 1, and a time in 8 bytes at offset 5.
pub const DELETE: u8 = 2;

/// The bytes of a tag, a document and a time.
pub const CHANGE_BYTES: usize = 13;

/// The tag of a plan. Behind it stand the layout in one byte, the kind in one byte (and a time in 8
/// where that is `SINCE`), the fraction in 4 and 4 bytes, the horizon in 8, the word's length in
/// one byte, the word, how many segments there are in 4 bytes, and the segments.
pub const PLANNED: u8 = 3;

/// The tag of a batch. Behind it stands how many acts there are in 4 bytes, and each act behind its
/// length in 4 bytes, spelled as an entry of its own.
pub const BATCH: u8 = 4;

/// The bytes of a batch in front of its acts.
pub const BATCH_FRONT_BYTES: usize = 5;

/// The most acts of a batch.
pub const MOST_ACTS: u32 = 1_000;

/// The least bytes of an act with its length.
pub const LEAST_ACT_BYTES: usize = 17;

/// The tag of the mark of a journal that may have batches. Behind it stands `FORMAT_NUMBER` in 2 bytes.
pub const FORMAT: u8 = 5;

/// The number of the format that has batches.
pub const FORMAT_NUMBER: u16 = 2;

/// The bytes of the mark.
pub const FORMAT_BYTES: usize = 3;

/// The byte of sublists that are flat.
pub const FLAT: u8 = 1;

/// The byte of sublists in blocks.
pub const BLOCKS: u8 = 2;

/// The byte of a plan that keeps to a guarantee.
pub const GUARANTEE: u8 = 1;

/// The byte of a plan within a space bound, for each second alike.
pub const UNIFORM: u8 = 2;

/// The byte of a plan within a space bound, for the seconds from a time on, which stands behind it
/// in 8 bytes.
pub const SINCE: u8 = 3;

/// The most bytes of a plan in front of its segments.
pub const MOST_FRONT_BYTES: usize = 287;

/// The bytes of a segment: its left cut in 8 bytes, the first page of its sublist in 4, how many
/// bytes that has in 8, and their digest in 32.
pub const SEGMENT_BYTES: usize = 52;

/// The bytes of a SHA-256.
pub const DIGEST_BYTES: usize = 32;

/// The most segments of a plan.
pub const MOST_SEGMENTS: u32 = 1_048_575;
