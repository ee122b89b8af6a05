//! Where texts lie.
ghost use Rattle.std.specs.Prelude.{◌<◌, ◌^◌};

/// Where a text lies in the journal, so that it is read again rather than kept.
#[derive(Clone, Copy, Debug, PartialEq, Eq, PartialOrd, Ord, Hash)]
pub struct TextPlace {
    /// The place in the journal of the text's first byte.
    pub at: u64,
    /// The text's length in bytes.
    pub bytes: u32,
    pub ghost placed: { at < 2 ^ 64 },
    pub ghost bounded: { bytes < 2 ^ 32 },
}
