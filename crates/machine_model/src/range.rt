/// A range of bytes of an area: `count` bytes from the place `at` on.
#[derive(Clone, Copy, Debug, PartialEq, Eq)]
pub struct Range {
    /// The place of the first byte.
    pub at: u64,
    /// The number of bytes.
    pub count: u64,
}
