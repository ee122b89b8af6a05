/// One of the two areas of an archive's disk: a file each.
#[derive(Clone, Copy, Debug, PartialEq, Eq)]
pub enum Area {
    /// The journal: the entries of the archive's history, in order.
    Journal,
    /// The page area: the stored sublists, in pages of 4,096 bytes.
    Pages,
}

/// A call of the outside failed. It comes only where the count of faults of its trait rose.
#[derive(Clone, Copy, Debug, PartialEq, Eq)]
pub struct Failed;

/// The bytes of both areas: what a stop leaves, and what a machine is made from.
#[derive(Debug, Drop)]
pub struct Image {
    /// The bytes of the journal, at most 2^40.
    pub journal: Vec<u8>,
    /// The bytes of the page area, at most 2^40.
    pub pages: Vec<u8>,
}
