//! How a run ends that follows another archive.

/// How a run ended.
#[derive(Clone, Copy, Debug, PartialEq, Eq)]
pub enum Ended {
    /// The input ended between packets, and all were carried out.
    Done,
    /// The journal is no archive's, which shows at that place.
    NotArchive {
        /// The place in the journal, in bytes.
        at: u64,
    },
    /// A call of the disk failed.
    Disk,
    /// The input couldn't be read.
    Source,
    /// The output couldn't be written.
    Sink,
    /// The input has no end after 2^40 bytes.
    Budget,
    /// There was no memory.
    Memory,
    /// Entries are missing in front of a packet's.
    Gap {
        /// How many entries there are.
        have: u64,
        /// The number of the packet.
        got: u64,
    },
    /// A packet is one of an entry that is there, and differs from it.
    Conflict {
        /// The number of the entry.
        number: u64,
        /// The first place at which they differ.
        place: u64,
        /// The byte of the entry that is there; None past its end.
        kept: Option<u8>,
        /// The byte of the packet's; None past its end.
        got: Option<u8>,
    },
    /// No packet begins at that place, or one whose entry can't be taken.
    Packet {
        /// The place in the input, in bytes.
        at: u64,
    },
}
