//! Scripts of several rows, their replies, and the journals that they make.

/// One arrival.
pub const FIRST_SCRIPT: &[u8] = b"arrive 7 10 5\nred a\n";

/// A journal without records: the header and a closed gate.
pub const NEW_JOURNAL: &[u8] = b"TIMETRAVELTEXT\x00\x01\x00";

/// The journal of the one arrival: the header, an open gate, the length, the entry, a closed gate.
pub const FIRST_JOURNAL: &[u8] =
    b"TIMETRAVELTEXT\x00\x01\xa5\x00\x00\x00\x12\x01\x00\x00\x00\x07\x00\x00\x00\x00\x00\x00\x00\x0ared a\x00";

/// The journal of the one arrival, and the mark behind it.
pub const MARKED_JOURNAL: &[u8] = b"TIMETRAVELTEXT\x00\x01\
    \xa5\x00\x00\x00\x12\x01\x00\x00\x00\x07\x00\x00\x00\x00\x00\x00\x00\x0ared a\
    \xa5\x00\x00\x00\x03\x05\x00\x02\
    \x00";

/// The same, and behind them a batch of two arrivals, 99 bytes in all: `blue` of document 7 and `red` of document
/// 8, both at 20.
pub const BATCHED_JOURNAL: &[u8] = b"TIMETRAVELTEXT\x00\x01\
    \xa5\x00\x00\x00\x12\x01\x00\x00\x00\x07\x00\x00\x00\x00\x00\x00\x00\x0ared a\
    \xa5\x00\x00\x00\x03\x05\x00\x02\
    \xa5\x00\x00\x00\x2e\x04\x00\x00\x00\x02\
    \x00\x00\x00\x11\x01\x00\x00\x00\x07\x00\x00\x00\x00\x00\x00\x00\x14blue\
    \x00\x00\x00\x10\x01\x00\x00\x00\x08\x00\x00\x00\x00\x00\x00\x00\x14red\
    \x00";

/// Arrivals and deletions of two documents.
pub const MIXED_SCRIPT: &[u8] =
    b"arrive 8 10 3\nred\ndelete 8 20\narrive 7 20 0\n\narrive 8 30 3\nred\ndelete 7 40\n";

/// The replies to these on a new archive.
pub const MIXED_REPLIES: &[u8] = b"ok 1\nok 2\nok 3\nok 4\nok 5\n";

/// The journal that they make.
pub const MIXED_JOURNAL: &[u8] = b"TIMETRAVELTEXT\x00\x01\
    \xa5\x00\x00\x00\x10\x01\x00\x00\x00\x08\x00\x00\x00\x00\x00\x00\x00\x0ared\
    \xa5\x00\x00\x00\x0d\x02\x00\x00\x00\x08\x00\x00\x00\x00\x00\x00\x00\x14\
    \xa5\x00\x00\x00\x0d\x01\x00\x00\x00\x07\x00\x00\x00\x00\x00\x00\x00\x14\
    \xa5\x00\x00\x00\x10\x01\x00\x00\x00\x08\x00\x00\x00\x00\x00\x00\x00\x1ered\
    \xa5\x00\x00\x00\x0d\x02\x00\x00\x00\x07\x00\x00\x00\x00\x00\x00\x00\x28\
    \x00";

/// Where its records end, and the journal's head.
pub const MIXED_ENDS: [usize; 6] = [16, 37, 55, 73, 94, 112];
