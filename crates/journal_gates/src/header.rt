//! The header of a journal, and what a new journal is.
ghost use Rattle.std.specs.Prelude.{◌≡◌, ◌≤◌, length, take, IfSome, IfNone};
ghost use Rattle.journal_gates.specs.Header.{header};
ghost use Rattle.journal_gates.specs.Records.{first_gate};
ghost use Rattle.journal_gates.specs.Refused.{IsFirstWrong};

/// The bytes of the header: the format's name, and its version in two bytes.
const HEADER: [u8; 16] = *b"TIMETRAVELTEXT\x00\x01";

/// The length of the header.
pub(crate) const HEADER_BYTES: u32 = 16;

/// The place of the first gate.
pub(crate) const FIRST_GATE: u64 = 16;

/// A new journal: the header and a closed gate.
pub(crate) const NEW_JOURNAL: [u8; 17] = *b"TIMETRAVELTEXT\x00\x01\x00";

/// The length of a new journal. One that has no more bytes is new too, whatever they are.
pub(crate) const NEW_BYTES: u64 = 17;

#[tactic(auto, unfolding(crate::specs::Header::header))]
// The place of the first byte that differs from the header's.
pub(crate) fn first_wrong(bytes: &[u8]) -> Option<u64>
    requires { first_gate ≤ length bytes.now }
    ensures wrong { IfSome result (IsFirstWrong bytes.now) }
    ensures right { IfNone result (take first_gate bytes.now ≡ header) }
{
    for (at, byte) in HEADER.iter().enumerate() {
        if bytes[at] != *byte {
            return Some(at as u64);
        }
    }
    None
}
