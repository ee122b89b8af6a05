//! What a packet is to an archive.
ghost use Rattle.std.specs.Prelude.{◌<◌, ◌≤◌, MatchOption};
ghost use Rattle.journal_packets.specs.Cases.{IsKeptCase, IsNewCase};

use crate::packet::Packet;

/// What a packet is to an archive that has some entries.
#[derive(Clone, Copy, Debug, PartialEq, Eq)]
pub enum Case {
    /// The entry is kept.
    Had,
    /// Another entry is kept in its place.
    Conflict {
        /// The first place at which their bytes differ.
        place: u64,
        /// The byte that is kept there; None past the end.
        kept: Option<u8>,
        /// The packet's byte there; None past the end.
        got: Option<u8>,
    },
    /// Entries are missing in front of it.
    Gap,
    /// It is the next one.
    Next,
}

/// What a packet is to an archive that has so many entries, by the entry that is kept of its number.
/// Takes no memory. Costs the bytes up to the first that differs.
pub fn sort_out(have: u64, kept: Option<&[u8]>, packet: &Packet) -> Case
    requires { MatchOption kept (have < packet.now.number) (λ k. packet.now.number ≤ have) }
    ensures { MatchOption kept.entry (IsNewCase have packet.now.number result) (λ k. IsKeptCase k.now packet.now.body.items result) }
{
    let Some(kept) = kept else {
        return if packet.number - have > 1 {
            Case::Gap
        } else {
            Case::Next
        };
    };
    compared(kept, packet.body.as_slice())
}

/// Whether bytes differ, and where they do first.
fn compared(kept: &[u8], got: &[u8]) -> Case
    ensures { IsKeptCase kept.now got.now result }
{
    let both = kept.len().min(got.len());
    for place in 0..both {
        if kept[place] != got[place] {
            return Case::Conflict {
                place: place as u64,
                kept: Some(kept[place]),
                got: Some(got[place]),
            };
        }
    }
    if kept.len() == got.len() {
        return Case::Had;
    }
    Case::Conflict {
        place: both as u64,
        kept: kept.get(both).copied(),
        got: got.get(both).copied(),
    }
}
