//! What bytes begin with.
ghost use Rattle.std.specs.Prelude.{◌≡◌, length};
ghost use Rattle.std.specs.Int.{w32, w64, to_be_bytes, from_be_bytes};
ghost use Rattle.journal_packets.specs.Packets.{first, short, BeginsWith};

use crate::packet::{HEAD_BYTES, MOST_BODY_BYTES};

/// What the bytes of a stream begin with.
#[derive(Clone, Copy, Debug, PartialEq, Eq)]
pub enum First {
    /// A packet.
    Whole {
        /// The number of its entry.
        number: u64,
        /// How many bytes its body has.
        size: u32,
    },
    /// What is no packet.
    Bad,
    /// Nothing yet, as more bytes may come.
    More,
    /// Nothing, and no more will come.
    End,
}

/// Where bytes are missing. Constant cost.
fn short(ended: bool) -> First
    ensures { result ≡ short ended }
{
    if ended { First::Bad } else { First::More }
}

/// The number of 8 bytes. Constant cost.
fn number_in(bytes: &[u8]) -> u64
    requires { length bytes.now ≡ 8 }
    ensures value { result ≡ from_be_bytes w64 bytes.now }
    ensures spelled { to_be_bytes w64 result ≡ bytes.now }
{
    u64::from_be_bytes([
        bytes[0], bytes[1], bytes[2], bytes[3], bytes[4], bytes[5], bytes[6], bytes[7],
    ])
}

/// The length of 4 bytes. Constant cost.
fn size_in(bytes: &[u8]) -> u32
    requires { length bytes.now ≡ 4 }
    ensures value { result ≡ from_be_bytes w32 bytes.now }
    ensures spelled { to_be_bytes w32 result ≡ bytes.now }
{
    u32::from_be_bytes([bytes[0], bytes[1], bytes[2], bytes[3]])
}

/// What the bytes of a stream begin with; the word says that no more will come. Constant cost.
pub(crate) fn first_of(ended: bool, bytes: &[u8]) -> First
    ensures value { result ≡ first ended bytes.now }
    ensures begins { BeginsWith bytes.now result }
{
    if bytes.len() < 8 {
        if ended && bytes.is_empty() {
            return First::End;
        }
        return short(ended);
    }
    let number = number_in(&bytes[..8]);
    if number == 0 {
        return First::Bad;
    }
    if bytes.len() < HEAD_BYTES {
        return short(ended);
    }
    let size = size_in(&bytes[8..HEAD_BYTES]);
    if size as usize > MOST_BODY_BYTES {
        return First::Bad;
    }
    if bytes.len() - HEAD_BYTES < size as usize {
        return short(ended);
    }
    First::Whole { number, size }
}
