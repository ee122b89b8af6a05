//! Packets as bytes.
ghost use Rattle.std.specs.Prelude.{◌≡◌, ◌≤◌, length, IfOk};
ghost use Rattle.journal_packets.specs.Packets.{packet_bytes};

use std::alloc::{AllocError, Global};

/// The most bytes of a packet's body.
pub const MOST_BODY_BYTES: usize = 67_108_864;

/// The bytes of a packet in front of its body: the number of the entry, and the length of the body.
pub(crate) const HEAD_BYTES: usize = 12;

/// An entry of an archive on its way to another.
#[derive(Debug, Drop)]
pub struct Packet {
    /// The place of the packet's first byte in the input.
    pub at: u64,
    /// The number of the entry in its history, from 1 on.
    pub number: u64,
    /// The bytes of the entry.
    pub body: Vec<u8>,
}

/// The bytes of a packet: the number in 8 bytes, the length of the body in 4, and the body. Costs the
/// body.
pub fn spell(alloc: Global, number: u64, body: &[u8]) -> Result<Vec<u8>, AllocError>
    requires numbered { 1 ≤ number }
    requires short { length body.now ≤ 67108864 }
    ensures { IfOk result (λ v. v.items ≡ packet_bytes number body.now) }
{
    let mut bytes = Vec::with_capacity(alloc, HEAD_BYTES + body.len())?;
    bytes.extend_from_slice(&number.to_be_bytes())?;
    bytes.extend_from_slice(&(body.len() as u32).to_be_bytes())?;
    bytes.extend_from_slice(body)?;
    Ok(bytes)
}
