//! Why a reader has no next packet.
ghost use Rattle.std.specs.Prelude.{◌≡◌};
ghost use Rattle.journal_packets.specs.declared.error.PacketError.{PacketError};

use std::alloc::{AllocError, AllocFailed};

/// Why there is no next packet. Nothing is lost by it: the bytes taken are the same packets.
#[derive(Clone, Copy, Debug, PartialEq, Eq)]
pub enum PacketError {
    /// The packet that begins at this byte of the input is none: it is cut short by the end of the
    /// input, has the number 0, or has a length above the limit.
    Bad {
        /// The place of its first byte.
        at: u64,
    },
    /// All bytes that may be taken were taken, and the next packet isn't whole in them.
    Budget,
    /// The source failed.
    Failed,
    /// There was no memory.
    Memory,
}

impl From<AllocError> for PacketError {
    ghost from_gives = { λ _ e. e ≡ PacketError.Memory };

    fn from(_: AllocError) -> Self {
        PacketError::Memory
    }
}

impl<T: Drop> From<AllocFailed<T>> for PacketError {
    ghost from_gives = { λ _ e. e ≡ PacketError.Memory };

    fn from(_: AllocFailed<T>) -> Self {
        PacketError::Memory
    }
}
