//! Why bytes aren't checked.
ghost use Rattle.std.specs.Prelude.{◌≡◌};
ghost use Rattle.pages_checked.specs.declared.error.DigestError.{DigestError};

use std::alloc::AllocError;

/// Why bytes aren't checked.
#[derive(Clone, Copy, Debug)]
pub enum CheckError {
    /// Their SHA-256 is this one.
    Digest {
        /// What the bytes have.
        got: [u8; 32],
    },
    /// They spell no list.
    Form,
    /// There was no memory.
    Memory,
}

/// Why bytes don't show a digest.
#[derive(Clone, Copy, Debug)]
pub enum DigestError {
    /// Their SHA-256 is this one.
    Other {
        /// What the bytes have.
        got: [u8; 32],
    },
    /// There was no memory.
    Memory,
}

impl From<AllocError> for DigestError {
    ghost from_gives = { λ _ e. e ≡ DigestError.Memory };

    fn from(_: AllocError) -> DigestError {
        DigestError::Memory
    }
}
