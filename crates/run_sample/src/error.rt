//! Why a sample was not carried out to its end.
ghost use Rattle.std.specs.Prelude.{◌≡◌};
ghost use Rattle.run_sample.specs.declared.error.FillError.{FillError};

use pages_sublists::Damage;
use std::alloc::AllocError;

/// Why a sample was not carried out to its end. What was carried out stays.
#[derive(Clone, Copy, Debug, PartialEq, Eq)]
pub enum FillError {
    /// A call of the disk failed.
    Failed,
    /// A sublist that was read isn't what the entry of its plan says.
    Damaged(Damage),
    /// There was no memory; also where a count would pass 2^64 - 1.
    Memory,
}

impl From<AllocError> for FillError {
    ghost from_gives = { λ _ e. e ≡ FillError.Memory };

    fn from(_: AllocError) -> Self {
        FillError::Memory
    }
}
