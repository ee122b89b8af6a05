//! Why a page isn't read.
ghost use Rattle.std.specs.Prelude.{◌≡◌};
ghost use Rattle.pages_area.specs.declared.error.PageError.{PageError};

use machine_model::Failed;
use std::alloc::{AllocError, AllocFailed};

/// Why a page isn't read.
#[derive(Clone, Copy, Debug, PartialEq, Eq, Drop)]
pub enum PageError {
    /// The disk failed to read it. Asking again may succeed.
    Failed,
    /// There was no memory to keep it, and the disk wasn't asked for it.
    Memory,
}

impl From<Failed> for PageError {
    ghost from_gives = { λ _ e. e ≡ PageError.Failed };

    fn from(_: Failed) -> PageError {
        PageError::Failed
    }
}

impl From<AllocError> for PageError {
    ghost from_gives = { λ _ e. e ≡ PageError.Memory };

    fn from(_: AllocError) -> PageError {
        PageError::Memory
    }
}
