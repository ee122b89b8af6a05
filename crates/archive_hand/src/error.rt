//! Why a change of an archive was not made.
ghost use Rattle.std.specs.Prelude.{◌≡◌};
ghost use Rattle.archive_hand.specs.declared.error.ChangeError.{ChangeError};

use model_archive::Refusal;
use std::alloc::AllocError;

/// Why a change was not made.
#[derive(Clone, Copy, Debug, PartialEq, Eq)]
pub enum ChangeError {
    /// It isn't allowed; nothing was changed.
    Refused(Refusal),
    /// A call of the disk failed. The archive is spent: whether it has the change shows when it is loaded again.
    Failed,
    /// There was no memory. The archive is spent; loaded again, it is as before the change.
    Memory,
}

impl From<AllocError> for ChangeError {
    ghost from_gives = { λ _ e. e ≡ ChangeError.Memory };

    fn from(_: AllocError) -> Self {
        ChangeError::Memory
    }
}
