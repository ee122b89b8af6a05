//! Why a batch of changes was not made.
ghost use Rattle.archive_changes.specs.declared.error.BatchError.{BatchError};

use archive_hand::ChangeError;
use model_archive::Refusal;

/// Why a batch was not made.
#[derive(Clone, Copy, Debug, PartialEq, Eq)]
pub enum BatchError {
    /// It isn't allowed; nothing was changed.
    Refused {
        /// Why.
        refusal: Refusal,
        /// The number of the item for which it is refused, from 1, where it is for one.
        index: Option<u32>,
    },
    /// A call of the disk failed. The archive is spent: whether it has the batch, which it has whole or not at
    /// all, shows when it is loaded again.
    Failed,
    /// There was no memory. The archive is spent; loaded again, it is as before the batch.
    Memory,
}

/// An error for the whole batch.
impl From<ChangeError> for BatchError {
    ghost use Rattle.std.specs.Prelude.{◌≡◌};
    ghost use Rattle.archive_changes.specs.Endings.{for_whole};

    ghost from_gives = { λ why e. e ≡ for_whole why };

    fn from(why: ChangeError) -> Self {
        match why {
            ChangeError::Refused(refusal) => BatchError::Refused {
                refusal,
                index: None,
            },
            ChangeError::Failed => BatchError::Failed,
            ChangeError::Memory => BatchError::Memory,
        }
    }
}
