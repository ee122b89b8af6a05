//! Why there is no verdict.
ghost use Rattle.std.specs.Prelude.{◌≡◌};
ghost use Rattle.archive_check.specs.declared.error.VerifyError.{VerifyError};

use plans_guarantee::PlanError;
use std::alloc::{AllocError, AllocFailed};
use text_words::NumberError;

/// Why a check gave no verdict. It changed nothing.
#[derive(Clone, Copy, Debug, PartialEq, Eq)]
pub enum VerifyError {
    /// A call of the disk failed.
    Failed,
    /// There was no memory; also where the texts that were read have more than 2^20 words.
    Memory,
}

impl From<AllocError> for VerifyError {
    ghost from_gives = { λ _ e. e ≡ VerifyError.Memory };

    fn from(_: AllocError) -> Self {
        VerifyError::Memory
    }
}

impl<T: Drop> From<AllocFailed<T>> for VerifyError {
    ghost from_gives = { λ _ e. e ≡ VerifyError.Memory };

    fn from(_: AllocFailed<T>) -> Self {
        VerifyError::Memory
    }
}

impl From<NumberError> for VerifyError {
    ghost from_gives = { λ _ e. e ≡ VerifyError.Memory };

    fn from(_: NumberError) -> Self {
        VerifyError::Memory
    }
}

impl From<PlanError> for VerifyError {
    ghost from_gives = { λ _ e. e ≡ VerifyError.Memory };

    fn from(_: PlanError) -> Self {
        VerifyError::Memory
    }
}

impl From<machine_model::Failed> for VerifyError {
    ghost from_gives = { λ _ e. e ≡ VerifyError.Failed };

    fn from(_: machine_model::Failed) -> Self {
        VerifyError::Failed
    }
}
