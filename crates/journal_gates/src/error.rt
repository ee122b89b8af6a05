//! Why a call of a journal ends without an answer.
ghost use Rattle.std.specs.Prelude.{◌≡◌};
ghost use Rattle.journal_gates.specs.declared.error.JournalError.{JournalError};
ghost use Rattle.journal_gates.specs.declared.error.AppendError.{AppendError};

use machine_model::Failed;
use std::alloc::{AllocError, AllocFailed};
use thiserror::Error;

/// Why a journal was not loaded.
#[derive(Clone, Copy, Debug, PartialEq, Eq, Error)]
pub enum JournalError {
    /// A call of the disk failed.
    #[error("the disk failed")]
    Failed,
    /// The bytes are no journal. `at` is the place of the first byte that differs from the header,
    /// or of an open gate whose record lies past the end.
    #[error("no journal: byte {at}")]
    NotJournal { at: u64 },
    /// There was no memory.
    #[error("out of memory")]
    Memory,
}

/// Why a record was not appended.
#[derive(Clone, Copy, Debug, PartialEq, Eq, Error)]
pub enum AppendError {
    /// A call of the disk failed. The journal is spent: whether it has the record shows only when it
    /// is loaded again.
    #[error("the disk failed")]
    Failed,
    /// The journal would have more than 2^40 bytes. Nothing was changed.
    #[error("the journal is full")]
    Full,
}

impl From<Failed> for JournalError {
    ghost from_gives = { λ _ e. e ≡ JournalError.Failed };

    fn from(_: Failed) -> Self {
        JournalError::Failed
    }
}

impl From<AllocError> for JournalError {
    ghost from_gives = { λ _ e. e ≡ JournalError.Memory };

    fn from(_: AllocError) -> Self {
        JournalError::Memory
    }
}

impl<T: Drop> From<AllocFailed<T>> for JournalError {
    ghost from_gives = { λ _ e. e ≡ JournalError.Memory };

    fn from(_: AllocFailed<T>) -> Self {
        JournalError::Memory
    }
}

impl From<Failed> for AppendError {
    ghost from_gives = { λ _ e. e ≡ AppendError.Failed };

    fn from(_: Failed) -> Self {
        AppendError::Failed
    }
}
