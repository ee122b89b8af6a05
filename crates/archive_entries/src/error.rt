//! Why a journal was not gone over, or not read, and why what needs no disk was not done.
ghost use Rattle.std.specs.Prelude.{◌≡◌};
ghost use Rattle.archive_entries.specs.declared.error.BatchDeclined.{BatchDeclined};
ghost use Rattle.archive_entries.specs.declared.error.Declined.{Declined};
ghost use Rattle.archive_entries.specs.declared.error.LoadError.{LoadError};
ghost use Rattle.archive_entries.specs.declared.error.ReadError.{ReadError};

use journal_gates::JournalError;
use machine_model::Failed;
use model_archive::Refusal;
use std::alloc::AllocError;

/// Why an archive was not loaded.
#[derive(Clone, Copy, Debug, PartialEq, Eq)]
pub enum LoadError {
    /// A call of the disk failed.
    Failed,
    /// The journal is no archive's, which shows at that place: of a byte that differs from the
    /// header, of an open gate whose record lies past the end or isn't legal, or of the first field
    /// of an entry that isn't allowed; or of the gate of a plan whose places lie badly.
    NotArchive {
        /// The place in the journal.
        at: u64,
    },
    /// There was no memory.
    Memory,
}

/// Why bytes of the journal were not read.
#[derive(Clone, Copy, Debug, PartialEq, Eq)]
pub enum ReadError {
    /// A call of the disk failed.
    Failed,
    /// There was no memory.
    Memory,
}

/// Why what needs no disk was not done: a change was not prepared, a list not planned. Nothing was changed.
#[derive(Clone, Copy, Debug, PartialEq, Eq)]
pub enum Declined {
    /// It isn't allowed.
    Refused(Refusal),
    /// There was no memory.
    Memory,
}

/// Why a batch was not prepared. Nothing was changed.
#[derive(Clone, Copy, Debug, PartialEq, Eq)]
pub enum BatchDeclined {
    /// It isn't allowed.
    Refused {
        /// Why.
        why: Refusal,
        /// The number of the item for which it is refused, from 1, where it is for one.
        index: Option<u32>,
    },
    /// There was no memory.
    Memory,
}

impl From<AllocError> for BatchDeclined {
    ghost from_gives = { λ _ e. e ≡ BatchDeclined.Memory };

    fn from(_: AllocError) -> Self {
        BatchDeclined::Memory
    }
}

impl From<Refusal> for Declined {
    ghost from_gives = { λ why e. e ≡ Declined.Refused why };

    fn from(why: Refusal) -> Self {
        Declined::Refused(why)
    }
}

impl From<AllocError> for Declined {
    ghost from_gives = { λ _ e. e ≡ Declined.Memory };

    fn from(_: AllocError) -> Self {
        Declined::Memory
    }
}

impl From<AllocError> for LoadError {
    ghost from_gives = { λ _ e. e ≡ LoadError.Memory };

    fn from(_: AllocError) -> Self {
        LoadError::Memory
    }
}

impl From<AllocError> for ReadError {
    ghost from_gives = { λ _ e. e ≡ ReadError.Memory };

    fn from(_: AllocError) -> Self {
        ReadError::Memory
    }
}

impl From<Failed> for ReadError {
    ghost from_gives = { λ _ e. e ≡ ReadError.Failed };

    fn from(_: machine_model::Failed) -> Self {
        ReadError::Failed
    }
}

impl From<JournalError> for LoadError {
    ghost use Rattle.archive_entries.specs.Causes.{load_error_of};

    ghost from_gives = { λ why e. e ≡ load_error_of why };

    fn from(why: JournalError) -> Self {
        match why {
            JournalError::Failed => LoadError::Failed,
            JournalError::NotJournal { at } => LoadError::NotArchive { at },
            JournalError::Memory => LoadError::Memory,
        }
    }
}

impl From<Failed> for LoadError {
    ghost from_gives = { λ _ e. e ≡ LoadError.Failed };

    fn from(_: machine_model::Failed) -> Self {
        LoadError::Failed
    }
}
