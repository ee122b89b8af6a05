//! Why not all entries are shown.
ghost use Rattle.std.specs.Prelude.{◌≡◌};
ghost use Rattle.run_follow.specs.declared.error.ExportError.{ExportError};
ghost use Rattle.run_follow.specs.Causes.{export_error_of};

use journal_gates::JournalError;
use std::alloc::AllocError;

/// Why not all entries were shown.
#[derive(Clone, Copy, Debug, PartialEq, Eq)]
pub enum ExportError {
    /// A call of the disk failed.
    Disk,
    /// The output couldn't be written.
    Sink,
    /// The journal is no archive's, which shows at that place: reads give another journal than was loaded, or an
    /// entry that is too long for a packet.
    NotArchive {
        /// The place in the journal, in bytes.
        at: u64,
    },
    /// There was no memory.
    Memory,
}

impl From<AllocError> for ExportError {
    ghost from_gives = { λ _ e. e ≡ ExportError.Memory };

    fn from(_: AllocError) -> ExportError {
        ExportError::Memory
    }
}

impl From<JournalError> for ExportError {
    ghost from_gives = { λ why e. e ≡ export_error_of why };

    fn from(why: JournalError) -> ExportError {
        match why {
            JournalError::Failed => ExportError::Disk,
            JournalError::NotJournal { at } => ExportError::NotArchive { at },
            JournalError::Memory => ExportError::Memory,
        }
    }
}
