//! Why bytes are no entry.
ghost use Rattle.std.specs.Prelude.{◌≡◌};
ghost use Rattle.journal_entries.specs.declared.error.CodecError.TheVariants.{Memory};

use std::alloc::{AllocError, AllocFailed};
use thiserror::Error;

/// Why an entry was not read.
#[derive(Clone, Copy, Debug, PartialEq, Eq, Error)]
pub enum CodecError {
    /// The bytes spell no entry. They are to be refused, whoever wrote them.
    #[error("the bytes are no entry: see byte {at}")]
    Form {
        /// The offset in the body of the first field that is cut short or not allowed, or of the
        /// first surplus byte.
        at: u64,
    },
    /// Memory ran out. The bytes may be read again later.
    #[error("out of memory")]
    Memory,
}

impl From<AllocError> for CodecError {
    ghost from_gives = { λ _ e. e ≡ Memory };

    fn from(_e: AllocError) -> CodecError {
        CodecError::Memory
    }
}

impl<T: Drop> From<AllocFailed<T>> for CodecError {
    ghost from_gives = { λ _ e. e ≡ Memory };

    fn from(_e: AllocFailed<T>) -> CodecError {
        CodecError::Memory
    }
}
