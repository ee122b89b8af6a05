//! Why bytes are no list.
ghost use Rattle.std.specs.Prelude.{◌≡◌};
ghost use Rattle.pages_codec.specs.declared.error.ListError.{ListError};
ghost use Rattle.pages_codec.specs.declared.error.ReadError.{ReadError};

use std::alloc::{AllocError, AllocFailed};
use thiserror::Error;

/// Why a list was not read.
#[derive(Clone, Copy, Debug, PartialEq, Eq, Error)]
pub enum ListError {
    /// The bytes spell no list. They are to be refused, whoever wrote them.
    #[error("the bytes are no list: see byte {at}")]
    Form {
        /// The offset of the first fault.
        at: u64,
    },
    /// Memory ran out. The bytes may be read again later.
    #[error("out of memory")]
    Memory,
}

impl From<AllocError> for ListError {
    ghost from_gives = { λ _ e. e ≡ ListError.Memory };

    fn from(_e: AllocError) -> ListError {
        ListError::Memory
    }
}

impl<T: Drop> From<AllocFailed<T>> for ListError {
    ghost from_gives = { λ _ e. e ≡ ListError.Memory };

    fn from(_e: AllocFailed<T>) -> ListError {
        ListError::Memory
    }
}

/// Why a block was not read.
#[derive(Clone, Copy, Debug)]
pub enum ReadError {
    /// The bytes spell none.
    Form {
        /// How many bytes are left at the fault.
        left: u64,
    },
    /// Memory ran out.
    Memory,
}

impl From<AllocError> for ReadError {
    ghost from_gives = { λ _ e. e ≡ ReadError.Memory };

    fn from(_e: AllocError) -> ReadError {
        ReadError::Memory
    }
}

impl<T: Drop> From<AllocFailed<T>> for ReadError {
    ghost from_gives = { λ _ e. e ≡ ReadError.Memory };

    fn from(_e: AllocFailed<T>) -> ReadError {
        ReadError::Memory
    }
}
