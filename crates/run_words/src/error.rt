//! Why words of the command line aren't read.
ghost use Rattle.std.specs.Prelude.{◌≡◌};
ghost use Rattle.clap.specs.Words.{kind_of};
ghost use Rattle.run_words.specs.Errors.{error_of_kind};
ghost use Rattle.run_words.specs.declared.error.WordsError.{WordsError};

use clap::error::ErrorKind;
use std::alloc::AllocError;

/// Why words of the command line aren't read.
#[derive(Clone, Copy, Debug, PartialEq, Eq)]
pub enum WordsError {
    /// They ask for nothing that the program does: its usage tells what it takes.
    Refused,
    /// There was no memory to read them.
    Memory,
}

impl From<clap::Error> for WordsError {
    ghost from_gives = { λ error e. e ≡ error_of_kind (kind_of error) };

    fn from(error: clap::Error) -> WordsError {
        match error.kind() {
            ErrorKind::OutOfMemory => WordsError::Memory,
            _ => WordsError::Refused,
        }
    }
}

impl From<AllocError> for WordsError {
    ghost from_gives = { λ _ e. e ≡ WordsError.Memory };

    fn from(_error: AllocError) -> WordsError {
        WordsError::Memory
    }
}
