//! Why a query was not answered.
ghost use Rattle.std.specs.Prelude.{◌≡◌};
ghost use Rattle.archive_questions.specs.declared.error.AskError.{AskError};
ghost use Rattle.archive_questions.specs.declared.error.ShareError.{ShareError};
ghost use Rattle.archive_questions.specs.Causes.{ask_error_of_fetch, ask_error_of_query, asked_of};

use model_archive::Refusal;
use pages_sublists::{Damage, FetchError};
use query_lang::QueryError;
use std::alloc::AllocError;

/// Why a query was not answered. Nothing was changed but which pages are kept.
#[derive(Clone, Copy, Debug, PartialEq, Eq)]
pub enum AskError {
    /// It is no query.
    Refused(Refusal),
    /// A call of the disk failed.
    Failed,
    /// A sublist that was read isn't what the entry of its plan says.
    Damaged(Damage),
    /// There was no memory.
    Memory,
}

impl From<QueryError> for AskError {
    ghost from_gives = { λ why e. e ≡ ask_error_of_query why };

    fn from(why: QueryError) -> Self {
        match why {
            QueryError::BadQuery { at } => AskError::Refused(Refusal::BadQuery { offset: at }),
            QueryError::Memory => AskError::Memory,
        }
    }
}

impl From<FetchError> for AskError {
    ghost from_gives = { λ why e. e ≡ ask_error_of_fetch why };

    fn from(why: FetchError) -> Self {
        match why {
            FetchError::Failed => AskError::Failed,
            FetchError::Damaged(damage) => AskError::Damaged(damage),
            FetchError::Memory => AskError::Memory,
        }
    }
}

impl From<AllocError> for AskError {
    ghost from_gives = { λ _ e. e ≡ AskError.Memory };

    fn from(_: AllocError) -> Self {
        AskError::Memory
    }
}

/// Why a budget was not shared. Nothing was changed.
#[derive(Clone, Copy, Debug, PartialEq, Eq)]
pub enum ShareError {
    /// One of the phrases is refused.
    Refused {
        /// Why.
        why: Refusal,
        /// Its number, from 1.
        index: u32,
    },
    /// There was no memory.
    Memory,
}

impl From<AllocError> for ShareError {
    ghost from_gives = { λ _ e. e ≡ ShareError.Memory };

    fn from(_: AllocError) -> Self {
        ShareError::Memory
    }
}

/// What came of fetching for a query, as what comes of the query.
pub(crate) fn asked<T>(fetched: Result<T, FetchError>) -> Result<T, AskError>
    ensures { result ≡ asked_of fetched }
{
    match fetched {
        Ok(found) => Ok(found),
        Err(why) => Err(AskError::from(why)),
    }
}
