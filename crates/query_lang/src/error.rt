//! Why a text gives no query.
ghost use Rattle.std.specs.Prelude.{◌≡◌};
ghost use Rattle.query_lang.specs.declared.error.QueryError.{QueryError};

use std::alloc::AllocError;

/// Why a text gives no query.
#[derive(Clone, Copy, Debug, PartialEq, Eq)]
pub enum QueryError {
    /// The text is no query: no query begins with its tokens up to and with the one at that place.
    BadQuery {
        /// Where that token begins, in bytes from the text's start; the text's length where some
        /// query begins with all its tokens.
        at: u64,
    },
    /// Memory ran out.
    Memory,
}

impl From<AllocError> for QueryError {
    ghost from_gives = { λ _ e. e ≡ QueryError.Memory };

    fn from(_: AllocError) -> QueryError {
        QueryError::Memory
    }
}
