//! Why no list is given.
ghost use Rattle.std.specs.Prelude.{◌≡◌};
ghost use Rattle.pages_sublists.specs.declared.why.FetchError.{FetchError};
ghost use Rattle.pages_sublists.specs.declared.why.PlaceError.{PlaceError};

use base_types::Posting;
use machine_model::Failed;
use std::alloc::AllocError;

/// Why the bytes of a place are refused.
#[derive(Clone, Copy, Debug, PartialEq, Eq)]
pub enum Why {
    /// They spell no list.
    Form,
    /// Their SHA-256 isn't the one that the place keeps.
    Digest {
        /// What the place keeps.
        stored: [u8; 32],
        /// What the bytes have.
        got: [u8; 32],
    },
    /// A posting has no time in the segment, or ends behind the horizon.
    Astray {
        /// The first such one.
        posting: Posting,
    },
    /// A posting of an earlier segment and one of this one are different, of one document, and
    /// overlap in time.
    Clash {
        /// The one of an earlier segment.
        one: Posting,
        /// The one of this segment.
        other: Posting,
    },
    /// The first segment of all has no posting.
    Bare,
}

/// What is damaged.
#[derive(Clone, Copy, Debug, PartialEq, Eq)]
pub struct Damage {
    /// The first page of the place that was read.
    pub page: u32,
    /// Why its bytes are refused.
    pub why: Why,
}

/// Why the pages of places weren't taken for sublists.
#[derive(Clone, Copy, Debug, PartialEq, Eq)]
pub enum PlaceError {
    /// The place of a segment is for other bytes than the segment's sublist has.
    Differs {
        /// The number of the segment, from 0 on.
        segment: u64,
    },
    /// The place of a segment shares a page with what is taken, or with an earlier one.
    Taken {
        /// The number of the segment, from 0 on.
        segment: u64,
    },
    /// There was no memory.
    Memory,
}

impl From<AllocError> for PlaceError {
    ghost from_gives = { λ _ e. e ≡ PlaceError.Memory };

    fn from(_: AllocError) -> PlaceError {
        PlaceError::Memory
    }
}

/// Why nothing was fetched.
#[derive(Clone, Copy, Debug, PartialEq, Eq)]
pub enum FetchError {
    /// The disk failed.
    Failed,
    /// The bytes that were read are refused.
    Damaged(Damage),
    /// There was no memory.
    Memory,
}

impl From<AllocError> for FetchError {
    ghost from_gives = { λ _ e. e ≡ FetchError.Memory };

    fn from(_: AllocError) -> FetchError {
        FetchError::Memory
    }
}

impl From<Failed> for FetchError {
    ghost from_gives = { λ _ e. e ≡ FetchError.Failed };

    fn from(_: Failed) -> FetchError {
        FetchError::Failed
    }
}
