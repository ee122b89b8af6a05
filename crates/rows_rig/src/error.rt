//! Why a row doesn't hold.
use archive_hand::{ChangeError, LoadError};
use machine_mem::Tail;
use machine_model::Failed;
use run_script::Status;
use std::alloc::{AllocError, AllocFailed};

/// Why a row doesn't hold, or couldn't be tried.
#[derive(Debug, Drop)]
pub enum RowError {
    /// The rig or the machine found no memory.
    Memory,
    /// A call of the machine failed.
    Failed,
    /// The archive wasn't loaded.
    NotLoaded(LoadError),
    /// A journal or a page area has more than 2^40 bytes.
    TooLong,
    /// The machine knows of fewer moments.
    NoMoment,
    /// A time is 2^40 or more.
    NoTime,
    /// The run of a script ended otherwise.
    Status {
        /// Which row of the table, counted from 0.
        row: usize,
        /// How it ended.
        status: Status,
    },
    /// The replies to a script were others.
    Replies {
        /// Which row of the table, counted from 0.
        row: usize,
        /// What was shown.
        shown: Vec<u8>,
    },
    /// A change was answered otherwise.
    Answer {
        /// The document of the change.
        doc: u32,
        /// The time of the change, in seconds.
        at: u64,
        /// The answer.
        answer: Result<u64, ChangeError>,
    },
    /// Pages don't hold the sublist of a segment.
    NotHeld {
        /// The first page of its place.
        page: u32,
    },
    /// The journal has other records.
    OtherJournal {
        /// Its bytes.
        left: Vec<u8>,
    },
    /// The journal that a run left is another.
    Left {
        /// Which row of the table, counted from 0.
        row: usize,
        /// Its bytes.
        journal: Vec<u8>,
    },
    /// A disk isn't as it was.
    Changed {
        /// Which row of the table, counted from 0.
        row: usize,
    },
    /// A run that should be refused for its words touched the machine.
    Touched {
        /// Which row of the table, counted from 0.
        row: usize,
    },
    /// The line or the exit status of how a run ended is another.
    Line {
        /// Which row of the table, counted from 0.
        row: usize,
        /// How it ended.
        status: Status,
    },
    /// The exit status of a program is another.
    Code {
        /// Which row of the table, counted from 0.
        row: usize,
        /// The exit status.
        code: u8,
    },
    /// The number of something that is counted is another.
    Count {
        /// Which row of the table, counted from 0.
        row: usize,
        /// The number.
        count: u64,
    },
    /// The journal or Pages have no such byte.
    NoByte {
        /// Where it should be.
        at: usize,
    },
    /// The archive is spent.
    Spent,
    /// A run has other moments.
    Moments {
        /// How many.
        moments: usize,
    },
    /// An image that a stop may leave has too few entries, or too many.
    Entries {
        /// The moment of the stop.
        moment: usize,
        /// The image taken.
        tail: Tail,
        /// How many entries it has.
        entries: u64,
    },
}

impl From<AllocError> for RowError {
    fn from(_: AllocError) -> Self {
        RowError::Memory
    }
}

impl<T: Drop> From<AllocFailed<T>> for RowError {
    fn from(_: AllocFailed<T>) -> Self {
        RowError::Memory
    }
}

impl From<Failed> for RowError {
    fn from(_: Failed) -> Self {
        RowError::Failed
    }
}

impl From<LoadError> for RowError {
    fn from(why: LoadError) -> Self {
        RowError::NotLoaded(why)
    }
}
