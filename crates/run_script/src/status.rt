//! How a run ends.
ghost use Rattle.std.specs.Prelude.{◌≡◌};
ghost use Rattle.run_script.specs.Statuses.{code_of, status_of_ended, status_of_export, status_of_fill, status_of_load, status_of_script, status_of_stop, why_text};

use crate::stop::Stop;
use archive_hand::LoadError;
use pages_sublists::{Damage, Why};
use run_follow::ExportError;
use run_sample::FillError;
use run_taking::Ended;
use script_read::ScriptError;
use std::fmt;

/// How a run ends: what decides the program's exit status, and the line that it prints of it.
#[derive(Clone, Copy, Debug, PartialEq, Eq)]
pub enum Status {
    /// The input was read to its end, and every reply is shown.
    Done,
    /// The words of the command line aren't right.
    Usage,
    /// The journal is no archive's, which shows at that place.
    NotArchive {
        /// The place in the journal, in bytes.
        at: u64,
    },
    /// A call of the disk failed.
    Disk,
    /// The input couldn't be read.
    Source,
    /// The output couldn't be written.
    Sink,
    /// The script is broken at that place. Each command before it is carried out and its reply shown.
    Script {
        /// The place in the input, in bytes.
        at: u64,
    },
    /// A sublist that was read isn't what the entry of its plan says.
    Damaged(Damage),
    /// The input has no end within 2^40 bytes.
    Budget,
    /// A sample is made in an empty archive alone, and this one has entries.
    NotEmpty {
        /// How many.
        length: u64,
    },
    /// There was no memory.
    Memory,
    /// Entries are missing in front of a packet's.
    Gap {
        /// How many entries the archive has.
        have: u64,
        /// The number of the packet's.
        got: u64,
    },
    /// A packet is one of an entry that is there, and differs from it.
    Conflict {
        /// The number of the entry.
        number: u64,
        /// The first place at which they differ, in bytes.
        place: u64,
        /// The byte of the entry that is there; None past its end.
        kept: Option<u8>,
        /// The byte of the packet; None past its end.
        got: Option<u8>,
    },
    /// No packet begins at that place, or one whose entry can't be taken. Each packet before it is carried out and its line shown.
    Packet {
        /// The place in the input, in bytes.
        at: u64,
    },
}

impl Status {
    /// The exit status of the program. Constant cost.
    pub fn code(&self) -> u8
        ensures { result ≡ code_of self.now }
    {
        match self {
            Status::Done => 0,
            Status::Usage => 2,
            Status::NotArchive { .. } => 3,
            Status::Disk => 4,
            Status::Source => 5,
            Status::Sink => 6,
            Status::Script { .. } => 7,
            Status::Damaged(_) => 8,
            Status::Budget => 9,
            Status::NotEmpty { .. } => 10,
            Status::Memory => 12,
            Status::Gap { .. } => 13,
            Status::Conflict { .. } => 14,
            Status::Packet { .. } => 15,
        }
    }
}

impl From<LoadError> for Status {
    ghost from_gives = { λ error status. status ≡ status_of_load error };

    fn from(error: LoadError) -> Status {
        match error {
            LoadError::Failed => Status::Disk,
            LoadError::NotArchive { at } => Status::NotArchive { at },
            LoadError::Memory => Status::Memory,
        }
    }
}

impl From<ScriptError> for Status {
    ghost from_gives = { λ error status. status ≡ status_of_script error };

    fn from(error: ScriptError) -> Status {
        match error {
            ScriptError::Broken { at } => Status::Script { at },
            ScriptError::Budget => Status::Budget,
            ScriptError::Failed => Status::Source,
            ScriptError::Memory => Status::Memory,
        }
    }
}

impl From<FillError> for Status {
    ghost from_gives = { λ error status. status ≡ status_of_fill error };

    fn from(error: FillError) -> Status {
        match error {
            FillError::Failed => Status::Disk,
            FillError::Damaged(damage) => Status::Damaged(damage),
            FillError::Memory => Status::Memory,
        }
    }
}

impl From<ExportError> for Status {
    ghost from_gives = { λ error status. status ≡ status_of_export error };

    fn from(error: ExportError) -> Status {
        match error {
            ExportError::Disk => Status::Disk,
            ExportError::Sink => Status::Sink,
            ExportError::NotArchive { at } => Status::NotArchive { at },
            ExportError::Memory => Status::Memory,
        }
    }
}

impl From<Ended> for Status {
    ghost from_gives = { λ end status. status ≡ status_of_ended end };

    fn from(end: Ended) -> Status {
        match end {
            Ended::Done => Status::Done,
            Ended::NotArchive { at } => Status::NotArchive { at },
            Ended::Disk => Status::Disk,
            Ended::Source => Status::Source,
            Ended::Sink => Status::Sink,
            Ended::Budget => Status::Budget,
            Ended::Memory => Status::Memory,
            Ended::Gap { have, got } => Status::Gap { have, got },
            Ended::Conflict {
                number,
                place,
                kept,
                got,
            } => Status::Conflict {
                number,
                place,
                kept,
                got,
            },
            Ended::Packet { at } => Status::Packet { at },
        }
    }
}

impl From<Stop> for Status {
    ghost from_gives = { λ stop status. status ≡ status_of_stop stop };

    fn from(stop: Stop) -> Status {
        match stop {
            Stop::Disk => Status::Disk,
            Stop::Damaged(damage) => Status::Damaged(damage),
            Stop::Sink => Status::Sink,
            Stop::Memory => Status::Memory,
        }
    }
}

impl fmt::Display for Status {
    ghost use Rattle.std.specs.Prelude.{Some};
    ghost use Rattle.run_script.specs.Statuses.{status_text};

    ghost output = { λ s. Some (status_text s) };

    fn fmt<W: fmt::Write>(&self, f: &mut fmt::Formatter<W>) -> fmt::Result {
        match self {
            Status::Done => write!(f, "tt_archive: done"),
            Status::Usage => write!(
                f,
                "tt_archive: usage: tt_archive [--generate SEED --count COUNT | --export FROM | --follow]"
            ),
            Status::NotArchive { at } => {
                write!(f, "tt_archive: not an archive at byte {at} of the journal")
            }
            Status::Disk => write!(f, "tt_archive: disk fault"),
            Status::Source => write!(f, "tt_archive: source fault"),
            Status::Sink => write!(f, "tt_archive: sink fault"),
            Status::Script { at } => write!(f, "tt_archive: script fault at byte {at}"),
            Status::Damaged(Damage { page, why }) => {
                let word = word_of(why);
                write!(f, "tt_archive: damaged sublist at page {page}: {word}")
            }
            Status::Budget => write!(f, "tt_archive: no end after 1099511627776 bytes"),
            Status::NotEmpty { length } => {
                write!(f, "tt_archive: the archive has {length} entries")
            }
            Status::Memory => write!(f, "tt_archive: no memory"),
            Status::Gap { have, got } => {
                write!(f, "tt_archive: have {have} entries, got number {got}")
            }
            Status::Conflict { number, place, .. } => {
                write!(f, "tt_archive: entry {number} differs at byte {place}")
            }
            Status::Packet { at } => write!(f, "tt_archive: bad packet at byte {at}"),
        }
    }
}

/// What is told of why a sublist is damaged. Constant cost.
fn word_of(why: &Why) -> &'static str
    ensures { result.now ≡ why_text why.now }
{
    match why {
        Why::Form => "form",
        Why::Digest { .. } => "digest",
        Why::Astray { .. } => "astray",
        Why::Clash { .. } => "clash",
        Why::Bare => "bare",
    }
}
