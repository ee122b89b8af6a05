//! How an audit ends.
ghost use Rattle.std.specs.Prelude.{◌≡◌};
ghost use Rattle.run_audit.specs.Statuses.{code_of, status_of_finding, status_of_load, status_of_verdict};

use archive_check::Finding;
use archive_entries::LoadError;
use model_archive::Verdict;
use std::fmt;

/// How an audit ends: what decides the program's exit status, and the line that it prints of it.
#[derive(Clone, Copy, Debug, PartialEq, Eq)]
pub enum AuditStatus {
    /// All that was checked is sound, and that is shown.
    Sound,
    /// A fault was found, and is shown.
    Faulty,
    /// There is a word on the command line.
    Usage,
    /// The journal is no archive's, which shows at that place.
    NotArchive {
        /// The place in the journal, in bytes.
        at: u64,
    },
    /// A call of the disk failed.
    Disk,
    /// The output couldn't be written.
    Sink,
    /// There was no memory.
    Memory,
}

impl AuditStatus {
    /// The exit status of the program. Constant cost.
    pub fn code(&self) -> u8
        ensures { result ≡ code_of self.now }
    {
        match self {
            AuditStatus::Sound => 0,
            AuditStatus::Faulty => 1,
            AuditStatus::Usage => 2,
            AuditStatus::NotArchive { .. } => 3,
            AuditStatus::Disk => 4,
            AuditStatus::Sink => 6,
            AuditStatus::Memory => 12,
        }
    }

    /// How an audit ends that found this, and showed it. Constant cost.
    pub(crate) fn of(finding: &Finding) -> AuditStatus
        ensures { result ≡ status_of_finding finding.now }
    {
        match finding {
            Finding::Told(verdict) => AuditStatus::of_verdict(verdict),
            Finding::BadDigest { .. } => AuditStatus::Faulty,
        }
    }

    /// How an audit ends that came to this verdict, and to nothing else. Constant cost.
    fn of_verdict(verdict: &Verdict) -> AuditStatus
        ensures { result ≡ status_of_verdict verdict.now }
    {
        match verdict {
            Verdict::Sound { .. } => AuditStatus::Sound,
            Verdict::Differs { .. } | Verdict::NotLeast { .. } | Verdict::BadText { .. } => {
                AuditStatus::Faulty
            }
        }
    }
}

impl From<LoadError> for AuditStatus {
    ghost from_gives = { λ error status. status ≡ status_of_load error };

    fn from(error: LoadError) -> AuditStatus {
        match error {
            LoadError::Failed => AuditStatus::Disk,
            LoadError::NotArchive { at } => AuditStatus::NotArchive { at },
            LoadError::Memory => AuditStatus::Memory,
        }
    }
}

impl fmt::Display for AuditStatus {
    ghost use Rattle.std.specs.Prelude.{Some};
    ghost use Rattle.run_audit.specs.Statuses.{status_text};

    ghost output = { λ s. Some (status_text s) };

    fn fmt<W: fmt::Write>(&self, f: &mut fmt::Formatter<W>) -> fmt::Result {
        match self {
            AuditStatus::Sound => write!(f, "tt_verify: sound"),
            AuditStatus::Faulty => write!(f, "tt_verify: not sound"),
            AuditStatus::Usage => write!(f, "tt_verify: usage: tt_verify"),
            AuditStatus::NotArchive { at } => {
                write!(f, "tt_verify: not an archive at byte {at} of the journal")
            }
            AuditStatus::Disk => write!(f, "tt_verify: disk fault"),
            AuditStatus::Sink => write!(f, "tt_verify: sink fault"),
            AuditStatus::Memory => write!(f, "tt_verify: no memory"),
        }
    }
}
