//! Why an archive's files were not opened.
ghost use Rattle.std.specs.Prelude.{◌≡◌};
ghost use Rattle.machine_files.specs.Opening.{open_code};
ghost use Rattle.machine_files.specs.declared.open_error.OpenError.{OpenError};

use machine_model::Failed;
use std::fmt;

/// Why the files of an archive were not opened.
#[derive(Clone, Copy, Debug, PartialEq, Eq)]
pub enum OpenError {
    /// Another program is at work in the folder: it holds the lock of the journal, or it replaced
    /// or deleted the journal while this one opened it. To try again later helps.
    Held,
    /// The system gave no lock, and not because somebody holds it: the folder's file system has none.
    NoLock,
    /// Another call failed, or a file is missing or longer than 2^40 bytes.
    Failed,
}

impl OpenError {
    /// The exit status of a program that ends by it. Constant cost.
    pub fn code(&self) -> u8
        ensures { result ≡ open_code self.now }
    {
        match self {
            OpenError::Held => 11,
            OpenError::NoLock | OpenError::Failed => 4,
        }
    }
}

impl From<Failed> for OpenError {
    ghost from_gives = { λ _ e. e ≡ OpenError.Failed };

    fn from(_: Failed) -> Self {
        OpenError::Failed
    }
}

/// The line by which a program of this name tells that it has not opened its archive's files.
#[derive(Clone, Copy, Debug)]
pub struct OpenLine {
    pub program: &'static str,
    pub error: OpenError,
}

impl fmt::Display for OpenLine {
    ghost use Rattle.std.specs.Prelude.{Some};
    ghost use Rattle.machine_files.specs.Opening.{open_text};

    ghost output = { λ l. Some (open_text l) };

    fn fmt<W: fmt::Write>(&self, f: &mut fmt::Formatter<W>) -> fmt::Result {
        let program = self.program;
        match self.error {
            OpenError::Held => write!(f, "{program}: another program is at work in this folder"),
            OpenError::NoLock => write!(f, "{program}: this folder's file system has no locks"),
            OpenError::Failed => write!(f, "{program}: disk fault"),
        }
    }
}
