//! The lock of an archive, which keeps a second program out of its folder.
ghost use Rattle.std.specs.Prelude.{◌≡◌};
ghost use Rattle.machine_files.specs.Opening.{lock_of};

use crate::open_error::OpenError;
use std::fs::{File, Files, OpenFile, TryLockError};
use std::io::ErrorKind;
use std::os::unix::fs::MetadataExt;

/// A file that can be locked as a whole. The lock binds those who ask for it, and nobody else. The
/// handles of one opening share it, and the system gives it up with the last of them, however the
/// program ends. No call waits.
///
/// No clause says who holds a lock, as none says what a file holds: *tested* on the built programs.
pub trait LockFile {
    /// Takes the exclusive lock. Fails where another opening holds any lock of the file.
    fn try_lock(&self) -> Result<(), TryLockError>;

    /// Takes a shared lock. Fails where another opening holds the exclusive one.
    fn try_lock_shared(&self) -> Result<(), TryLockError>;
}

impl LockFile for File {
    fn try_lock(&self) -> Result<(), TryLockError> {
        File::try_lock(self)
    }

    fn try_lock_shared(&self) -> Result<(), TryLockError> {
        File::try_lock_shared(self)
    }
}

/// How a program holds a file.
#[derive(Clone, Copy)]
pub(crate) enum Hold {
    /// To write: nobody else holds it.
    Alone,
    /// To read: others may hold it so too, and nobody holds it alone.
    Shared,
}

/// Takes the lock of a file that was opened at this path, and then looks whether the file still
/// lies there. Whoever replaced or deleted it in between is at work in the folder.
pub(crate) fn lock_at<R: Files>(
    rt: &R,
    file: &R::File,
    name: &str,
    how: Hold,
) -> Result<(), OpenError>
where
    R::File: LockFile,
{
    take(file, how)?;
    lies_at(rt, file, name)
}

/// Takes the lock of a file.
fn take<F: LockFile>(file: &F, how: Hold) -> Result<(), OpenError> {
    meaning_of(match how {
        Hold::Alone => file.try_lock(),
        Hold::Shared => file.try_lock_shared(),
    })
}

/// What the system's answer to a call for a lock means.
fn meaning_of(answer: Result<(), TryLockError>) -> Result<(), OpenError>
    ensures { result ≡ lock_of answer }
{
    match answer {
        Ok(()) => Ok(()),
        Err(TryLockError::WouldBlock) => Err(OpenError::Held),
        Err(TryLockError::Error(_)) => Err(OpenError::NoLock),
    }
}

/// Looks whether the file at this path is the one that is open.
fn lies_at<R: Files>(rt: &R, file: &R::File, name: &str) -> Result<(), OpenError> {
    let Ok(open) = file.metadata() else {
        return Err(OpenError::Failed);
    };
    match rt.metadata(name) {
        Ok(there) if there.dev() == open.dev() && there.ino() == open.ino() => Ok(()),
        Ok(_) => Err(OpenError::Held),
        Err(error) if error.kind() == ErrorKind::NotFound => Err(OpenError::Held),
        Err(_) => Err(OpenError::Failed),
    }
}

#[cfg(test)]
mod tests {
    use super::*;
    use std::process::Abort;

    /// A file of which somebody else holds such a lock, or none.
    #[derive(Drop)]
    struct Other {
        lock: Option<Hold>,
    }

    impl LockFile for Other {
        fn try_lock(&self) -> Result<(), TryLockError> {
            match self.lock {
                None => Ok(()),
                Some(_) => Err(TryLockError::WouldBlock),
            }
        }

        fn try_lock_shared(&self) -> Result<(), TryLockError> {
            match self.lock {
                None | Some(Hold::Shared) => Ok(()),
                Some(Hold::Alone) => Err(TryLockError::WouldBlock),
            }
        }
    }

    /// The lock that somebody else holds, and what comes of asking for the file alone and shared.
    type Row = (Option<Hold>, Result<(), OpenError>, Result<(), OpenError>);

    /// Each hold of somebody else, and none.
    const ROWS: [Row; 3] = [
        (None, Ok(()), Ok(())),
        (Some(Hold::Shared), Err(OpenError::Held), Ok(())),
        (
            Some(Hold::Alone),
            Err(OpenError::Held),
            Err(OpenError::Held),
        ),
    ];

    /// A file that somebody else holds so is taken, or isn't.
    fn expect_taken(rt: &impl Abort, (lock, alone, shared): Row) {
        let other = Other { lock };
        let found = (take(&other, Hold::Alone), take(&other, Hold::Shared));
        assert_eq!(rt; found, (alone, shared));
    }

    #[test]
    fn each_hold_asks_for_its_own_lock(rt: HostRuntime) {
        for row in &ROWS {
            expect_taken(&rt, *row);
        }
    }
}
