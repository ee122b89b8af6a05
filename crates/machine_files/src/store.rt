//! The files of an archive, and their folder.
ghost use Rattle.std.specs.Prelude.{◌≡◌, ◌+◌, ◌^◌, ◌≤◌, max, length, true, false, IfOk, OnOk, OnErr, IsErr};
ghost use Rattle.machine_model.specs.Areas.{part, replaced};
ghost use Rattle.machine_model.specs.Calls.{IsPartlyReached};
ghost use Rattle.machine_files.specs.Stores.{lengths, IsNotedAlike};

use crate::area_file::AreaFile;
use crate::lock::{Hold, LockFile, lock_at};
use crate::open_error::OpenError;
use crate::progress::Progress;
use crate::read_file::ReadFile;
use crate::watched::WatchedFile;
use machine_model::{Area, Failed};
use std::fs::{Files, OpenFile, OpenOptions};
use std::io;
use std::io::Seek;
use std::os::unix::fs::FileExt;

/// The file of each area, and the folder that they lie in.
#[derive(Drop)]
pub(crate) struct Store<F> {
    pub(crate) journal: AreaFile<F>,
    pub(crate) pages: AreaFile<F>,
    folder: F,
    /// Whether the names in the folder are durable. Before the first good sync it isn't known, and
    /// false: a file that was made is lost with its name.
    pub(crate) is_folder_synced: bool,
    /// Whether a sync has failed. The system may then have dropped what it could not write, and
    /// would answer the next sync as if all were well.
    pub(crate) has_lost: bool,
}

/// How a file is opened that is written to. It is made where it is missing; what it holds stays.
fn to_write() -> OpenOptions {
    let mut how = OpenOptions::new();
    how.read(true).write(true).create(true);
    how
}

/// How a file is opened that is read alone. It is not made.
fn to_read() -> OpenOptions {
    let mut how = OpenOptions::new();
    how.read(true);
    how
}

/// Opens a file. What it holds stays.
///
/// The handle that is kept is a second one: it stands above the standard streams, also where one
/// of those was closed and the first handle took its number. So no reply lands in a file.
fn open_kept<R: Files>(rt: &R, how: &OpenOptions, name: &str) -> io::Result<R::File> {
    let file = how.open(rt, name)?;
    file.try_clone()
}

/// The name of an area's file in the working folder.
fn name_of(area: Area) -> &'static str {
    match area {
        Area::Journal => "archive.journal",
        Area::Pages => "archive.pages",
    }
}

/// Opens the file of one area in the working folder.
fn open_area<R: Files>(rt: &R, how: &OpenOptions, area: Area) -> Result<R::File, Failed> {
    match open_kept(rt, how, name_of(area)) {
        Ok(file) => Ok(file),
        Err(_) => Err(Failed),
    }
}

/// Opens the journal of the working folder, and takes its lock, which is kept as long as the handle.
fn open_journal<R: Files>(rt: &R, how: &OpenOptions, lock: Hold) -> Result<R::File, OpenError>
where
    R::File: LockFile,
{
    let journal = open_area(rt, how, Area::Journal)?;
    lock_at(rt, &journal, name_of(Area::Journal), lock)?;
    Ok(journal)
}

/// Opens the working folder, so that the names in it can be made durable.
fn open_folder<R: Files>(rt: &R) -> Result<R::File, Failed> {
    match to_read().open(rt, ".") {
        Ok(folder) => Ok(folder),
        Err(_) => Err(Failed),
    }
}

impl<F: FileExt + Seek + OpenFile> Store<F> {
    /// Opens both files of the working folder, with the exclusive lock of the journal. Where that
    /// fails, no call of an archive is made.
    pub(crate) fn open<R: Files<File = F>>(rt: &R) -> Result<Store<F>, OpenError>
    where
        F: LockFile + Drop,
        ensures journal { IfOk result (λ s. s.journal.is_synced ≡ false) }
        ensures pages { IfOk result (λ s. s.pages.is_synced ≡ false) }
    {
        Store::open_as(rt, &to_write(), Hold::Alone, |file| file)
    }

    /// Opens both files of the working folder to read them alone, with a shared lock of the journal.
    /// None is made.
    pub(crate) fn open_to_read<R: Files<File = F>>(rt: &R) -> Result<Store<ReadFile<F>>, OpenError>
    where
        F: LockFile + Drop,
    {
        Store::open_as(rt, &to_read(), Hold::Shared, ReadFile::new)
    }

    /// Opens both files of the working folder in this way, and takes each as `taken` gives it. The
    /// journal's lock comes first: before it nothing is asked of the journal, and nothing else is
    /// opened or made.
    fn open_as<R: Files, T: Fn(R::File) -> F + Drop>(
        rt: &R,
        how: &OpenOptions,
        lock: Hold,
        taken: T,
    ) -> Result<Store<F>, OpenError>
    where
        R::File: LockFile,
        F: Drop,
        requires { T.IsAlwaysCallable taken }
        ensures journal { IfOk result (λ s. s.journal.is_synced ≡ false) }
        ensures pages { IfOk result (λ s. s.pages.is_synced ≡ false) }
    {
        let journal = AreaFile::new(taken(open_journal(rt, how, lock)?))?;
        let pages = AreaFile::new(taken(open_area(rt, how, Area::Pages)?))?;
        let folder = taken(open_folder(rt)?);
        Ok(Store {
            journal,
            pages,
            folder,
            is_folder_synced: false,
            has_lost: false,
        })
    }

    /// The length of an area, in bytes.
    pub(crate) fn length(&self, area: Area) -> u64
        ensures { result ≡ part (lengths self.now) area }
    {
        match area {
            Area::Journal => self.journal.length,
            Area::Pages => self.pages.length,
        }
    }

    /// Fills the buffer with the bytes of an area from the place `at` on.
    pub(crate) fn read(&self, area: Area, at: u64, buf: &mut [u8]) -> Result<(), Failed>
        requires { at + length buf.old ≤ part (lengths self.now) area }
    {
        match area {
            Area::Journal => self.journal.read(at, buf),
            Area::Pages => self.pages.read(at, buf),
        }
    }

    /// Writes bytes into an area from the place `at` on.
    pub(crate) fn write(&mut self, area: Area, at: u64, bytes: &[u8]) -> Result<(), Failed>
        requires { at + length bytes.now ≤ 2 ^ 40 }
        ensures ok { OnOk result
            (lengths self.new ≡ replaced (lengths self.old) area (max (part (lengths self.old) area) (at + length bytes.now))) }
        ensures err { OnErr result (IsPartlyReached area (at + length bytes.now) (lengths self.old) (lengths self.new)) }
        ensures journal { self.old.journal.length ≤ self.new.journal.length }
        ensures pages { self.old.pages.length ≤ self.new.pages.length }
        ensures open_journal { area ≡ Area.Journal → self.new.journal.is_synced ≡ false }
        ensures open_pages { area ≡ Area.Pages → self.new.pages.is_synced ≡ false }
        ensures lost { self.new.has_lost ≡ self.old.has_lost }
    {
        match area {
            Area::Journal => self.journal.write(at, bytes),
            Area::Pages => self.pages.write(at, bytes),
        }
    }

    /// Makes both files durable, each where it was written since its last good sync or since the
    /// opening; and at the first good sync the names of the files in their folder.
    ///
    /// Once a sync has failed, every later one fails.
    pub(crate) fn sync(&mut self) -> Result<(), Failed>
        ensures lengths { lengths self.new ≡ lengths self.old }
        ensures journal { OnOk result (self.new.journal.is_synced ≡ true) }
        ensures pages { OnOk result (self.new.pages.is_synced ≡ true) }
        ensures folder { OnOk result (self.new.is_folder_synced ≡ true) }
        ensures lost { OnErr result (self.new.has_lost ≡ true) }
        ensures stays_lost { self.old.has_lost ≡ true → IsErr result }
    {
        if self.has_lost {
            return Err(Failed);
        }
        match self.sync_each() {
            Ok(()) => Ok(()),
            Err(Failed) => {
                self.has_lost = true;
                Err(Failed)
            }
        }
    }

    fn sync_each(&mut self) -> Result<(), Failed>
        ensures lengths { lengths self.new ≡ lengths self.old }
        ensures journal { OnOk result (self.new.journal.is_synced ≡ true) }
        ensures pages { OnOk result (self.new.pages.is_synced ≡ true) }
        ensures folder { OnOk result (self.new.is_folder_synced ≡ true) }
    {
        self.journal.sync()?;
        self.pages.sync()?;
        self.sync_folder()
    }

    /// Makes the names in the folder durable, once: `sync_all`, since a folder is all metadata.
    fn sync_folder(&mut self) -> Result<(), Failed>
        ensures journal { self.new.journal ≡ self.old.journal }
        ensures pages { self.new.pages ≡ self.old.pages }
        ensures folder { OnOk result (self.new.is_folder_synced ≡ true) }
    {
        if !self.is_folder_synced {
            self.folder.sync_all().map_err(|_| Failed)?;
            self.is_folder_synced = true;
        }
        Ok(())
    }
}

impl<F> Store<F> {
    /// The same files, with the progress that sees them.
    pub(crate) fn watched<C, E: Eprint>(
        self,
        progress: &Progress<C, E>,
    ) -> Store<WatchedFile<'_, F, C, E>>
        ensures alike { IsNotedAlike self result }
    {
        progress.reaches(self.journal.length);
        Store {
            journal: self.journal.watched(Area::Journal, progress),
            pages: self.pages.watched(Area::Pages, progress),
            folder: WatchedFile::new(self.folder, None, progress),
            is_folder_synced: self.is_folder_synced,
            has_lost: self.has_lost,
        }
    }
}
