//! One file of an archive.
ghost use Rattle.std.specs.Prelude.{◌≡◌, ◌+◌, ◌^◌, ◌≤◌, max, length, true, false, IfOk, OnOk};

use crate::calls::{read_front, whole, write_front};
use crate::progress::Progress;
use crate::watched::WatchedFile;
use machine_model::{Area, Failed};
use std::fs::OpenFile;
use std::io::{Seek, SeekFrom};
use std::os::unix::fs::FileExt;

/// The greatest length of a file, in bytes.
const MOST_BYTES: u64 = 1 << 40;

/// An open file with its length in bytes, which is known at all times.
#[derive(Drop)]
pub(crate) struct AreaFile<F> {
    file: F,
    pub(crate) length: u64,
    /// Whether nothing was written since the last good sync. At opening it isn't known, and false.
    pub(crate) is_synced: bool,
    ghost limit: { length ≤ 2 ^ 40 },
}

impl<F: FileExt + Seek + OpenFile> AreaFile<F> {
    /// Takes a file that was opened, and asks for its length. A longer file than an area may be is
    /// a failure.
    pub(crate) fn new(mut file: F) -> Result<AreaFile<F>, Failed>
    where
        F: Drop,
        ensures { IfOk result (λ a. a.is_synced ≡ false) }
    {
        match file.seek(SeekFrom::End(0)) {
            Ok(length) if length <= MOST_BYTES => Ok(AreaFile {
                file,
                length,
                is_synced: false,
            }),
            Ok(_) | Err(_) => Err(Failed),
        }
    }

    /// Fills the buffer with the bytes from the place `at` on. An end that comes too early is a
    /// failure.
    pub(crate) fn read(&self, at: u64, buf: &mut [u8]) -> Result<(), Failed>
        requires { at + length buf.old ≤ self.now.length }
    {
        let wanted = buf.len();
        let moved = read_front(&self.file, at, buf);
        whole(moved, wanted)
    }

    /// Writes the bytes from the place `at` on. A gap before them is made first, of zeros.
    pub(crate) fn write(&mut self, at: u64, bytes: &[u8]) -> Result<(), Failed>
        requires { at + length bytes.now ≤ 2 ^ 40 }
        ensures ok { OnOk result (self.new.length ≡ max self.old.length (at + length bytes.now)) }
        ensures no_shorter { self.old.length ≤ self.new.length }
        ensures no_longer { self.new.length ≤ max self.old.length (at + length bytes.now) }
        ensures open { self.new.is_synced ≡ false }
    {
        self.is_synced = false;
        if at > self.length {
            match self.file.set_len(at) {
                Ok(()) => self.length = at,
                Err(_) => return Err(Failed),
            }
        }
        let moved = write_front(&self.file, at, bytes);
        self.length = self.length.max(at + moved as u64);
        whole(moved, bytes.len())
    }

    /// Makes what was written durable, where there is anything.
    ///
    /// The call is `sync_data`, the system's `fdatasync`: it leaves out times, but not the length,
    /// without which the bytes could not be read again.
    pub(crate) fn sync(&mut self) -> Result<(), Failed>
        ensures length { self.new.length ≡ self.old.length }
        ensures durable { OnOk result (self.new.is_synced ≡ true) }
    {
        if !self.is_synced {
            self.file.sync_data().map_err(|_| Failed)?;
            self.is_synced = true;
        }
        Ok(())
    }
}

impl<F> AreaFile<F> {
    /// The same file, of this area, with the progress that sees it.
    pub(crate) fn watched<C, E: Eprint>(
        self,
        area: Area,
        progress: &Progress<C, E>,
    ) -> AreaFile<WatchedFile<'_, F, C, E>>
        ensures length { result.length ≡ self.length }
        ensures synced { result.is_synced ≡ self.is_synced }
    {
        AreaFile {
            file: WatchedFile::new(self.file, Some(area), progress),
            length: self.length,
            is_synced: self.is_synced,
        }
    }
}
