//! A file that is read alone.
ghost use Rattle.std.specs.Prelude.{IsErr};
ghost use Rattle.std.specs.Io.{WritesAtMost};

use std::fs::{Metadata, OpenFile};
use std::io;
use std::io::{ErrorKind, Seek, SeekFrom};
use std::os::unix::fs::FileExt;

/// A file whose calls that write, or make what was written durable, fail and do nothing.
#[derive(Drop)]
pub struct ReadFile<F> {
    file: F,
}

impl<F> ReadFile<F> {
    /// The file, to be read alone.
    pub(crate) fn new(file: F) -> ReadFile<F> {
        ReadFile { file }
    }
}

/// What a call answers that isn't one of reading.
fn refused() -> io::Error {
    io::Error::from(ErrorKind::ReadOnlyFilesystem)
}

impl<F: FileExt> FileExt for ReadFile<F> {
    fn read_at(&self, buf: &mut [u8], offset: u64) -> io::Result<usize> {
        self.file.read_at(buf, offset)
    }

    fn write_at(&self, _buf: &[u8], _offset: u64) -> io::Result<usize>
        ensures bound { WritesAtMost result _buf.now }
        ensures fails { IsErr result }
    {
        Err(refused())
    }
}

impl<F: Seek> Seek for ReadFile<F> {
    fn seek(&mut self, to: SeekFrom) -> io::Result<u64> {
        self.file.seek(to)
    }
}

impl<F: OpenFile> OpenFile for ReadFile<F> {
    fn metadata(&self) -> io::Result<Metadata> {
        self.file.metadata()
    }

    fn set_len(&self, _size: u64) -> io::Result<()>
        ensures { IsErr result }
    {
        Err(refused())
    }

    fn sync_all(&self) -> io::Result<()>
        ensures { IsErr result }
    {
        Err(refused())
    }

    fn sync_data(&self) -> io::Result<()>
        ensures { IsErr result }
    {
        Err(refused())
    }
}
