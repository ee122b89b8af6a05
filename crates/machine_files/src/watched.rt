//! A file and a stream whose calls a progress sees.
use crate::progress::Progress;
use machine_model::Area;
use std::fs::{Metadata, OpenFile};
use std::io;
use std::io::{Read, Seek, SeekFrom, Write};
use std::os::unix::fs::FileExt;
use std::time::Clock;

/// A file of a machine, whose progress sees where it is read and written. Each call goes on to the
/// file: *tested*, for no clause of std says what a call does to a file.
#[derive(Drop)]
pub struct WatchedFile<'p, F, C, E: Eprint> {
    file: F,
    /// What the file has; none where it is the folder.
    area: Option<Area>,
    progress: &'p Progress<C, E>,
}

impl<'p, F, C, E: Eprint> WatchedFile<'p, F, C, E> {
    /// The file of an area, or of none, with the progress that sees it.
    pub(crate) fn new(
        file: F,
        area: Option<Area>,
        progress: &'p Progress<C, E>,
    ) -> WatchedFile<'p, F, C, E> {
        WatchedFile {
            file,
            area,
            progress,
        }
    }
}

impl<F: FileExt, C: Clock, E: Eprint> FileExt for WatchedFile<'_, F, C, E> {
    fn read_at(&self, buf: &mut [u8], offset: u64) -> io::Result<usize> {
        if let Some(area) = self.area {
            self.progress.reads(area, offset, buf.len());
        }
        self.file.read_at(buf, offset)
    }

    fn write_at(&self, buf: &[u8], offset: u64) -> io::Result<usize> {
        if let Some(area) = self.area {
            self.progress.writes(area, offset, buf.len());
        }
        self.file.write_at(buf, offset)
    }
}

impl<F: Seek, C, E: Eprint> Seek for WatchedFile<'_, F, C, E> {
    fn seek(&mut self, to: SeekFrom) -> io::Result<u64> {
        self.file.seek(to)
    }
}

impl<F: OpenFile, C, E: Eprint> OpenFile for WatchedFile<'_, F, C, E> {
    fn metadata(&self) -> io::Result<Metadata> {
        self.file.metadata()
    }

    fn set_len(&self, size: u64) -> io::Result<()> {
        self.file.set_len(size)
    }

    fn sync_all(&self) -> io::Result<()> {
        self.file.sync_all()
    }

    fn sync_data(&self) -> io::Result<()> {
        self.file.sync_data()
    }
}

/// A stream of a machine, whose progress ends before each of its calls, which goes on to the stream:
/// *tested*.
#[derive(Drop)]
pub struct WatchedStream<'p, S, C, E: Eprint> {
    stream: S,
    progress: &'p Progress<C, E>,
}

impl<'p, S, C, E: Eprint> WatchedStream<'p, S, C, E> {
    /// The stream, with the progress that it ends.
    pub(crate) fn new(stream: S, progress: &'p Progress<C, E>) -> WatchedStream<'p, S, C, E> {
        WatchedStream { stream, progress }
    }
}

impl<S: Read, C, E: Eprint> Read for WatchedStream<'_, S, C, E> {
    fn read(&mut self, buf: &mut [u8]) -> io::Result<usize> {
        self.progress.ends();
        self.stream.read(buf)
    }
}

impl<S: Write, C, E: Eprint> Write for WatchedStream<'_, S, C, E> {
    fn write(&mut self, buf: &[u8]) -> io::Result<usize> {
        self.progress.ends();
        self.stream.write(buf)
    }

    fn flush(&mut self) -> io::Result<()> {
        self.stream.flush()
    }
}

#[cfg(test)]
mod tests {
    use super::*;
    use std::alloc::Global;
    use std::cell::Cell;
    use std::fmt::Debug;
    use std::process::Abort;

    /// A file of at most eight bytes, and which of its calls came last.
    #[derive(Drop)]
    struct Tape {
        bytes: Cell<[u8; 8]>,
        last: Cell<&'static str>,
    }

    impl FileExt for Tape {
        fn read_at(&self, buf: &mut [u8], offset: u64) -> io::Result<usize> {
            self.last.set("read_at");
            let bytes = self.bytes.get();
            for (to, from) in buf.iter_mut().zip(bytes.iter().skip(offset as usize)) {
                *to = *from;
            }
            Ok(buf.len())
        }

        fn write_at(&self, buf: &[u8], offset: u64) -> io::Result<usize> {
            self.last.set("write_at");
            let mut bytes = self.bytes.get();
            for (to, from) in bytes.iter_mut().skip(offset as usize).zip(buf.iter()) {
                *to = *from;
            }
            self.bytes.set(bytes);
            Ok(buf.len())
        }
    }

    impl Seek for Tape {
        fn seek(&mut self, _to: SeekFrom) -> io::Result<u64> {
            Ok(8)
        }
    }

    impl OpenFile for Tape {
        fn metadata(&self) -> io::Result<Metadata> {
            Err(io::Error::from(io::ErrorKind::Unsupported))
        }

        fn set_len(&self, _size: u64) -> io::Result<()> {
            self.last.set("set_len");
            Ok(())
        }

        fn sync_all(&self) -> io::Result<()> {
            self.last.set("sync_all");
            Ok(())
        }

        fn sync_data(&self) -> io::Result<()> {
            self.last.set("sync_data");
            Ok(())
        }
    }

    /// What is found is what is wanted.
    fn expect_same<T: PartialEq + Debug + Drop>(rt: &impl Abort, found: T, wanted: T) {
        assert_eq!(rt; found, wanted);
    }

    /// Bytes that are written and read reach the file at their places.
    fn expect_moved<C: Clock, E: Eprint>(rt: &impl Abort, file: &WatchedFile<'_, Tape, C, E>) {
        expect_same(rt, file.write_at(b"abc", 2).ok(), Some(3));
        expect_same(rt, file.file.bytes.get(), *b"\0\0abc\0\0\0");
        let mut buf = [0; 4];
        expect_same(rt, file.read_at(&mut buf, 1).ok(), Some(4));
        expect_same(rt, buf, *b"\0abc");
    }

    /// A call went well, and reached the file as this one.
    fn expect_called(rt: &impl Abort, answer: io::Result<()>, tape: &Tape, call: &str) {
        expect_same(rt, answer.ok(), Some(()));
        expect_same(rt, tape.last.get(), call);
    }

    /// Calls that move no byte reach the file as they are.
    fn expect_kept<C: Clock, E: Eprint>(rt: &impl Abort, file: &mut WatchedFile<'_, Tape, C, E>) {
        expect_same(rt, file.seek(SeekFrom::End(0)).ok(), Some(8));
        expect_called(rt, file.set_len(7), &file.file, "set_len");
        expect_called(rt, file.sync_data(), &file.file, "sync_data");
        expect_called(rt, file.sync_all(), &file.file, "sync_all");
        expect_same(rt, file.metadata().is_err(), true);
    }

    /// The calls of a file that a progress sees reach it.
    fn expect_file<C: Clock, E: Eprint>(rt: &impl Abort, progress: &Progress<C, E>) {
        let tape = Tape {
            bytes: Cell::new([0; 8]),
            last: Cell::new(""),
        };
        let mut file = WatchedFile::new(tape, Some(Area::Journal), progress);
        expect_moved(rt, &file);
        expect_kept(rt, &mut file);
    }

    /// A read of a stream that a progress sees reaches it.
    fn expect_input<C: Clock, E: Eprint>(rt: &impl Abort, progress: &Progress<C, E>) {
        let mut input = WatchedStream::new(&b"xyz"[..], progress);
        let mut buf = *b"\0abc";
        expect_same(rt, input.read(&mut buf).ok(), Some(3));
        expect_same(rt, buf, *b"xyzc");
    }

    /// A write to a stream that a progress sees reaches it.
    fn expect_output<C: Clock, E: Eprint>(
        rt: &impl Abort,
        alloc: Global,
        progress: &Progress<C, E>,
    ) {
        let mut output = WatchedStream::new(Vec::new(alloc), progress);
        expect_same(rt, output.write(b"xy").ok(), Some(2));
        expect_same(rt, output.stream.as_slice(), b"xy".as_slice());
    }

    #[test]
    fn calls_go_through(rt: HostRuntime) {
        let progress = Progress::new("tests", &rt, rt.stderr());
        expect_file(&rt, &progress);
        expect_input(&rt, &progress);
        expect_output(&rt, rt.alloc(), &progress);
    }
}
