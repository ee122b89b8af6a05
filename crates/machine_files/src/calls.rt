//! Calls of the system that a signal may interrupt, and calls that move only a part.
//!
//! An interrupted call has done nothing and is made again. Any other error is a failure.
ghost use Rattle.std.specs.Prelude.{◌≡◌, ◌+◌, ◌^◌, ◌≤◌, length, Ok, IsOk, IfSome, IfOk, ◌↔◌};

use machine_model::Failed;
use std::io;
use std::io::{ErrorKind, Read, Write};
use std::os::unix::fs::FileExt;

/// What a call answered, or nothing where it was interrupted.
fn settled(answer: io::Result<usize>) -> Option<Result<usize, Failed>>
    ensures { IfSome result (λ r. IfOk r (λ n. answer ≡ Ok n)) }
{
    match answer {
        Ok(count) => Some(Ok(count)),
        Err(error) if error.kind() == ErrorKind::Interrupted => None,
        Err(_) => Some(Err(Failed)),
    }
}

/// One read of a stream: how many bytes came, 0 at its end.
pub(crate) fn read_once<R: Read>(reader: &mut R, buf: &mut [u8]) -> Result<usize, Failed>
    ensures { IfOk result (λ n. n ≤ length buf.new) }
{
    for _ in 0..u64::MAX {
        if let Some(answer) = settled(reader.read(buf)) {
            return answer;
        }
    }
    Err(Failed)
}

/// One write to a stream: how many bytes went. A write of some bytes that takes none has failed.
pub(crate) fn write_once<W: Write>(writer: &mut W, bytes: &[u8]) -> Result<usize, Failed>
    ensures count { IfOk result (λ n. n ≤ length bytes.now) }
    ensures some { IfOk result (λ n. 1 ≤ length bytes.now → 1 ≤ n) }
{
    for _ in 0..u64::MAX {
        match settled(writer.write(bytes)) {
            Some(Ok(0)) if !bytes.is_empty() => return Err(Failed),
            Some(answer) => return answer,
            None => {}
        }
    }
    Err(Failed)
}

/// One read of a file from the place `at` on: how many bytes came, 0 at its end.
fn read_at_once<F: FileExt>(file: &F, at: u64, buf: &mut [u8]) -> Result<usize, Failed>
    ensures { IfOk result (λ n. n ≤ length buf.new) }
{
    for _ in 0..u64::MAX {
        if let Some(answer) = settled(file.read_at(buf, at)) {
            return answer;
        }
    }
    Err(Failed)
}

/// One write to a file from the place `at` on: how many bytes went.
fn write_at_once<F: FileExt>(file: &F, at: u64, bytes: &[u8]) -> Result<usize, Failed>
    ensures { IfOk result (λ n. n ≤ length bytes.now) }
{
    for _ in 0..u64::MAX {
        if let Some(answer) = settled(file.write_at(bytes, at)) {
            return answer;
        }
    }
    Err(Failed)
}

/// Reads a file from the place `at` on until the buffer is full, the file ends or a call fails,
/// and answers how many bytes came.
pub(crate) fn read_front<F: FileExt>(file: &F, at: u64, buf: &mut [u8]) -> usize
    requires { at + length buf.old ≤ 2 ^ 40 }
    ensures { result ≤ length buf.old }
{
    let mut done = 0;
    'parts: for _ in 0..buf.len() {
        if done == buf.len() {
            break;
        }
        match read_at_once(file, at + done as u64, &mut buf[done..]) {
            Ok(0) | Err(_) => break,
            Ok(count) => done += count,
        }
    }
    done
}

/// Writes the bytes to a file from the place `at` on until all are written or a call fails, and
/// answers how many went.
pub(crate) fn write_front<F: FileExt>(file: &F, at: u64, bytes: &[u8]) -> usize
    requires { at + length bytes.now ≤ 2 ^ 40 }
    ensures { result ≤ length bytes.now }
{
    let mut done = 0;
    'parts: for _ in 0..bytes.len() {
        if done == bytes.len() {
            break;
        }
        match write_at_once(file, at + done as u64, &bytes[done..]) {
            Ok(0) | Err(_) => break,
            Ok(count) => done += count,
        }
    }
    done
}

/// A call that was to move so many bytes has succeeded only where it moved them all.
pub(crate) fn whole(moved: usize, wanted: usize) -> Result<(), Failed>
    ensures { IsOk result ↔ (moved ≡ wanted) }
{
    if moved == wanted { Ok(()) } else { Err(Failed) }
}

#[cfg(test)]
mod tests {
    use super::*;
    use std::cell::Cell;
    use std::test::Fail;

    /// A file of eight bytes. Each other call is interrupted, and none moves more than two bytes.
    #[derive(Drop)]
    struct Halting {
        bytes: Cell<[u8; 8]>,
        is_ready: Cell<bool>,
    }

    impl Halting {
        /// How many bytes a call moves.
        fn count(&self, offset: u64, wanted: usize) -> io::Result<usize> {
            let is_ready = self.is_ready.get();
            self.is_ready.set(!is_ready);
            if !is_ready {
                return Err(io::Error::from(ErrorKind::Interrupted));
            }
            Ok(wanted.min(2).min(8usize.saturating_sub(offset as usize)))
        }
    }

    impl FileExt for Halting {
        fn read_at(&self, buf: &mut [u8], offset: u64) -> io::Result<usize> {
            let count = self.count(offset, buf.len())?;
            let bytes = self.bytes.get();
            for (to, from) in buf
                .iter_mut()
                .zip(bytes.iter().skip(offset as usize))
                .take(count)
            {
                *to = *from;
            }
            Ok(count.min(buf.len()))
        }

        fn write_at(&self, buf: &[u8], offset: u64) -> io::Result<usize> {
            let count = self.count(offset, buf.len())?;
            let mut bytes = self.bytes.get();
            for (to, from) in bytes
                .iter_mut()
                .skip(offset as usize)
                .zip(buf.iter())
                .take(count)
            {
                *to = *from;
            }
            self.bytes.set(bytes);
            Ok(count.min(buf.len()))
        }
    }

    #[test]
    fn parts_are_joined_and_interrupted_calls_made_again(rt: HostRuntime) {
        let file = Halting {
            bytes: Cell::new([0; 8]),
            is_ready: Cell::new(false),
        };
        assert_eq!(rt; write_front(&file, 1, b"abcde"), 5);
        assert_eq!(rt; file.bytes.get(), *b"\0abcde\0\0");
        let mut buf = [0; 4];
        assert_eq!(rt; read_front(&file, 2, &mut buf), 4);
        assert_eq!(rt; buf, *b"bcde");
        assert_eq!(rt; read_front(&file, 6, &mut buf), 2, "the file ends");
    }
}
