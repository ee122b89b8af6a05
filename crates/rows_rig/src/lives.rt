//! A document that has a word again and again, and one that arrives again and again.
use std::alloc::{AllocError, Global};

/// Document 1 has the word `v` in [2i, 2i + 1) for each i from 1 to so many: the changes as a script, and what is
/// told of them on a new archive.
pub fn many_lives(alloc: Global, times: u64) -> Result<(Vec<u8>, Vec<u8>), AllocError> {
    let mut script = Vec::new(alloc);
    let mut replies = Vec::new(alloc);
    let mut length = 0u64;
    for _ in 0..times {
        let (one, two, three) = (
            length.saturating_add(1),
            length.saturating_add(2),
            length.saturating_add(3),
        );
        let changes = format!(in alloc; "arrive 1 {two} 1\nv\ndelete 1 {three}\n")?;
        script.extend_from_slice(changes.as_bytes())?;
        let told = format!(in alloc; "ok {one}\nok {two}\n")?;
        replies.extend_from_slice(told.as_bytes())?;
        length = two;
    }
    Ok((script, replies))
}

/// Adds a line for each number from the first to the last, between the same two texts.
pub fn put_lines(
    alloc: Global,
    text: &mut Vec<u8>,
    front: &str,
    numbers: (u64, u64),
    behind: &str,
) -> Result<(), AllocError> {
    for number in numbers.0..=numbers.1 {
        let line = format!(in alloc; "{front}{number}{behind}")?;
        text.extend_from_slice(line.as_bytes())?;
    }
    Ok(())
}

/// Document 7 arrives so many times with this text, at 0 and each second from there on: the changes as a script,
/// and what is told of them on a new archive.
pub fn many_arrivals(
    alloc: Global,
    times: u64,
    text: &[u8],
) -> Result<(Vec<u8>, Vec<u8>), AllocError> {
    let bytes = text.len();
    let mut script = Vec::new(alloc);
    for at in 0..times {
        let change = format!(in alloc; "arrive 7 {at} {bytes}\n")?;
        script.extend_from_slice(change.as_bytes())?;
        script.extend_from_slice(text)?;
        script.push(b'\n')?;
    }
    let mut replies = Vec::new(alloc);
    put_lines(alloc, &mut replies, "ok ", (1, times), "\n")?;
    Ok((script, replies))
}
