//! What bytes begin with.
ghost use Rattle.std.specs.Prelude.{◌≡◌, ◌==◌, ◌≤◌, ◌<◌, ◌+◌, ◌^◌, length, take, min, true, position, IfOk};
ghost use Rattle.std.specs.List.{position_or_len};
ghost use Rattle.script_read.specs.Lines.{meaning};
ghost use Rattle.script_read.specs.Items.{without_cr, text_at, short, text_end, piece_of, last_piece, open_line, closed_line, first};

use crate::line::{Meaning, meaning_of};
use crate::part::Part;
use base_commands::{Command, Content, Item, MOST_TEXT_BYTES, Text};
use base_types::{DocId, Time};
use std::alloc::{AllocError, Global};

/// The most bytes of a line, without its end.
pub(crate) const MOST_LINE_BYTES: usize = 4096;

/// What bytes begin with.
#[derive(Debug, Drop)]
pub enum First {
    /// A whole piece that takes so many bytes: an item, or a line that is skipped.
    Whole(Option<Part>, usize),
    /// No script, as the byte so far from the first shows.
    Broken(usize),
    /// No whole piece yet.
    More,
    /// Nothing, at the end of the input.
    End,
}

/// A line without the one CR that may stand before its LF. Constant cost.
pub(crate) fn without_cr(line: &[u8]) -> &[u8]
    ensures value { result.now ≡ without_cr line.now }
    ensures shorter { length result.now ≤ length line.now }
{
    match line.last() {
        Some(b'\r') => &line[..line.len() - 1],
        _ => line,
    }
}

/// What comes of a piece of which bytes are missing, where so many are there. Constant cost.
pub(crate) fn short(ended: bool, len: usize) -> First
    ensures { result ≡ short ended len }
{
    if ended {
        First::Broken(len)
    } else {
        First::More
    }
}

/// What comes of an item whose text ends at this place of so many bytes, with the bytes behind it.
/// Constant cost.
pub(crate) fn text_end(ended: bool, len: usize, used: usize, item: Part, behind: &[u8]) -> First
    requires { used + length behind.now < 2 ^ 63 }
    ensures { result ≡ text_end ended len used item behind.now }
{
    let Some(b) = behind.first() else {
        return short(ended, len);
    };
    if *b == b'\n' {
        return First::Whole(Some(item), used + 1);
    }
    if *b != b'\r' {
        return First::Broken(used);
    }
    match behind.get(1) {
        None => short(ended, len),
        Some(b'\n') => First::Whole(Some(item), used + 2),
        Some(_) => First::Broken(used),
    }
}

/// The text of so many bytes at the front of these, copied where it is within the limit.
fn text_at(alloc: Global, size: usize, bytes: &[u8]) -> Result<Text, AllocError>
    requires { size ≤ length bytes.now }
    ensures { IfOk result (λ t. t ≡ text_at size bytes.now) }
{
    if size > MOST_TEXT_BYTES {
        return Ok(Text::TooLong { bytes: size as u64 });
    }
    let content = Content::new(Vec::from_slice(alloc, &bytes[..size])?);
    Ok(Text::Bytes(content))
}

/// What the line of an arrival begins that takes so many of these bytes. Costs the length of the
/// text where it is whole.
fn arrival_behind(
    alloc: Global,
    ended: bool,
    doc: DocId,
    at: Time,
    size: u64,
    used: usize,
    bytes: &[u8],
) -> Result<First, AllocError>
    requires within { used ≤ length bytes.now }
    requires small { length bytes.now < 2 ^ 62 }
    ensures { IfOk result (λ f. f ≡ piece_of ended (Meaning.Arrival doc at size) used bytes.now) }
{
    if ((bytes.len() - used) as u64) < size {
        return Ok(short(ended, bytes.len()));
    }
    let size = size as usize;
    let text = text_at(alloc, size, &bytes[used..])?;
    let arrival = Part::Item(Item::Command(Command::Arrive { doc, at, text }));
    let end = used + size;
    Ok(text_end(ended, bytes.len(), end, arrival, &bytes[end..]))
}

/// What a line begins that says this and takes so many of these bytes, its end among them. Costs
/// the length of a text where it is whole.
fn piece_of(
    alloc: Global,
    ended: bool,
    meaning: Meaning,
    used: usize,
    bytes: &[u8],
) -> Result<First, AllocError>
    requires within { used ≤ length bytes.now }
    requires small { length bytes.now < 2 ^ 62 }
    ensures { IfOk result (λ f. f ≡ piece_of ended meaning used bytes.now) }
{
    match meaning {
        Meaning::Skipped => Ok(First::Whole(None, used)),
        Meaning::Alone(item) => Ok(First::Whole(Some(item), used)),
        Meaning::Arrival {
            doc,
            at,
            bytes: size,
        } => arrival_behind(alloc, ended, doc, at, size, used, bytes),
        Meaning::Faulty => Ok(First::Broken(0)),
    }
}

/// What bytes begin with whose first LF stands at this place.
fn closed_line(alloc: Global, ended: bool, place: usize, bytes: &[u8]) -> Result<First, AllocError>
    requires within { place < length bytes.now }
    requires small { length bytes.now < 2 ^ 62 }
    ensures { IfOk result (λ f. f ≡ closed_line meaning ended place (without_cr (take place bytes.now)) bytes.now) }
{
    let line = without_cr(&bytes[..place]);
    if line.len() > MOST_LINE_BYTES {
        return Ok(First::Broken(0));
    }
    let meaning = meaning_of(alloc, line)?;
    piece_of(alloc, ended, meaning, place + 1, bytes)
}

fn last_piece(meaning: Meaning, n: usize) -> First
    ensures { result ≡ last_piece meaning n }
{
    match meaning {
        Meaning::Skipped => First::Whole(None, n),
        Meaning::Alone(item) => First::Whole(Some(item), n),
        Meaning::Arrival { .. } => First::Broken(0),
        Meaning::Faulty => First::Broken(0),
    }
}

/// What the last bytes of the input begin with, in which no LF stands.
fn last_line(alloc: Global, bytes: &[u8]) -> Result<First, AllocError>
    ensures { IfOk result (λ f. f ≡ open_line meaning true bytes.now) }
{
    if bytes.is_empty() {
        return Ok(First::End);
    }
    if bytes.len() > MOST_LINE_BYTES {
        return Ok(First::Broken(0));
    }
    Ok(last_piece(meaning_of(alloc, bytes)?, bytes.len()))
}

/// What bytes begin with in which no LF stands.
fn open_line(alloc: Global, ended: bool, bytes: &[u8]) -> Result<First, AllocError>
    ensures { IfOk result (λ f. f ≡ open_line meaning ended bytes.now) }
{
    if ended {
        return last_line(alloc, bytes);
    }
    if without_cr(bytes).len() > MOST_LINE_BYTES {
        return Ok(First::Broken(0));
    }
    Ok(First::More)
}

fn find_line_feed(bytes: &[u8]) -> Option<usize>
    ensures { result ≡ position (λ b. b == 10) bytes.now }
{
    bytes.iter().position(|b| *b == b'\n')
}

/// The place of the first LF, or the number of bytes where none is. Costs as many bytes.
fn place_of_line_feed(bytes: &[u8]) -> usize
    ensures place { result ≡ position_or_len (λ b. b == 10) bytes.now }
    ensures within { result ≤ length bytes.now }
{
    find_line_feed(bytes).unwrap_or(bytes.len())
}

/// The place of the first LF or the number of bytes where none is, up to `MOST_LINE_BYTES + 2`: with
/// no LF before that a line is too long, whatever it ends with. Costs as many bytes.
pub(crate) fn line_length(bytes: &[u8]) -> usize
    ensures value { result ≡ min 4098 (position_or_len (λ b. b == 10) bytes.now) }
    ensures within { result ≤ length bytes.now }
{
    place_of_line_feed(&bytes[..bytes.len().min(MOST_LINE_BYTES + 2)])
}

/// What bytes begin with, where the input ends behind them or more may come. Costs the first line,
/// and the length of its text where that is whole and within the limit.
pub(crate) fn first_of(alloc: Global, ended: bool, bytes: &[u8]) -> Result<First, AllocError>
    requires { length bytes.now < 2 ^ 62 }
    ensures { IfOk result (λ f. f ≡ first ended bytes.now) }
{
    let place = line_length(bytes);
    if place > MOST_LINE_BYTES + 1 {
        return Ok(First::Broken(0));
    }
    if place < bytes.len() {
        return closed_line(alloc, ended, place, bytes);
    }
    open_line(alloc, ended, bytes)
}
