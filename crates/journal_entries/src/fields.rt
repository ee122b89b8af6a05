//! The fields of an entry, read from the front of what is left of a body.
ghost use Rattle.std.specs.Prelude.{◌≡◌, length};
ghost use Rattle.std.specs.Int.{w16, w32, w64};
ghost use Rattle.journal_entries.specs.declared.fields.FieldError.TheVariants.{Memory};
ghost use Rattle.journal_entries.specs.Fields.{Gives};
ghost use Rattle.journal_entries.specs.FieldReading.{number_at, doc_at, time_at, end_at};
ghost use Rattle.journal_entries.specs.Reading.{change_at, text_at};

use crate::text::{MOST_TEXT_BYTES, VersionText};
use base_types::{DocId, Time};
use std::alloc::{AllocError, AllocFailed, Global};
use std::str;

/// Why a field was not read.
#[derive(Clone, Copy, Debug)]
pub enum FieldError {
    /// The field is cut short or not allowed.
    Form {
        /// How many bytes of the body are left where the field begins.
        left: u64,
    },
    /// Memory ran out.
    Memory,
}

impl From<AllocError> for FieldError {
    ghost from_gives = { λ _ e. e ≡ Memory };

    fn from(_e: AllocError) -> FieldError {
        FieldError::Memory
    }
}

impl<T: Drop> From<AllocFailed<T>> for FieldError {
    ghost from_gives = { λ _ e. e ≡ Memory };

    fn from(_e: AllocFailed<T>) -> FieldError {
        FieldError::Memory
    }
}

/// The fault of a field that begins with these bytes.
pub fn fault(bytes: &[u8]) -> FieldError
    ensures { result ≡ FieldError.Form (length bytes.now) }
{
    FieldError::Form {
        left: bytes.len() as u64,
    }
}

/// A number of 2 bytes, and the bytes behind it.
pub fn u16_at(bytes: &[u8]) -> Result<(u16, &[u8]), FieldError>
    ensures { Gives (λ x. (x.0, x.1.now)) result (number_at w16 bytes.now) }
{
    if bytes.len() < 2 {
        return Err(fault(bytes));
    }
    let (front, rest) = bytes.split_at(2);
    let number = u16::from_be_bytes([front[0], front[1]]);
    Ok((number, rest))
}

/// A number of 4 bytes, and the bytes behind it.
pub fn u32_at(bytes: &[u8]) -> Result<(u32, &[u8]), FieldError>
    ensures { Gives (λ x. (x.0, x.1.now)) result (number_at w32 bytes.now) }
{
    if bytes.len() < 4 {
        return Err(fault(bytes));
    }
    let (front, rest) = bytes.split_at(4);
    let number = u32::from_be_bytes([front[0], front[1], front[2], front[3]]);
    Ok((number, rest))
}

/// A number of 8 bytes, and the bytes behind it.
pub fn u64_at(bytes: &[u8]) -> Result<(u64, &[u8]), FieldError>
    ensures { Gives (λ x. (x.0, x.1.now)) result (number_at w64 bytes.now) }
{
    if bytes.len() < 8 {
        return Err(fault(bytes));
    }
    let (front, rest) = bytes.split_at(8);
    let number = u64::from_be_bytes([
        front[0], front[1], front[2], front[3], front[4], front[5], front[6], front[7],
    ]);
    Ok((number, rest))
}

/// A document, and the bytes behind it.
fn doc_at(bytes: &[u8]) -> Result<(DocId, &[u8]), FieldError>
    ensures { Gives (λ x. (x.0, x.1.now)) result (doc_at bytes.now) }
{
    let (number, rest) = u32_at(bytes)?;
    Ok((DocId(number), rest))
}

/// A time, and the bytes behind it.
pub fn time_at(bytes: &[u8]) -> Result<(Time, &[u8]), FieldError>
    ensures { Gives (λ x. (x.0, x.1.now)) result (time_at bytes.now) }
{
    let (seconds, rest) = u64_at(bytes)?;
    match Time::new(seconds) {
        Some(time) => Ok((time, rest)),
        None => Err(fault(bytes)),
    }
}

/// The document and the time of a change, and the bytes behind them.
#[tactic(auto, unfolding(crate::specs::Reading::change_at))]
pub fn change_at(bytes: &[u8]) -> Result<(DocId, Time, &[u8]), FieldError>
    ensures { Gives (λ x. ((x.0, x.1), x.2.now)) result (change_at bytes.now) }
{
    let (doc, rest) = doc_at(bytes)?;
    let (at, rest) = time_at(rest)?;
    Ok((doc, at, rest))
}

/// A text that takes all the bytes.
pub fn text_at(alloc: Global, bytes: &[u8]) -> Result<VersionText, FieldError>
    ensures { Gives (λ t. t) result (text_at bytes.now) }
{
    if bytes.len() > MOST_TEXT_BYTES {
        return Err(fault(bytes));
    }
    match str::from_utf8(bytes) {
        Ok(text) => Ok(VersionText::copy_of(alloc, text)?),
        Err(_) => Err(fault(bytes)),
    }
}

/// The end of the body.
pub fn end_at(bytes: &[u8]) -> Result<(), FieldError>
    ensures { Gives (λ x. x) result (end_at bytes.now) }
{
    if bytes.is_empty() {
        Ok(())
    } else {
        Err(fault(bytes))
    }
}
