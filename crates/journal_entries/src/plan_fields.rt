//! The fields of a plan, read from the front of what is left of a body.
ghost use Rattle.std.specs.Prelude.{◌≡◌, length, IfOk};
ghost use Rattle.journal_entries.specs.Fields.{Gives};
ghost use Rattle.journal_entries.specs.PlanReading.{number_in, layout_at, kind_at, fraction_at, word_at, key_at, extent_at, digest_at, place_at, cut_at, segment_at};

use crate::fields::{FieldError, fault, time_at, u32_at, u64_at};
use crate::place::{Layout, Place};
use crate::tags::{BLOCKS, DIGEST_BYTES, FLAT, GUARANTEE, SINCE, UNIFORM};
use base_commands::Kind;
use base_types::{Extent, Fraction, Key, Time};
use std::alloc::Global;
use std::str;

/// The last page from which an extent may begin: one behind the last page, for no bytes.
const LAST_FIRST_PAGE: u32 = 1 << 28;

/// A number from `least` to `most`, and the bytes behind it.
#[tactic(auto, unfolding(crate::specs::PlanReading::number_in))]
pub fn number_in(least: u32, most: u32, bytes: &[u8]) -> Result<(u32, &[u8]), FieldError>
    ensures { Gives (λ x. (x.0, x.1.now)) result (number_in least most bytes.now) }
{
    let (number, rest) = u32_at(bytes)?;
    if least <= number && number <= most {
        Ok((number, rest))
    } else {
        Err(fault(bytes))
    }
}

/// How lists are spelled in pages, and the bytes behind it.
#[tactic(auto, unfolding(crate::specs::PlanReading::layout_at))]
pub fn layout_at(bytes: &[u8]) -> Result<(Layout, &[u8]), FieldError>
    ensures { Gives (λ x. (x.0, x.1.now)) result (layout_at bytes.now) }
{
    match bytes {
        [FLAT, rest @ ..] => Ok((Layout::Flat, rest)),
        [BLOCKS, rest @ ..] => Ok((Layout::Blocks, rest)),
        _ => Err(fault(bytes)),
    }
}

/// What a plan keeps to, and the bytes behind it.
#[tactic(auto, unfolding(crate::specs::PlanReading::kind_at))]
pub fn kind_at(bytes: &[u8]) -> Result<(Kind, &[u8]), FieldError>
    ensures { Gives (λ x. (x.0, x.1.now)) result (kind_at bytes.now) }
{
    match bytes {
        [GUARANTEE, rest @ ..] => Ok((Kind::Guarantee, rest)),
        [UNIFORM, rest @ ..] => Ok((Kind::Uniform, rest)),
        [SINCE, rest @ ..] => {
            let (at, rest) = time_at(rest)?;
            Ok((Kind::Since { at }, rest))
        }
        _ => Err(fault(bytes)),
    }
}

/// A fraction, and the bytes behind it.
#[tactic(auto, unfolding(crate::specs::PlanReading::fraction_at))]
pub fn fraction_at(bytes: &[u8]) -> Result<(Fraction, &[u8]), FieldError>
    ensures { Gives (λ x. (x.0, x.1.now)) result (fraction_at bytes.now) }
{
    let (over, rest) = number_in(1, u32::MAX, bytes)?;
    let (under, behind) = u32_at(rest)?;
    match Fraction::new(over, under) {
        Some(fraction) => Ok((fraction, behind)),
        None => Err(fault(rest)),
    }
}

/// A text of so many bytes, and the bytes behind it.
fn word_at(len: usize, bytes: &[u8]) -> Result<(&str, &[u8]), FieldError>
    ensures read { Gives (λ x. (x.0.now, x.1.now)) result (word_at len bytes.now) }
    ensures len { IfOk result (λ x. length x.0.now ≡ len) }
{
    if bytes.len() < len {
        return Err(fault(bytes));
    }
    let (front, rest) = bytes.split_at(len);
    match str::from_utf8(front) {
        Ok(text) => Ok((text, rest)),
        Err(_) => Err(fault(bytes)),
    }
}

/// A word behind its length, and the bytes behind it.
#[tactic(auto, unfolding(crate::specs::PlanReading::key_at))]
pub fn key_at(alloc: Global, bytes: &[u8]) -> Result<(Key, &[u8]), FieldError>
    ensures { Gives (λ x. (x.0, x.1.now)) result (key_at bytes.now) }
{
    let [len, rest @ ..] = bytes else {
        return Err(fault(bytes));
    };
    let (text, behind) = word_at(*len as usize, rest)?;
    match Key::new(alloc, text)? {
        Some(key) => Ok((key, behind)),
        None => Err(fault(bytes)),
    }
}

/// Bytes from a page on, and the bytes behind them.
#[tactic(auto, unfolding(crate::specs::PlanReading::extent_at))]
fn extent_at(bytes: &[u8]) -> Result<(Extent, &[u8]), FieldError>
    ensures { Gives (λ x. (x.0, x.1.now)) result (extent_at bytes.now) }
{
    let (first, rest) = number_in(0, LAST_FIRST_PAGE, bytes)?;
    let (len, behind) = u64_at(rest)?;
    match Extent::new(first, len) {
        Some(extent) => Ok((extent, behind)),
        None => Err(fault(rest)),
    }
}

/// A digest, and the bytes behind it.
#[tactic(auto, unfolding(crate::specs::PlanReading::digest_at))]
fn digest_at(bytes: &[u8]) -> Result<([u8; DIGEST_BYTES], &[u8]), FieldError>
    ensures { Gives (λ x. (x.0, x.1.now)) result (digest_at bytes.now) }
{
    if bytes.len() < DIGEST_BYTES {
        return Err(fault(bytes));
    }
    let (front, rest) = bytes.split_at(DIGEST_BYTES);
    let mut digest = [0; DIGEST_BYTES];
    digest.copy_from_slice(front);
    Ok((digest, rest))
}

/// The place of a sublist, and the bytes behind it.
#[tactic(auto, unfolding(crate::specs::PlanReading::place_at))]
fn place_at(bytes: &[u8]) -> Result<(Place, &[u8]), FieldError>
    ensures { Gives (λ x. (x.0, x.1.now)) result (place_at bytes.now) }
{
    let (extent, rest) = extent_at(bytes)?;
    let (digest, rest) = digest_at(rest)?;
    Ok((Place { extent, digest }, rest))
}

/// A time from `least` on and below the horizon, and the bytes behind it.
#[tactic(auto, unfolding(crate::specs::PlanReading::cut_at))]
fn cut_at(least: u64, horizon: Time, bytes: &[u8]) -> Result<(Time, &[u8]), FieldError>
    ensures { Gives (λ x. (x.0, x.1.now)) result (cut_at least horizon bytes.now) }
{
    let (cut, rest) = time_at(bytes)?;
    if least <= cut.seconds() && cut.seconds() < horizon.seconds() {
        Ok((cut, rest))
    } else {
        Err(fault(bytes))
    }
}

/// A segment's left cut and the place of its sublist, and the bytes behind them.
#[tactic(auto, unfolding(crate::specs::PlanReading::segment_at))]
pub fn segment_at(
    least: u64,
    horizon: Time,
    bytes: &[u8],
) -> Result<(Time, Place, &[u8]), FieldError>
    ensures { Gives (λ x. ((x.0, x.1), x.2.now)) result (segment_at least horizon bytes.now) }
{
    let (cut, rest) = cut_at(least, horizon, bytes)?;
    let (place, rest) = place_at(rest)?;
    Ok((cut, place, rest))
}
