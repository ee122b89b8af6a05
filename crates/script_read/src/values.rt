//! The values that words name.
ghost use Rattle.std.specs.Prelude.{◌≡◌, ◌<◌, ◌≤◌, ◌^◌, ◌==◌, length, position, IfOk, IfSome};
ghost use Rattle.std.specs.Option.{option_or};
ghost use Rattle.script_read.specs.Dates.{date};
ghost use Rattle.script_read.specs.Numbers.{number};
ghost use Rattle.script_read.specs.Values.{document, time, text, expr, parts, fraction, tolerance, top_count, best_count, batch_count, span_of};

use crate::dates::date_seconds;
use crate::words::{number_below, phrase};
use base_commands::{BestCount, Phrase, TopCount};
use base_types::{DocId, Fraction, NOW, Span, Time, Tolerance};
use std::alloc::{AllocError, Global};

/// The document that a word names. Costs the word's length.
pub(crate) fn document(word: &[u8]) -> Option<DocId>
    ensures { result ≡ document word.now }
{
    let number = number_below(1 << 32, word)?;
    Some(DocId(number as u32))
}

fn seconds(word: &[u8]) -> Option<u64>
    ensures { result ≡ option_or (number (2 ^ 40) word.now) (date word.now) }
{
    match number_below(NOW, word) {
        Some(seconds) => Some(seconds),
        None => date_seconds(word),
    }
}

/// The time that a word names. Costs the word's length.
pub(crate) fn time(word: &[u8]) -> Option<Time>
    ensures { result ≡ time word.now }
{
    Time::new(seconds(word)?)
}

/// A part of a line, copied, where it has a byte and is text. Costs its length.
pub(crate) fn text(alloc: Global, bytes: &[u8]) -> Result<Option<Phrase>, AllocError>
    requires { length bytes.now ≤ 4096 }
    ensures { IfOk result (λ t. t ≡ text bytes.now) }
{
    if bytes.is_empty() {
        return Ok(None);
    }
    Phrase::new(alloc, bytes)
}

/// The words of a line as one text, copied. Costs their length.
pub(crate) fn expr(alloc: Global, words: &[u8]) -> Result<Option<Phrase>, AllocError>
    requires { length words.now ≤ 4096 }
    ensures { IfOk result (λ t. t ≡ expr words.now) }
{
    text(alloc, phrase(words))
}

fn find_slash(word: &[u8]) -> Option<usize>
    ensures { result ≡ position (λ b. b == 47) word.now }
{
    word.iter().position(|b| *b == b'/')
}

/// The two numbers of a word with a `/`.
fn parts(word: &[u8]) -> Option<(u64, u64)>
    ensures value { result ≡ parts word.now }
    ensures small { IfSome result (λ p. (p.0 < 2 ^ 32) × (p.1 < 2 ^ 32)) }
{
    let slash = find_slash(word)?;
    let one = number_below(1 << 32, &word[..slash])?;
    let other = number_below(1 << 32, &word[slash + 1..])?;
    Some((one, other))
}

/// The factor that a word names. Costs the word's length.
pub(crate) fn fraction(word: &[u8]) -> Option<Fraction>
    ensures { result ≡ fraction word.now }
{
    let (over, under) = parts(word)?;
    Fraction::new(over as u32, under as u32)
}

/// The tolerance that a word names. Costs the word's length.
pub(crate) fn tolerance(word: &[u8]) -> Option<Tolerance>
    ensures { result ≡ tolerance word.now }
{
    let (part, whole) = parts(word)?;
    Tolerance::new(part as u32, whole as u32)
}

/// How many rows a word asks for, of all. Costs the word's length.
pub(crate) fn top_count(word: &[u8]) -> Option<TopCount>
    ensures { result ≡ top_count word.now }
{
    let number = number_below(1 << 32, word)?;
    TopCount::new(number as u32)
}

/// How many rows a word asks for, by the blocks of lists. Costs the word's length.
pub(crate) fn best_count(word: &[u8]) -> Option<BestCount>
    ensures { result ≡ best_count word.now }
{
    let number = number_below(1 << 32, word)?;
    BestCount::new(number as u32)
}

/// How many items a word gives a batch. Costs the word's length.
pub(crate) fn batch_count(word: &[u8]) -> Option<u32>
    ensures { result ≡ batch_count word.now }
{
    let number = number_below(1001, word)?;
    if number == 0 {
        return None;
    }
    Some(number as u32)
}

/// The span from a time to a later one. Constant cost.
pub(crate) fn span(from: Time, to: Time) -> Option<Span>
    ensures { result ≡ span_of from to }
{
    Span::new(from.seconds, to.seconds)
}
