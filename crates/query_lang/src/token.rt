//! The tokens of a query's text.
ghost use Rattle.std.specs.Prelude.{◌≡◌, ◌+◌, ◌-◌, ◌≤◌, ◌<◌, ◌∷◌, ◌++◌, ℕ, List, length, take, drop, slice_index, option_map, IfSome, IfOk, OnOk};
ghost use Rattle.query_lang.specs.Tokens.{role, token_of, closed, tokens_from, tokens, key_of, weight_from, parted, weighted, term_of};

use crate::term::Term;
use base_types::Key;
use std::alloc::{AllocError, Global};
use std::str;
use text_words::one_term;

/// The most that a word may weigh.
const MOST_WEIGHT: u32 = 1_000;

/// A token of a query's text.
#[derive(Debug, Drop)]
pub(crate) enum Token {
    /// A word.
    Word(Term),
    /// What is no operator and has no key.
    Wordless,
    And,
    Or,
    Not,
    Open,
    Close,
}

/// A token and its place.
#[derive(Debug, Drop)]
pub(crate) struct Placed {
    /// The place of its first byte in the text, in bytes.
    pub(crate) at: usize,
    pub(crate) token: Token,
}

/// What a byte does to the token before it.
#[derive(Clone, Copy, Debug, PartialEq, Eq)]
pub(crate) enum Role {
    /// It ends it.
    Space,
    /// It ends it, and is a token by itself.
    Opening,
    Closing,
    /// It goes on with it.
    Letter,
}

fn role_of(b: u8) -> Role
    ensures { result ≡ role b }
{
    if b == b' ' {
        return Role::Space;
    }
    if b == b'(' {
        return Role::Opening;
    }
    if b == b')' {
        return Role::Closing;
    }
    Role::Letter
}

/// The key of bytes that are one word.
fn key_of(alloc: Global, bytes: &[u8]) -> Result<Option<Key>, AllocError>
    ensures { IfOk result (λ k. k ≡ key_of bytes.now) }
{
    match str::from_utf8(bytes) {
        Ok(text) => one_term(alloc, text),
        Err(_) => Ok(None),
    }
}

/// The weight that digits say, from 1 to 1,000.
fn weight_of(bytes: &[u8]) -> Option<u32>
    ensures { result ≡ weight_from 0 bytes.now }
{
    let mut weight = 0;
    for b in bytes {
        if !b.is_ascii_digit() {
            return None;
        }
        weight = 10 * weight + u32::from(*b - b'0');
        if weight > MOST_WEIGHT {
            return None;
        }
    }
    if weight == 0 {
        return None;
    }
    Some(weight)
}

/// The place of the last `^`.
fn last_caret(bytes: &[u8]) -> Option<usize>
    ensures parts { option_map (λ i. (take i bytes.now, drop (i + 1) bytes.now)) result ≡ parted bytes.now }
    ensures within { IfSome result (λ i. i < length bytes.now) }
{
    let mut i = bytes.len();
    while i > 0 {
        i -= 1;
        if bytes[i] == b'^' {
            return Some(i);
        }
    }
    None
}

/// The word of bytes that are one with a weight behind it.
fn weighted(alloc: Global, bytes: &[u8]) -> Result<Option<Term>, AllocError>
    ensures { IfOk result (λ t. t ≡ weighted (parted bytes.now)) }
{
    let Some(i) = last_caret(bytes) else {
        return Ok(None);
    };
    let Some(key) = key_of(alloc, &bytes[..i])? else {
        return Ok(None);
    };
    let Some(weight) = weight_of(&bytes[i + 1..]) else {
        return Ok(None);
    };
    Ok(Some(Term { key, weight }))
}

/// The word of bytes, with its weight.
fn term_of(alloc: Global, bytes: &[u8]) -> Result<Option<Term>, AllocError>
    ensures { IfOk result (λ t. t ≡ term_of bytes.now) }
{
    match key_of(alloc, bytes)? {
        Some(key) => Ok(Some(Term { key, weight: 1 })),
        None => weighted(alloc, bytes),
    }
}

/// The token of bytes without spaces and parentheses.
fn token_of(alloc: Global, bytes: &[u8]) -> Result<Token, AllocError>
    ensures { IfOk result (λ t. t ≡ token_of term_of bytes.now) }
{
    if bytes == b"and".as_slice() {
        return Ok(Token::And);
    }
    if bytes == b"or".as_slice() {
        return Ok(Token::Or);
    }
    if bytes == b"not".as_slice() {
        return Ok(Token::Not);
    }
    match term_of(alloc, bytes)? {
        Some(term) => Ok(Token::Word(term)),
        None => Ok(Token::Wordless),
    }
}

/// Ends the token that has these bytes, where it has any.
fn close(alloc: Global, found: &mut Vec<Placed>, at: usize, run: &[u8]) -> Result<(), AllocError>
    ensures { OnOk result (found.new.items ≡ found.old.items ++ closed term_of at run.now) }
{
    if run.is_empty() {
        return Ok(());
    }
    let token = token_of(alloc, run)?;
    found.push(Placed { at, token })?;
    Ok(())
}

/// Goes on by one byte with the token that begins at `start`, and answers where the token begins
/// that stands before the next byte.
fn pass(
    alloc: Global,
    found: &mut Vec<Placed>,
    text: &[u8],
    start: usize,
    i: usize,
) -> Result<usize, AllocError>
    requires begun { start ≤ i }
    requires inside { i < length text.now }
    ensures behind { IfOk result (λ next. next ≤ i + 1) }
    ensures tokens { IfOk result (λ next. (rest : List ℕ) →
        found.new.items ++ tokens_from term_of next (take (i + 1 - next) (drop next text.now)) rest
        ≡ found.old.items ++ tokens_from term_of start (take (i - start) (drop start text.now))
        (slice_index text.now i ∷ rest)) }
{
    let token = match role_of(text[i]) {
        Role::Letter => return Ok(start),
        Role::Space => None,
        Role::Opening => Some(Token::Open),
        Role::Closing => Some(Token::Close),
    };
    close(alloc, found, start, &text[start..i])?;
    if let Some(token) = token {
        found.push(Placed { at: i, token })?;
    }
    Ok(i + 1)
}

/// The tokens of a text, each with its place. Costs its length.
pub(crate) fn tokens_of(alloc: Global, text: &[u8]) -> Result<Vec<Placed>, AllocError>
    ensures { IfOk result (λ v. v.items ≡ tokens term_of text.now) }
{
    let mut found = Vec::new(alloc);
    let mut start = 0;
    for i in 0..text.len() {
        start = pass(alloc, &mut found, text, start, i)?;
    }
    close(alloc, &mut found, start, &text[start..])?;
    Ok(found)
}
