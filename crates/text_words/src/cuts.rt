//! The first run of a text, as a slice of it.
ghost use Rattle.std.specs.Prelude.{◌≡◌, ◌+◌, ◌<◌, ◌≤◌, true, false, length, take, slice_index, chars, ◌++◌, [], ◌∷◌, IfSome, IfNone};
ghost use Rattle.std.specs.List.{list_all};
ghost use Rattle.text_words.specs.Terms.{is_ascii_term, is_ascii_gap, closed, runs};

use crate::runs::is_term_char;

/// Whether the byte is of ASCII and part of a run. Constant cost.
fn is_term_byte(byte: u8) -> bool
    ensures { result ≡ is_ascii_term byte }
{
    byte.is_ascii_alphanumeric()
}

/// Whether the byte is of ASCII and part of no run. Constant cost.
fn is_gap_byte(byte: u8) -> bool
    ensures { result ≡ is_ascii_gap byte }
{
    byte.is_ascii() && !byte.is_ascii_alphanumeric()
}

/// How many bytes in front are of ASCII and part of no run.
fn gap_len(bytes: &[u8]) -> usize
    ensures within { result ≤ length bytes.now }
    ensures front { list_all is_ascii_gap (take result bytes.now) ≡ true }
{
    for (at, byte) in bytes.iter().enumerate() {
        if !is_gap_byte(*byte) {
            return at;
        }
    }
    bytes.len()
}

/// How many bytes in front are of ASCII and part of a run.
fn ascii_len(bytes: &[u8]) -> usize
    ensures within { result ≤ length bytes.now }
    ensures front { list_all is_ascii_term (take result bytes.now) ≡ true }
    ensures stop { result < length bytes.now → is_ascii_term (slice_index bytes.now result) ≡ false }
{
    for (at, byte) in bytes.iter().enumerate() {
        if !is_term_byte(*byte) {
            return at;
        }
    }
    bytes.len()
}

/// The text behind the bytes in front that are of ASCII and part of no run.
fn behind_gap(text: &str) -> &str
    ensures runs { runs (chars text.now) ≡ runs (chars result.now) }
    ensures shorter { length result.now ≤ length text.now }
{
    let start = gap_len(text.as_bytes());
    let (_, rest) = text.split_at(start);
    rest
}

/// The run with which the text begins, if it does, and what follows the character that ends it.
fn first_wide(text: &str) -> (&str, &str)
    ensures runs { runs (chars text.now) ≡ closed (chars result.0.now) ++ runs (chars result.1.now) }
    ensures shorter { 0 < length text.now → length result.1.now < length text.now }
{
    match text.split_once(|c: char| !is_term_char(c)) {
        Some(parts) => parts,
        None => (text, ""),
    }
}

/// The first run of a text, which is empty where the text has none or where one was asked for at a
/// character that is part of none, and the text behind it, in which the text's other runs are. Each
/// byte is read once, or twice where a run has characters beyond ASCII; nothing is copied.
fn first_run(text: &str) -> (&str, &str)
    ensures runs { runs (chars text.now) ≡ closed (chars result.0.now) ++ runs (chars result.1.now) }
    ensures shorter { 0 < length text.now → length result.1.now < length text.now }
{
    let text = behind_gap(text);
    let end = ascii_len(text.as_bytes());
    if end == text.len() {
        return (text, "");
    }
    if !text.as_bytes()[end].is_ascii() {
        return first_wide(text);
    }
    (&text[..end], &text[end + 1..])
}

/// The text's next run and the text behind it; None where there is none.
pub(crate) fn next_run(text: &str) -> Option<(&str, &str)>
    ensures some { IfSome result (λ p. runs (chars text.now) ≡ chars p.0.now ∷ runs (chars p.1.now)) }
    ensures none { IfNone result (runs (chars text.now) ≡ []) }
{
    let mut rest = text;
    while !rest.is_empty() {
        let (run, after) = first_run(rest);
        if !run.is_empty() {
            return Some((run, after));
        }
        rest = after;
    }
    None
}
