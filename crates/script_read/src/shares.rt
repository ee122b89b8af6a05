//! What the line of a shared budget names: its factor, and its words.
ghost use Rattle.std.specs.Prelude.{◌≡◌, ◌≤◌, length, IfOk};
ghost use Rattle.script_read.specs.Values.{share_fraction, share_words};

use crate::values::{fraction, text};
use crate::words::{is_blank, next_word};
use base_commands::{MOST_SHARE_WORDS, ShareFraction, ShareWords};
use std::alloc::{AllocError, Global};

/// The factor of a shared budget that a word names. Costs the word's length.
pub(crate) fn share_fraction(word: &[u8]) -> Option<ShareFraction>
    ensures { result ≡ share_fraction word.now }
{
    ShareFraction::new(fraction(word)?)
}

/// The words of a line, copied, where each is text and there are some, and not too many. Costs the
/// line's length, for each of them.
pub(crate) fn share_words(alloc: Global, line: &[u8]) -> Result<Option<ShareWords>, AllocError>
    requires { length line.now ≤ 4096 }
    ensures { IfOk result (λ w. w ≡ share_words line.now) }
{
    let mut words = Vec::new(alloc);
    let mut rest = line;
    'words: while !is_blank(rest) {
        if words.len() >= MOST_SHARE_WORDS {
            return Ok(None);
        }
        let (first, behind) = next_word(rest);
        match text(alloc, first)? {
            Some(word) => words.push(word)?,
            None => return Ok(None),
        }
        rest = behind;
    }
    if words.is_empty() {
        return Ok(None);
    }
    Ok(Some(ShareWords::new(words)))
}
