//! Words and questions as they are written.
ghost use Rattle.std.specs.Prelude.{◌≡◌, ◌≤◌, ℕ, List, length, string_bytes, IfOk};
ghost use Rattle.base_commands.specs.Phrases.{phrase_of};

use std::alloc::{AllocError, Global};
use std::marker::Model;
use std::str;

/// The most bytes of a phrase.
pub const MOST_PHRASE_BYTES: usize = 4096;

/// A text of at most `MOST_PHRASE_BYTES` bytes. Contracts see the list of the bytes of its UTF-8.
#[derive(Debug, Drop)]
pub struct Phrase {
    text: String,
}

impl Model for Phrase {
    ghost Value = { List ℕ };

    ghost view = { λ p. string_bytes p.text };

    ghost invariant = { λ p. length (string_bytes p.text) ≤ 4096 };
}

impl Phrase {
    /// The phrase of these bytes, copied; None where they are no UTF-8 or more than
    /// `MOST_PHRASE_BYTES`. Costs their length.
    pub fn new(alloc: Global, bytes: &[u8]) -> Result<Option<Phrase>, AllocError>
        ensures { IfOk result (λ p. p ≡ phrase_of bytes.now) }
    {
        if bytes.len() > MOST_PHRASE_BYTES {
            return Ok(None);
        }
        match str::from_utf8(bytes) {
            Ok(text) => Ok(Some(Phrase {
                text: String::from_str(alloc, text)?,
            })),
            Err(_) => Ok(None),
        }
    }

    /// The phrase's text. Constant cost.
    pub fn as_str(&self) -> &str
        ensures value { result.now ≡ self.now }
        ensures short { length result.now ≤ 4096 }
    {
        self.text.as_str()
    }
}
