//! Texts as they come in.
ghost use Rattle.std.specs.Prelude.{◌≡◌, ◌≤◌, length, vec_len};

use std::marker::Model;

/// The most bytes of a text that is kept.
pub const MOST_TEXT_BYTES: usize = 4_194_304;

/// The bytes of a text, of any values, at most `MOST_TEXT_BYTES` of them. Contracts see the list of
/// the bytes.
#[derive(Debug, Drop)]
pub struct Content {
    bytes: Vec<u8>,
}

impl Model for Content {
    ghost use Rattle.std.specs.Prelude.{ℕ, List, ◌≤◌, length};

    ghost Value = { List ℕ };

    ghost view = { λ c. c.bytes.items };

    ghost invariant = { λ c. length c.bytes.items ≤ 4194304 };
}

impl Content {
    /// The content with these bytes, of which nothing is copied. Constant cost.
    pub fn new(bytes: Vec<u8>) -> Content
        requires { vec_len bytes ≤ 4194304 }
        ensures { result ≡ bytes.items }
    {
        Content { bytes }
    }

    /// The bytes. Constant cost.
    pub fn as_slice(&self) -> &[u8]
        ensures value { result.now ≡ self.now }
        ensures short { length result.now ≤ 4194304 }
    {
        self.bytes.as_slice()
    }
}

/// The text of a version that arrives.
#[derive(Debug, Drop)]
pub enum Text {
    /// Its bytes, which may be no UTF-8.
    Bytes(Content),
    /// More than `MOST_TEXT_BYTES`, of which none were kept.
    TooLong {
        /// How many bytes the text has, below 2^40.
        bytes: u64,
    },
}
