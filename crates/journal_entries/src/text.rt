//! Texts of versions.
ghost use Rattle.std.specs.Prelude.{◌≡◌, IfOk};

use std::alloc::{AllocError, Global};
use std::marker::Model;

/// The most bytes of a version's text.
pub const MOST_TEXT_BYTES: usize = 4_194_304;

/// The text of a version, which contracts see as its bytes.
#[derive(Debug, Drop)]
pub struct VersionText {
    content: String,
}

impl Model for VersionText {
    ghost use Rattle.std.specs.Prelude.{ℕ, List, string_bytes};

    ghost Value = { List ℕ };

    ghost view = { λ t. string_bytes t.content };
}

impl VersionText {
    /// A copy of a text. Costs the text's length.
    pub fn copy_of(alloc: Global, text: &str) -> Result<VersionText, AllocError>
        ensures { IfOk result (λ t. t ≡ text.now) }
    {
        let content = String::from_str(alloc, text)?;
        Ok(VersionText { content })
    }

    /// The text. Constant cost.
    pub fn as_str(&self) -> &str
        ensures { result.now ≡ self.now }
    {
        self.content.as_str()
    }
}
