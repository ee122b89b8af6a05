//! The changes of documents that a batch has.
ghost use Rattle.std.specs.Prelude.{◌≡◌, length};
ghost use Rattle.journal_entries.specs.Acts.{act_bytes, act_length, alone, IsAct};

use crate::entry::Entry;
use crate::tags::CHANGE_BYTES;
use crate::text::VersionText;
use base_types::{DocId, Time};

/// How many bytes the length of an act has in a batch's spelling.
const SIZE_BYTES: u64 = 4;

/// A change of a document, as one of a batch.
#[derive(Debug, Drop)]
pub enum Act {
    /// A new version of a document.
    Arrive {
        /// The document.
        doc: DocId,
        /// When the version is created.
        at: Time,
        /// Its text, of at most `MOST_TEXT_BYTES` bytes.
        text: VersionText,
    },
    /// The end of a document's newest version, without a new one.
    Delete {
        /// The document.
        doc: DocId,
        /// When the version ends.
        at: Time,
    },
}

impl Act {
    /// How many bytes its text has. Constant cost.
    pub fn text_bytes(&self) -> u64
        ensures { result ≡ act_length self.now }
    {
        match self {
            Act::Arrive { text, .. } => text.as_str().len() as u64,
            Act::Delete { .. } => 0,
        }
    }

    /// How many bytes it takes in the spelling of a batch, with the number of these in front. Constant cost.
    pub fn spelled_bytes(&self) -> u64
        requires { IsAct self.now }
        ensures { result ≡ length (act_bytes self.now) }
    {
        SIZE_BYTES + CHANGE_BYTES as u64 + self.text_bytes()
    }
}

/// An act as an entry of its own. Constant cost.
pub(crate) fn alone(act: Act) -> Entry
    ensures { result ≡ alone act }
{
    match act {
        Act::Arrive { doc, at, text } => Entry::Arrive { doc, at, text },
        Act::Delete { doc, at } => Entry::Delete { doc, at },
    }
}
