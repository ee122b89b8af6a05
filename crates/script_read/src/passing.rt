//! Texts above the limit, which are passed over.
ghost use Rattle.std.specs.Prelude.{◌≡◌, ◌≤◌, ◌<◌, ◌^◌, Bool, length, take, IfOk, IfSome, Some, None};
ghost use Rattle.script_read.specs.Items.{first, most_waiting};
ghost use Rattle.script_read.specs.Reading.{AsksFor, IsSmall, IsWithinText, long_piece};

use crate::first::{First, MOST_LINE_BYTES, line_length, short, text_end, without_cr};
use crate::line::{Meaning, meaning_of};
use crate::part::Part;
use base_commands::{Command, Item, MOST_TEXT_BYTES, Text};
use base_types::{DocId, Time};
use std::alloc::{AllocError, Global};

/// A text above the limit that is being passed over.
#[derive(Clone, Copy, Debug)]
pub struct Over {
    /// The document that its line names.
    pub doc: DocId,
    /// The time that its line names.
    pub at: Time,
    /// How many bytes the text has.
    pub size: u64,
    /// How many bytes its line takes, the end among them.
    pub line: u64,
    /// How many bytes of the text are gone.
    pub gone: u64,
}

/// The text above the limit for which a line asks that says this and takes so many bytes.
fn over_of(meaning: Meaning, line: u64) -> Option<Over>
    ensures some { IfSome result (λ over. (meaning ≡ Meaning.Arrival over.doc over.at over.size) × (4194304 < over.size)
        × (over.line ≡ line) × (over.gone ≡ 0)) }
    ensures none { result ≡ None → IsWithinText meaning }
{
    let Meaning::Arrival { doc, at, bytes } = meaning else {
        return None;
    };
    if bytes <= MOST_TEXT_BYTES as u64 {
        return None;
    }
    Some(Over {
        doc,
        at,
        size: bytes,
        line,
        gone: 0,
    })
}

/// The text above the limit for which the first line of these bytes asks, of which nothing is gone
/// yet. Costs the line.
pub(crate) fn long_text(alloc: Global, bytes: &[u8]) -> Result<Option<Over>, AllocError>
    ensures asks { IfOk result (λ o. IfSome o (λ over. AsksFor over (take over.line bytes.now))) }
    ensures start { IfOk result (λ o. IfSome o (λ over. (over.gone ≡ 0) × (over.line ≤ length bytes.now))) }
    ensures small { IfOk result IsSmall }
    // Where it asks for none, what waits for an item to be whole is bounded.
    ensures waits { IfOk result (λ o. o ≡ None → (ended : Bool) → first ended bytes.now ≡ First.More → length bytes.now ≤ most_waiting) }
{
    let place = line_length(bytes);
    if place == bytes.len() {
        return Ok(None);
    }
    let line = without_cr(&bytes[..place]);
    if line.len() > MOST_LINE_BYTES {
        return Ok(None);
    }
    Ok(over_of(meaning_of(alloc, line)?, place as u64 + 1))
}

/// What the bytes since the last item begin with, where these are at hand of such a text and
/// behind it. Constant cost.
pub(crate) fn long_piece(ended: bool, over: Over, bytes: &[u8]) -> First
    requires over { IsSmall (Some over) }
    requires small { length bytes.now < 2 ^ 62 }
    ensures { result ≡ long_piece ended over bytes.now }
{
    let len = (over.line + over.gone) as usize + bytes.len();
    let left = over.size - over.gone;
    if (bytes.len() as u64) < left {
        return short(ended, len);
    }
    let arrival = Part::Item(Item::Command(Command::Arrive {
        doc: over.doc,
        at: over.at,
        text: Text::TooLong { bytes: over.size },
    }));
    let end = (over.line + over.size) as usize;
    text_end(ended, len, end, arrival, &bytes[left as usize..])
}
