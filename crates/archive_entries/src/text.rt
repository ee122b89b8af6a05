//! The text of a version as it comes.
ghost use Rattle.std.specs.Prelude.{◌≡◌, ◌≤◌, [], ◌∷◌, length, IsUtf8, Some, MatchResult};
ghost use Rattle.lists_versions.specs.Tests.{first_of};
ghost use Rattle.model_archive.specs.Steps.{too_long, bad_text};

use journal_entries::MOST_TEXT_BYTES;
use model_archive::Refusal;
use std::str;

/// The text of these bytes, or why they are no version's. Costs their length.
pub(crate) fn text_of(bytes: &[u8]) -> Result<&str, Refusal>
    ensures { MatchResult result (λ text. (length bytes.now ≤ MOST_TEXT_BYTES) × IsUtf8 bytes.now × (text.now ≡ bytes.now))
        (λ why. first_of (too_long bytes.now ∷ bad_text bytes.now ∷ []) ≡ Some why) }
{
    if bytes.len() > MOST_TEXT_BYTES {
        return Err(Refusal::TooLong {
            limit: MOST_TEXT_BYTES as u64,
        });
    }
    match str::from_utf8(bytes) {
        Ok(text) => Ok(text),
        Err(why) => Err(Refusal::BadText {
            offset: why.valid_up_to() as u64,
        }),
    }
}
