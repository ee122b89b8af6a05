//! Counts of keys as they come.
ghost use Rattle.std.specs.Prelude.{◌≡◌, ◌+◌, ◌<◌, ◌^◌, ℕ, Some, OnOk};
ghost use Rattle.std.specs.Str.{bytes_eq};
ghost use Rattle.indexmap.specs.IndexMap.{get};
ghost use Rattle.text_words.specs.Words.{bump};

use base_types::Key;
use indexmap::IndexMap;
use std::alloc::AllocError;

/// Counts one more occurrence of the key. The memory of a key that was counted before is given to
/// the spare text.
pub(crate) fn count(
    counts: &mut IndexMap<Key, u32>,
    spare: &mut String,
    key: Key,
) -> Result<(), AllocError>
    requires { (n : ℕ) → get bytes_eq counts.old key ≡ Some n → n + 1 < 2 ^ 32 }
    ensures { OnOk result (counts.new.entries ≡ bump bytes_eq counts.old.entries key) }
{
    if let Some(n) = counts.get_mut(&key) {
        *n += 1;
        *spare = key.into_text();
        return Ok(());
    }
    counts.insert(key, 1)?;
    Ok(())
}
