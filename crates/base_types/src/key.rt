//! Keys of words.
ghost use Rattle.std.specs.Prelude.{◌≡◌, ◌≤◌, ◌↔◌, length, string_bytes, IsSome, IfSome, IsOk, IfOk, IfErr, Some, nat_eq, refl};
ghost use Rattle.std.specs.Ordering.{nat_cmp};
ghost use Rattle.std.specs.Hash as fed;
ghost use Rattle.std.specs.Cmp.Lexicographic.{pointwise, slice_cmp, nat_list_eq_equiv, nat_list_cmp_total, texts_ties, texts_po};
ghost use Rattle.std.specs.Cmp.{partial_equiv_from_equiv};
ghost use Rattle.std.specs.Cmp.Rules.{hashing};
ghost use Rattle.std.proofs.Common.{rules};

use std::alloc::{AllocError, Global};
use std::cmp::Ordering;
use std::hash::{Hash, Hasher};
use std::marker::Model;

/// The most bytes of a key.
pub const MOST_KEY_BYTES: usize = 255;

/// The form of a word by which the vocabulary knows it: a text of 1 to 255 bytes. Contracts see
/// its bytes, which also order and hash it.
#[derive(Debug, Drop)]
pub struct Key {
    text: String,
}

impl Model for Key {
    ghost use Rattle.std.specs.Prelude.{ℕ, List, ◌≤◌, length, string_bytes};

    ghost Value = { List ℕ };

    ghost view = { λ k. string_bytes k.text };

    ghost invariant = { λ k. (1 ≤ length (string_bytes k.text)) × (length (string_bytes k.text) ≤ 255) };
}

impl Key {
    /// The key with that text, copied; None where the text has no byte or more than 255. Costs the
    /// text's length.
    pub fn new(alloc: Global, text: &str) -> Result<Option<Key>, AllocError>
        ensures valid { IfOk result (λ k. IsSome k ↔ ((1 ≤ length text.now) × (length text.now ≤ 255))) }
        ensures value { IfOk result (λ k. IfSome k (λ key. key ≡ text.now)) }
    {
        if text.is_empty() || text.len() > MOST_KEY_BYTES {
            return Ok(None);
        }
        let text = String::from_str(alloc, text)?;
        Ok(Some(Key { text }))
    }

    /// The key with that text, of which nothing is copied; the text itself where it has no byte or
    /// more than 255. Constant cost.
    pub fn from_text(text: String) -> Result<Key, String>
        ensures valid { IsOk result ↔ ((1 ≤ length (string_bytes text)) × (length (string_bytes text) ≤ 255)) }
        ensures value { IfOk result (λ key. key ≡ string_bytes text) }
        ensures returned { IfErr result (λ back. back ≡ text) }
    {
        if text.as_str().is_empty() || text.as_str().len() > MOST_KEY_BYTES {
            return Err(text);
        }
        Ok(Key { text })
    }

    /// The key's text, of which nothing is copied. Constant cost.
    pub fn into_text(self) -> String
        ensures value { string_bytes result ≡ self }
    {
        self.text
    }

    /// The key's text. Constant cost.
    pub fn as_str(&self) -> &str
        ensures value { result.now ≡ self.now }
        ensures not_empty { 1 ≤ length result.now }
        ensures short { length result.now ≤ 255 }
    {
        self.text.as_str()
    }
}

impl Clone for Key {
    ghost is_clone = { λ key copy. copy ≡ key };

    fn clone(&self) -> Result<Key, AllocError> {
        Ok(Key {
            text: self.text.clone()?,
        })
    }
}

impl PartialEq for Key {
    ghost eq = { pointwise nat_eq };

    ghost laws = { partial_equiv_from_equiv nat_list_eq_equiv };

    fn eq(&self, other: &Key) -> bool {
        self.as_str() == other.as_str()
    }
}

impl Eq for Key {
    ghost laws = { nat_list_eq_equiv };
}

impl PartialOrd for Key {
    ghost partial_cmp = { λ x y. Some (slice_cmp nat_cmp x y) };

    ghost laws = { texts_po };

    fn partial_cmp(&self, other: &Key) -> Option<Ordering> {
        Some(self.cmp(other))
    }
}

impl Ord for Key {
    ghost cmp = { slice_cmp nat_cmp };

    ghost total = { nat_list_cmp_total };

    ghost matches_partial_cmp = { λ x y. refl };

    ghost matches_eq = { texts_ties };

    fn cmp(&self, other: &Key) -> Ordering {
        self.as_str().cmp(other.as_str())
    }
}

impl Hash for Key {
    ghost hash_input = { fed.str };

    ghost respects_eq = { Prim.search (hashing, rules) };

    fn hash<H: Hasher>(&self, state: &mut H) {
        self.as_str().hash(state);
    }
}
