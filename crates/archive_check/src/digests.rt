//! The digests of sublists in the journal.
ghost use Rattle.std.specs.Prelude.{◌≡◌, ◌≢◌, IfSome, MatchOption};
ghost use Rattle.sha2.specs.Sha256.{sha256};

use sha2::{Digest, Sha256};

/// Whether a check computes the digests of the bytes that it reads.
#[derive(Clone, Copy)]
pub(crate) enum Digests {
    /// It doesn't, and tells nothing of those in the journal.
    Unasked,
    /// It does, and compares each with the one in the journal.
    Asked,
}

/// The first of one segment whose digest in the journal isn't that of its bytes, where digests are asked.
/// Costs the bytes.
pub(crate) fn altered_of(digests: Digests, kept: &[u8; 32], bytes: &[u8]) -> Option<usize>
    ensures told { digests ≡ Digests.Asked
        → MatchOption result (kept.now ≡ sha256 bytes.now) (λ n. (n ≡ 0) × (kept.now ≢ sha256 bytes.now)) }
    ensures first { IfSome result (λ n. n ≡ 0) }
{
    match digests {
        Digests::Unasked => None,
        Digests::Asked => {
            let got = Sha256::digest(bytes);
            if got == *kept { None } else { Some(0) }
        }
    }
}
