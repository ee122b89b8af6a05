//! What a check finds that asks digests too.
use base_types::Key;
use model_archive::Verdict;

/// What a check finds that asks digests too.
#[derive(Debug, Drop)]
pub enum Finding {
    /// What `verify` tells; where that is that all is sound, each digest is that of its sublist's bytes.
    Told(Verdict),
    /// All is sound but for a digest in the journal, which isn't that of the bytes of its sublist.
    BadDigest {
        /// The plan's word.
        word: Key,
        /// The segment, the first being 0.
        segment: u64,
    },
}
