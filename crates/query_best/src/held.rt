//! What is held of a word.
ghost use Rattle.std.specs.Prelude.{◌≡◌, ◌<◌, length, get_or, [], IfOk, IfErr};
ghost use Rattle.pages_sublists.specs.Fetching.{IfDamaged, IfFailed};
ghost use Rattle.query_best.specs.Held.{heads_in, sheet_of, IsBadBlock};

use base_types::{Posting, Span, Time};
use pages_codec::{BlockHead, Frames};
use pages_sublists::{FetchError, opened};
use std::alloc::Global;

/// Blocks of the sublist of a plan's segment.
#[derive(Drop)]
pub struct HeldBlocks {
    /// Their bytes and headers.
    pub frames: Frames,
    /// The first page of the place that they lie in.
    pub page: u32,
    /// The segment.
    pub span: Span,
    /// The plan's horizon.
    pub horizon: Time,
}

/// What is held of a word.
#[derive(Drop)]
pub struct HeldWord {
    /// Its blocks, where it has some.
    pub blocks: Option<HeldBlocks>,
    /// Its postings outside of blocks.
    pub flat: Vec<Posting>,
}

/// The headers of a word's blocks. Constant cost.
pub(crate) fn heads_of(word: &HeldWord) -> &[BlockHead]
    ensures { result.now ≡ heads_in word.now.blocks }
{
    match &word.blocks {
        Some(held) => held.frames.heads(),
        None => &[],
    }
}

/// The postings of a block of a word. One pass over its bytes.
pub(crate) fn open_in(
    alloc: Global,
    word: &HeldWord,
    block: usize,
) -> Result<Vec<Posting>, FetchError>
    requires { block < length (heads_in word.now.blocks) }
    ensures found { IfOk result (λ v. v.items ≡ get_or (sheet_of word.now).blocks block []) }
    ensures failed { IfErr result (IfFailed ⊥) }
    ensures damaged { IfErr result (IfDamaged (IsBadBlock word.now.blocks block)) }
{
    match &word.blocks {
        Some(held) => opened(
            alloc,
            &held.frames,
            block,
            held.page,
            held.span,
            held.horizon,
        ),
        None => Err(FetchError::Memory),
    }
}
