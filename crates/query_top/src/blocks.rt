//! The blocks of words, wherever they lie.
ghost use Rattle.std.specs.Prelude.{◌≡◌, ◌<◌, ℕ, List, Result, length, get_or, IfOk, []};
ghost use Rattle.query_top.specs.Sheets.{sheet_at};
ghost use Rattle.query_top.specs.declared.blocks.TopError.{TopError};

use base_types::Posting;
use pages_codec::BlockHead;
use std::alloc::AllocError;

/// The blocks of some words, by the words' numbers from 0. A word has blocks, or postings that are at
/// hand, or neither.
///
/// It tells what there is of each word; a call of `open` leads from the value before it to the one behind
/// it as `opens` says, and alone gives the postings of a block.
pub trait Blocks {
    ghost use Rattle.query_top.specs.Sheets.{Sheet};
    ghost use Rattle.std.specs.declared.alloc.Global.{Global};
    ghost use Rattle.std.specs.declared.vec.Vec.{Vec};
    ghost use Rattle.base_types.specs.declared.posting.Posting.{Posting};

    /// Why a block was not opened.
    type Fault;

    /// What there is of each word.
    ghost sheets: { Self → List Sheet };

    /// A call of `open` for a block of a word leads from the first value, with this answer, to the last.
    ghost opens: { Self → ℕ → ℕ → Result (Vec Posting Global) Self.Fault → Self → Type 0 };

    /// The headers of a word's blocks. Constant cost.
    fn heads(&self, word: usize) -> &[BlockHead]
        requires { word < length (sheets self.now) }
        ensures { result.now ≡ (sheet_at (sheets self.now) word).heads };

    /// The postings of a word that are at hand. Constant cost.
    fn flat(&self, word: usize) -> &[Posting]
        requires { word < length (sheets self.now) }
        ensures { result.now ≡ (sheet_at (sheets self.now) word).flat };

    /// The postings of a block.
    fn open(&mut self, word: usize, block: usize) -> Result<Vec<Posting>, Self::Fault>
        requires word { word < length (sheets self.old) }
        requires block { block < length (sheet_at (sheets self.old) word).heads }
        ensures call { opens self.old word block result self.new }
        ensures same { sheets self.new ≡ sheets self.old }
        ensures postings { IfOk result (λ v. v.items ≡ get_or (sheet_at (sheets self.old) word).blocks block []) };
}

/// Why there are no rows.
#[derive(Clone, Copy, Debug, PartialEq, Eq)]
pub enum TopError<E> {
    /// A block was not opened, for this.
    Blocks(E),
    /// Memory ran out.
    Memory,
}

impl<E> From<AllocError> for TopError<E> {
    ghost from_gives = { λ _ e. e ≡ TopError.Memory };

    fn from(_: AllocError) -> TopError<E> {
        TopError::Memory
    }
}
