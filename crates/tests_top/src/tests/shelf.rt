//! Words whose blocks lie in memory.

use base_types::Posting;
use pages_codec::BlockHead;
use query_top::Blocks;
use std::alloc::{AllocError, Global};

/// What there is of a word.
#[derive(Drop)]
pub(crate) struct Word {
    pub(crate) heads: Vec<BlockHead>,
    pub(crate) blocks: Vec<Vec<Posting>>,
    pub(crate) flat: Vec<Posting>,
}

/// The header of a block, as far as it counts here.
fn head_for(block: &[Posting]) -> Option<BlockHead> {
    let first = block.first()?.doc;
    let last = block.last()?.doc;
    let mut top = 0;
    for p in block {
        top = p.tf.max(top);
    }
    Some(BlockHead {
        count: 0,
        size: 0,
        top,
        first,
        last,
    })
}

impl Word {
    /// A word whose list is at hand.
    pub(crate) fn flat(alloc: Global, list: &[Posting]) -> Result<Word, AllocError> {
        Ok(Word {
            heads: Vec::new(alloc),
            blocks: Vec::new(alloc),
            flat: list.to_vec(alloc)?,
        })
    }

    /// A word whose list is cut into blocks of so many postings.
    pub(crate) fn blocked(
        alloc: Global,
        list: &[Posting],
        size: usize,
    ) -> Result<Word, AllocError> {
        let mut heads = Vec::new(alloc);
        let mut blocks = Vec::new(alloc);
        for block in list.chunks(size.max(1)) {
            if let Some(head) = head_for(block) {
                heads.push(head)?;
                blocks.push(block.to_vec(alloc)?)?;
            }
        }
        Ok(Word {
            heads,
            blocks,
            flat: Vec::new(alloc),
        })
    }
}

/// Why a block was not opened.
#[derive(Clone, Copy, Debug, PartialEq, Eq)]
pub(crate) enum Fault {
    /// It is torn.
    Torn,
    /// Memory ran out.
    Memory,
}

impl From<AllocError> for Fault {
    fn from(_: AllocError) -> Fault {
        Fault::Memory
    }
}

/// The words, and how often one of their blocks was opened.
#[derive(Drop)]
pub(crate) struct Shelf {
    pub(crate) alloc: Global,
    pub(crate) words: Vec<Word>,
    /// This block of each word is torn.
    pub(crate) torn: Option<usize>,
    pub(crate) opened: u64,
}

impl Blocks for Shelf {
    ghost use Rattle.std.specs.Prelude.{map};

    type Fault = Fault;

    ghost sheets = { λ s. map (λ w. record { heads = w.heads.items; blocks = map (λ b. b.items) w.blocks.items; flat = w.flat.items })
        s.words.items };

    ghost opens = { λ x word block answer y. Unit {0} };

    fn heads(&self, word: usize) -> &[BlockHead] {
        &self.words[word].heads
    }

    fn flat(&self, word: usize) -> &[Posting] {
        &self.words[word].flat
    }

    fn open(&mut self, word: usize, block: usize) -> Result<Vec<Posting>, Fault> {
        if self.torn == Some(block) {
            return Err(Fault::Torn);
        }
        self.opened = self.opened.saturating_add(1);
        match self.words[word].blocks.get(block) {
            Some(postings) => Ok(postings.to_vec(self.alloc)?),
            None => Err(Fault::Torn),
        }
    }
}
