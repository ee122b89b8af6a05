//! Words whose blocks are opened.
ghost use Rattle.std.specs.Prelude.{◌≡◌, ◌<◌, length, IfOk, sum_by};
ghost use Rattle.query_best.specs.Held.{heads_in};
ghost use Rattle.query_best.specs.Opening.{sheets_of};

use crate::held::{HeldWord, heads_of, open_in};
use base_types::Posting;
use pages_codec::BlockHead;
use pages_sublists::FetchError;
use query_top::Blocks;
use std::alloc::{AllocError, Global};

/// Words, and how many of their blocks were opened.
#[derive(Drop)]
pub(crate) struct Shelf {
    pub(crate) alloc: Global,
    pub(crate) words: Vec<HeldWord>,
    pub(crate) opened: u64,
}

impl Blocks for Shelf {
    ghost use Rattle.query_best.specs.Opening.{IsOpening, sheets_of};

    type Fault = FetchError;

    ghost sheets = { λ s. sheets_of s.words.items };

    ghost opens = { λ x word block answer y. IsOpening x word block answer y };

    fn heads(&self, word: usize) -> &[BlockHead] {
        heads_of(&self.words[word])
    }

    fn flat(&self, word: usize) -> &[Posting] {
        &self.words[word].flat
    }

    fn open(&mut self, word: usize, block: usize) -> Result<Vec<Posting>, FetchError> {
        let list = match open_in(self.alloc, &self.words[word], block) {
            Ok(list) => list,
            Err(error) => return Err(error),
        };
        let Some(opened) = self.opened.checked_add(1) else {
            return Err(FetchError::Memory);
        };
        self.opened = opened;
        Ok(list)
    }
}

/// How many blocks some words have. Costs the number of words.
pub(crate) fn blocks_of(words: &[HeldWord]) -> Result<u64, AllocError>
    ensures { IfOk result (λ n. n ≡ sum_by (λ w. length (heads_in w.blocks)) words.now) }
{
    let mut blocks: u64 = 0;
    for word in words {
        let Some(more) = blocks.checked_add(heads_of(word).len() as u64) else {
            return Err(AllocError);
        };
        blocks = more;
    }
    Ok(blocks)
}
