//! One word's tail.
ghost use Rattle.std.specs.Prelude.{◌≡◌, ◌≢◌, ◌+◌, ◌<◌, ◌≤◌, ◌^◌, [], length, IfOk, OnOk};
ghost use Rattle.lists_postings.specs.Lists.{sublist};
ghost use Rattle.lists_tails.specs.Turns.{IsTurned};

use crate::block_list::BlockList;
use base_types::{DocId, Posting, Span, Time};
use std::alloc::{AllocError, Global};
use std::marker::Model;

/// One word's tail: its list. Contracts see it, and how many more postings fit in without memory.
///
/// The list stands in blocks, so that a turn moves postings within one block alone. A tail that was
/// never asked to make room has none, and is 16 bytes in place of the 24 of an empty vector.
#[derive(Debug, Drop)]
pub struct Tail {
    alloc: Global,
    blocks: Option<Box<BlockList>>,
}

impl Model for Tail {
    ghost use Rattle.lists_tails.specs.States.{TailState};
    ghost use Rattle.lists_tails.specs.Blocks.{held_in};

    ghost Value = { TailState };

    ghost view = { λ t. held_in t.blocks };
}

impl Tail {
    /// An empty tail. It takes no memory. Constant cost.
    pub fn new(alloc: Global) -> Tail
        ensures { result.list ≡ [] }
    {
        Tail {
            alloc,
            blocks: None,
        }
    }

    /// How many postings the tail has, below 2^64. It counts its blocks, of at most 512 postings.
    pub fn len(&self) -> u64
        ensures { length self.now.list < 2 ^ 64 → result ≡ length self.now.list }
    {
        match &self.blocks {
            Some(blocks) => blocks.len(),
            None => 0,
        }
    }

    /// The tail's list. One pass over it.
    pub fn to_list(&self, alloc: Global) -> Result<Vec<Posting>, AllocError>
        ensures { IfOk result (λ list. list.items ≡ self.now.list) }
    {
        match &self.blocks {
            Some(blocks) => blocks.to_list(alloc),
            None => Ok(Vec::new(alloc)),
        }
    }

    /// The postings that have a time in the span, uncut, in the list's order. One pass over the
    /// tail.
    pub fn rows_in(&self, alloc: Global, span: Span) -> Result<Vec<Posting>, AllocError>
        ensures { IfOk result (λ rows. rows.items ≡ sublist span.from span.to self.now.list) }
    {
        match &self.blocks {
            Some(blocks) => blocks.rows_in(alloc, span),
            None => Ok(Vec::new(alloc)),
        }
    }

    /// Makes room for one turn of any document, so that it takes no memory. Its cost is constant on
    /// average over the turns; an `Err` leaves the list as it was.
    pub fn reserve_turn(&mut self) -> Result<(), AllocError>
        ensures room { OnOk result (1 ≤ self.new.room) }
        ensures same { self.new.list ≡ self.old.list }
        ensures kept { self.old.room ≤ self.new.room }
    {
        if let Some(blocks) = &mut self.blocks {
            return blocks.reserve_turn();
        }
        let mut blocks = BlockList::new(self.alloc);
        blocks.reserve_turn()?;
        self.blocks = Some(Box::new(self.alloc, blocks)?);
        Ok(())
    }

    /// At `at` the document passes from the frequency `old` of the word to `new`, where 0 is for a
    /// document without the word. A posting that would be empty is dropped, and with one frequency
    /// before and after the document keeps its posting. No memory. The place is found by the
    /// logarithm of the tail's length, and the postings behind it in its block are moved once; a
    /// full block is divided, and the blocks behind it are moved once, 24 bytes each.
    pub fn turn(&mut self, doc: DocId, at: Time, old: u32, new: u32)
        requires room { new ≢ 0 → 1 ≤ self.old.room }
        ensures turned { IsTurned doc.0 at.seconds old new self.old.list self.new.list }
        ensures longer { length self.new.list ≤ length self.old.list + 1 }
        ensures same { old ≡ new → self.new ≡ self.old }
        ensures shorter { new ≡ 0 → length self.new.list ≤ length self.old.list }
        ensures none { new ≡ 0 → self.old.room ≤ self.new.room }
        ensures room { self.old.room ≤ self.new.room + 1 }
    {
        if let Some(blocks) = &mut self.blocks {
            blocks.turn(doc, at, old, new);
        }
    }
}
