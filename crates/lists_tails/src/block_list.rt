//! A list in blocks.
ghost use Rattle.std.specs.Prelude.{◌≡◌, ◌≢◌, ◌+◌, ◌<◌, ◌≤◌, ◌^◌, [], length, IfOk, OnOk};
ghost use Rattle.lists_postings.specs.Lists.{sublist};
ghost use Rattle.lists_tails.specs.Turns.{IsTurned};

use crate::blocks::{BLOCK, reserve_block, reserve_one};
use crate::parts::{collect_all, collect_in, count};
use crate::turn::turn_blocks;
use base_types::{DocId, Posting, Span, Time};
use std::alloc::{AllocError, Global};
use std::marker::Model;

/// A list that stands in blocks, one behind another, so that a turn moves postings within one block
/// alone. A short list is one block that grows. Where there are more, a full block is divided, and
/// the room for that is a spare block in hand.
#[derive(Debug, Drop)]
pub(crate) struct BlockList {
    first: Vec<Posting>,
    later: Vec<Vec<Posting>>,
    spare: Vec<Posting>,
}

impl Model for BlockList {
    ghost use Rattle.std.specs.Prelude.{◌++◌};
    ghost use Rattle.lists_tails.specs.States.{TailState};
    ghost use Rattle.lists_tails.specs.Blocks.{joined, AreFilled, room_in};

    ghost Value = { TailState };

    ghost view = { λ t. record { list = t.first.items ++ joined t.later.items; room = room_in t.first t.later t.spare } };

    ghost invariant = { λ t. AreFilled t.later.items };
}

impl BlockList {
    /// An empty tail. It takes no memory. Constant cost.
    pub(crate) fn new(alloc: Global) -> BlockList
        ensures { result.list ≡ [] }
    {
        BlockList {
            first: Vec::new(alloc),
            later: Vec::new(alloc),
            spare: Vec::new(alloc),
        }
    }

    /// How many postings the tail has, below 2^64. It counts its blocks, of at most 512 postings.
    pub(crate) fn len(&self) -> u64
        ensures { length self.now.list < 2 ^ 64 → result ≡ length self.now.list }
    {
        count(&self.first, &self.later)
    }

    /// The tail's list. One pass over it.
    pub(crate) fn to_list(&self, alloc: Global) -> Result<Vec<Posting>, AllocError>
        ensures { IfOk result (λ list. list.items ≡ self.now.list) }
    {
        collect_all(alloc, &self.first, &self.later)
    }

    /// The postings that have a time in the span, uncut, in the list's order. One pass over the
    /// tail.
    pub(crate) fn rows_in(&self, alloc: Global, span: Span) -> Result<Vec<Posting>, AllocError>
        ensures { IfOk result (λ rows. rows.items ≡ sublist span.from span.to self.now.list) }
    {
        collect_in(alloc, &self.first, &self.later, span)
    }

    /// Makes room for one turn of any document, so that it takes no memory. Its cost is constant on
    /// average over the turns; an `Err` leaves the list as it was.
    pub(crate) fn reserve_turn(&mut self) -> Result<(), AllocError>
        ensures room { OnOk result (1 ≤ self.new.room) }
        ensures same { self.new.list ≡ self.old.list }
        ensures kept { self.old.room ≤ self.new.room }
    {
        let free = self.first.len() < self.first.capacity();
        if self.later.is_empty() && (free || self.first.len() < BLOCK) {
            return reserve_one(&mut self.first);
        }
        reserve_block(&mut self.later, &mut self.spare)
    }

    /// At `at` the document passes from the frequency `old` of the word to `new`, where 0 is for a
    /// document without the word. A posting that would be empty is dropped, and with one frequency
    /// before and after the document keeps its posting. No memory. The place is found by the
    /// logarithm of the tail's length, and the postings behind it in its block are moved once; a
    /// full block is divided, and the blocks behind it are moved once, 24 bytes each.
    pub(crate) fn turn(&mut self, doc: DocId, at: Time, old: u32, new: u32)
        requires room { new ≢ 0 → 1 ≤ self.old.room }
        ensures turned { IsTurned doc.0 at.seconds old new self.old.list self.new.list }
        ensures longer { length self.new.list ≤ length self.old.list + 1 }
        ensures same { old ≡ new → self.new ≡ self.old }
        ensures shorter { new ≡ 0 → length self.new.list ≤ length self.old.list }
        ensures none { new ≡ 0 → self.old.room ≤ self.new.room }
        ensures room { self.old.room ≤ self.new.room + 1 }
    {
        if old != new {
            turn_blocks(
                &mut self.first,
                &mut self.later,
                &mut self.spare,
                doc,
                at,
                old,
                new,
            );
        }
    }
}
