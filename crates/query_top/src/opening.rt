//! Opening the blocks that cover a document.
ghost use Rattle.std.specs.Prelude.{◌≡◌, ◌⊎◌, ◌+◌, ◌-◌, ◌<◌, ◌≤◌, ◌++◌, ℕ, max, length, OnOk, IsErrOf};
ghost use Rattle.query_top.specs.Sheets.{IsSheet, sheet_at};
ghost use Rattle.query_top.specs.Lanes.{Keeps, Stands};
ghost use Rattle.query_top.specs.Opening.{Opens, OpensToFault, run_of};
ghost use Rattle.query_top.specs.declared.blocks.TopError.{TopError};

use crate::blocks::{Blocks, TopError};
use crate::lane::Lane;
use base_types::Posting;
use std::alloc::AllocError;

impl Lane {
    /// Puts the postings of the next block behind the hits that are left.
    pub(crate) fn take(&mut self, postings: Vec<Posting>) -> Result<(), AllocError>
        requires cursor { self.old.cursor ≤ length self.old.hits.items }
        requires more { self.old.opened < self.old.after }
        ensures cursor { OnOk result (self.new.cursor ≤ length self.new.hits.items) }
        ensures hits { OnOk result
            (((self.new.hits.items ≡ postings.items) × (self.new.cursor ≡ 0) × (self.old.cursor ≡ length self.old.hits.items))
            ⊎ ((self.new.hits.items ≡ self.old.hits.items ++ postings.items) × (self.new.cursor ≡ self.old.cursor))) }
        ensures same { OnOk result (self.new ≡ record self.old {
          opened = self.old.opened + 1;
          hits = self.new.hits;
          cursor = self.new.cursor;
        }) }
    {
        if self.cursor == self.hits.len() {
            self.hits = postings;
            self.cursor = 0;
        } else {
            self.hits.extend_from_slice(&postings)?;
        }
        self.opened += 1;
        Ok(())
    }

    /// Passes over the blocks that end before the document in hand.
    pub(crate) fn pass_over(&mut self)
        ensures { self.new ≡ record self.old { opened = max self.old.opened self.old.cover } }
    {
        if self.opened < self.cover {
            self.opened = self.cover;
        }
    }
}

/// Opens the blocks of a word that cover the document in hand and aren't open.
pub(crate) fn open_covering<B: Blocks>(
    blocks: &mut B,
    word: usize,
    lane: &mut Lane,
) -> Result<(), TopError<B::Fault>>
    requires word { word < length (B.sheets blocks.old) }
    requires reaches { lane.old.after ≤ length (sheet_at (B.sheets blocks.old) word).heads }
    requires cursor { lane.old.cursor ≤ length lane.old.hits.items }
    ensures sheets { B.sheets blocks.new ≡ B.sheets blocks.old }
    ensures opens { let from = max lane.old.opened lane.old.cover in
        OnOk result (Opens B.opens blocks.old (run_of word from (lane.old.after - from)) blocks.new) }
    ensures fault { (e : _) → IsErrOf result (TopError.Blocks e) → OpensToFault B.opens blocks.old e blocks.new }
    ensures same { OnOk result (lane.new ≡ record lane.old { opened = lane.new.opened; hits = lane.new.hits; cursor = lane.new.cursor }) }
    ensures cursor { OnOk result (lane.new.cursor ≤ length lane.new.hits.items) }
    ensures keeps { (at d : ℕ) → let s = sheet_at (B.sheets blocks.old) word in IsSheet at s → d < lane.old.border → Keeps at s d lane.old
        → Stands at s d lane.old
        → OnOk result (Keeps at s d lane.new × Stands at s d lane.new) }
    ensures opened { OnOk result (lane.new.opened ≡ max (max lane.old.opened lane.old.cover) lane.old.after) }
{
    lane.pass_over();
    while lane.opened < lane.after {
        match blocks.open(word, lane.opened) {
            Ok(postings) => lane.take(postings)?,
            Err(fault) => return Err(TopError::Blocks(fault)),
        }
    }
    Ok(())
}
