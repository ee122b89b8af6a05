//! The lines of a budget that words share.
ghost use Rattle.std.specs.Prelude.{◌≡◌, ◌++◌, OnOk, length};
ghost use Rattle.model_archive.specs.Replies.{budget_text, reply_text, share_text};
ghost use Rattle.model_archive.specs.Steps.{Shared};

use crate::page::{REPLY_ROOM, ReplyPage};
use model_archive::{Share, Sharing};
use std::alloc::AllocError;

/// The most bytes of the line of a share with its end: that of a word of 255 bytes.
const MOST_SHARE_BYTES: usize = 323;

impl ReplyPage {
    /// Writes the shares of words and the budget, in place of what the page held. It takes memory; an
    /// error means that memory ran out, and leaves a part of the reply. The cost is linear in the words.
    pub fn shared(&mut self, sharing: &Sharing) -> Result<(), AllocError>
        ensures { OnOk result (self.new.bytes ≡ reply_text (Shared sharing.now.shares.items sharing.now.unit sharing.now.budget
            sharing.now.cost)) }
    {
        self.clear();
        for share in &sharing.shares {
            self.put_share(share)?;
        }
        self.put_budget(sharing)
    }

    /// Adds the line of a share. It takes memory where there is no room. The cost is linear in the word.
    fn put_share(&mut self, share: &Share) -> Result<(), AllocError>
        ensures { OnOk result (self.new.bytes ≡ self.old.bytes ++ share_text share.now) }
    {
        self.make_room(MOST_SHARE_BYTES)?;
        self.put(b"share ");
        self.put(share.word.as_str().as_bytes());
        self.put_named(b" ", share.taken.charge);
        self.put_wide(b" ", share.taken.cost);
        self.put(b"\n");
        Ok(())
    }

    /// Adds how many words there are, the unit and the budget, and the cost of all. It takes memory where
    /// there is no room. Constant cost but for that.
    fn put_budget(&mut self, sharing: &Sharing) -> Result<(), AllocError>
        ensures { OnOk result (self.new.bytes ≡ self.old.bytes ++ budget_text (length sharing.now.shares.items) sharing.now.unit
            sharing.now.budget sharing.now.cost) }
    {
        self.make_room(REPLY_ROOM)?;
        self.put_named(b"end ", sharing.shares.len() as u64);
        self.put_wide(b" unit ", sharing.unit);
        self.put_named(b" budget ", sharing.budget);
        self.put_wide(b" cost ", sharing.cost);
        self.put(b"\n");
        Ok(())
    }
}
