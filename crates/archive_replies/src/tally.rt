//! The lines of a sample that was carried out.
ghost use Rattle.std.specs.Prelude.{◌≡◌, ◌+◌, ◌≤◌, ◌++◌, OnOk};
ghost use Rattle.archive_replies.specs.Tallies.{sample_text, tally_text};

use crate::page::ReplyPage;
use model_archive::Verdict;
use std::alloc::AllocError;

/// The most bytes of both lines: five names and five numbers, and the line of a verdict.
const MOST_LINES_BYTES: usize = 480;

/// What came of a sample's commands.
#[derive(Clone, Copy, Debug, PartialEq, Eq)]
pub struct Tally {
    /// How many changes and plans were accepted.
    pub accepted: u64,
    /// How many were refused.
    pub refused: u64,
    /// How many rows the questions found.
    pub hits: u64,
    /// How many postings were read for them.
    pub read: u64,
}

impl ReplyPage {
    /// Writes what came of a sample with so many changes, and what its check told, in place of what the
    /// page held. It takes memory where what was written before was shorter; an error means that there
    /// was none, and leaves the page empty. The cost is linear in the verdict's word.
    pub fn generated(
        &mut self,
        changes: u32,
        tally: &Tally,
        verdict: &Verdict,
    ) -> Result<(), AllocError>
        ensures { OnOk result (self.new.bytes ≡ sample_text changes tally.now verdict.now) }
    {
        self.clear();
        self.make_room(MOST_LINES_BYTES)?;
        self.put_tally(changes, tally);
        self.put_verdict(verdict);
        self.put(b"\n");
        Ok(())
    }

    /// Adds the line of the counts. It takes no memory. Constant cost.
    fn put_tally(&mut self, changes: u32, tally: &Tally)
        requires { 160 ≤ self.old.room }
        ensures bytes { self.new.bytes ≡ self.old.bytes ++ tally_text changes tally.now }
        ensures room { self.old.room ≤ self.new.room + 160 }
    {
        self.put_named(b"generated ", u64::from(changes));
        self.put_named(b" accepted ", tally.accepted);
        self.put_named(b" refused ", tally.refused);
        self.put_named(b" hits ", tally.hits);
        self.put_named(b" read ", tally.read);
        self.put(b"\n");
    }
}
