//! What a disk held at first, and what each call changed since.
ghost use Rattle.std.specs.Prelude.{◌≡◌, ℕ, ◌+◌, ◌-◌, ◌^◌, ◌<◌, ◌≤◌, [], ◌++◌, min, length, All, IfOk, OnOk, OnErr};
ghost use Rattle.machine_mem.specs.Moments.{along};
ghost use Rattle.machine_mem.specs.Differences.{holding_of, first_of, played, played_all, snapshot_at, piece_of, moments_of};

use crate::difference::{Difference, Recorded};
use crate::holdings::Holdings;
use machine_model::Image;
use std::alloc::{AllocError, Global};

/// The most calls that a history can count.
pub const MOST_CALLS: u64 = u64::MAX - 1;

/// What a disk held at first and holds now, and the calls that may have changed it or shown bytes.
#[derive(Drop)]
pub struct History {
    /// The disk at first, just synced. Nothing was shown.
    pub first: Image,
    /// What the disk holds now, and what was shown.
    pub current: Holdings,
    /// What the calls that found memory changed, the first first.
    pub differences: Vec<Recorded>,
    /// The number of calls.
    pub calls: u64,
    ghost journal_limit: { length first.journal.items ≤ 2 ^ 40 },
    ghost pages_limit: { length first.pages.items ≤ 2 ^ 40 },
    ghost plays: { played_all (first_of first) differences.items ≡ holding_of current },
    ghost numbered: { All (λ recorded. recorded.until < calls) differences.items },
    ghost limit: { calls ≤ 2 ^ 64 - 2 },
}

impl History {
    /// No call yet. Cost: three copies of the image.
    pub fn new(alloc: Global, first: Image) -> Result<History, AllocError>
        requires journal { length first.journal.items ≤ 2 ^ 40 }
        requires pages { length first.pages.items ≤ 2 ^ 40 }
        ensures current { IfOk result (λ h. holding_of h.current ≡ first_of first) }
        ensures differences { IfOk result (λ h. h.differences.items ≡ []) }
        ensures calls { IfOk result (λ h. h.calls ≡ 0) }
    {
        let current = Holdings::new(alloc, &first)?;
        Ok(History {
            first,
            current,
            differences: Vec::new(alloc),
            calls: 0,
        })
    }

    /// Records a call that changes this. Without memory nothing changes. Cost: a copy of what the disk
    /// holds and of the bytes shown, of which the differences alone stay.
    pub fn record(&mut self, alloc: Global, difference: Difference) -> Result<(), AllocError>
        ensures current { OnOk result (holding_of self.new.current ≡ played difference (holding_of self.old.current)) }
        ensures past { OnOk result
            (moments_of (first_of self.new.first) self.new.differences.items
            ≡ moments_of (first_of self.old.first) self.old.differences.items
            ++ along (holding_of self.old.current).snapshot.moment (piece_of difference)) }
        ensures before { OnOk result ((n : ℕ) → n ≤ self.old.calls
            → snapshot_at n (first_of self.new.first) self.new.differences.items
            ≡ snapshot_at n (first_of self.old.first) self.old.differences.items) }
        ensures calls { OnOk result (self.new.calls ≡ self.old.calls + 1) }
        ensures same { OnErr result ((self.new.first ≡ self.old.first) × (self.new.current ≡ self.old.current)) }
        ensures err { OnErr result ((self.new.differences.items ≡ self.old.differences.items) × (self.new.calls ≡ self.old.calls)) }
    {
        if self.calls == MOST_CALLS {
            return Err(AllocError);
        }
        let next = self.current.after(alloc, &difference)?;
        let until = self.calls;
        self.differences.push(Recorded { difference, until })?;
        self.calls += 1;
        self.current = next;
        Ok(())
    }

    /// Counts a call that changed nothing.
    pub fn skip(&mut self)
        ensures first { self.new.first ≡ self.old.first }
        ensures current { self.new.current ≡ self.old.current }
        ensures differences { self.new.differences ≡ self.old.differences }
        ensures calls { self.new.calls ≡ min (self.old.calls + 1) (2 ^ 64 - 2) }
    {
        if self.calls < MOST_CALLS {
            self.calls += 1;
        }
    }

    /// What the disk held after so many calls, and what was shown then: the differences of these, played
    /// over the disk at first. Cost: their number, with a copy of what the disk held for each.
    pub fn at(&self, alloc: Global, calls: u64) -> Result<Holdings, AllocError>
        ensures { IfOk result (λ x. (holding_of x).snapshot ≡ snapshot_at calls (first_of self.now.first) self.now.differences.items) }
    {
        let mut then = Holdings::new(alloc, &self.first)?;
        for recorded in &self.differences {
            if calls <= recorded.until {
                return Ok(then);
            }
            then = then.after(alloc, &recorded.difference)?;
        }
        Ok(then)
    }
}
