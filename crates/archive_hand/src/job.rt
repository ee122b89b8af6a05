//! A plan that is being written, in hand.
use archive_plans::Ready;
use model_archive::{Refusal, Summary};

/// How many pages are written in one stint.
pub const STINT_PAGES: u64 = 8;

/// A plan whose sublists are written some pages at a time.
#[derive(Drop)]
pub struct Job {
    /// The plan with its sublists and its entry. The gate, and how many entries there are with it, are as
    /// they were when it was begun.
    pub ready: Ready,
    /// How many pages its sublists have.
    pub pages: u64,
    /// How many of them are written.
    pub written: u64,
}

/// What is told of a plan that was begun.
#[derive(Clone, Copy, Debug, PartialEq, Eq)]
pub struct Begun {
    /// How many segments it has.
    pub segments: u64,
    /// How many pages they take.
    pub pages: u64,
}

/// What a stint of the work on a plan came to.
#[derive(Clone, Copy, Debug, PartialEq, Eq)]
pub enum Stint {
    /// It left so many pages to be written.
    Wrote {
        /// How many.
        left: u64,
    },
    /// The plan is stored.
    Done(Summary),
    /// The journal has no room for its entry; its pages are free again.
    Dropped(Refusal),
}
