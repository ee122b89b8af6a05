//! Which calls of a machine in memory fail.
ghost use Rattle.std.specs.Prelude.{◌≡◌, ◌↔◌, IsTrue, IfSome, IfNone};
ghost use Rattle.machine_mem.specs.Faults.{count_of, next_count, next_of, counts_with, Names, IsNamed, IsSpared};

use std::alloc::Global;

/// A kind of call of a machine.
#[derive(Clone, Copy, Debug, PartialEq, Eq)]
pub enum CallKind {
    /// The disk's `length`.
    Length,
    /// The disk's `read`.
    Read,
    /// The disk's `write`.
    Write,
    /// The disk's `sync`.
    Sync,
    /// The source's `pull`.
    Pull,
    /// The sink's `push`.
    Push,
}

/// A call that is to fail: the `nth` of its kind, counted from 1. Of two that name one call the
/// first counts.
#[derive(Clone, Copy, Debug, PartialEq, Eq)]
pub struct Fault {
    /// The kind of call.
    pub call: CallKind,
    /// Which of that kind.
    pub nth: u64,
    /// How many bytes of a failing write land nonetheless, at most the piece: reads give what
    /// a write of that front leaves, a gap of zeros before it too. No other kind looks at it.
    pub landed: u64,
}

impl Fault {
    /// Whether it names this call.
    fn is_for(&self, kind: CallKind, nth: u64) -> bool
        ensures { IsTrue result ↔ Names self.now kind nth }
    {
        self.call == kind && self.nth == nth
    }
}

/// How many calls of each kind there were, or 2^64 - 1 where there were more.
#[derive(Debug, Drop)]
pub struct Counts {
    pub lengths: u64,
    pub reads: u64,
    pub writes: u64,
    pub syncs: u64,
    pub pulls: u64,
    pub pushes: u64,
}

impl Counts {
    /// No call yet.
    pub fn new() -> Counts
        ensures { (kind : _) → count_of result kind ≡ 0 }
    {
        Counts {
            lengths: 0,
            reads: 0,
            writes: 0,
            syncs: 0,
            pulls: 0,
            pushes: 0,
        }
    }

    /// Counts one call more of a kind, and answers which it is.
    pub fn raise(&mut self, kind: CallKind) -> u64
        ensures number { result ≡ next_of self.old kind }
        ensures counts { self.new ≡ counts_with self.old kind (next_of self.old kind) }
    {
        match kind {
            CallKind::Length => raised(&mut self.lengths),
            CallKind::Read => raised(&mut self.reads),
            CallKind::Write => raised(&mut self.writes),
            CallKind::Sync => raised(&mut self.syncs),
            CallKind::Pull => raised(&mut self.pulls),
            CallKind::Push => raised(&mut self.pushes),
        }
    }
}

/// Counts one call more, up to 2^64 - 1, and answers which it is.
fn raised(count: &mut u64) -> u64
    ensures value { result ≡ next_count count.old }
    ensures kept { count.new ≡ result }
{
    *count = count.saturating_add(1);
    *count
}

/// The calls that are to fail, and the calls so far.
#[derive(Drop)]
pub struct Script {
    pub faults: Vec<Fault>,
    pub counts: Counts,
}

impl Script {
    /// Counts one call more of a kind. `Some` where it is to fail: how many bytes of a write land.
    /// Cost: the number of faults.
    pub fn due(&mut self, kind: CallKind) -> Option<u64>
        ensures faults { self.new.faults ≡ self.old.faults }
        ensures counts { self.new.counts ≡ counts_with self.old.counts kind (next_of self.old.counts kind) }
        ensures named { IfSome result (λ landed. IsNamed self.old.faults.items kind (next_of self.old.counts kind) landed) }
        ensures spared { IfNone result (IsSpared self.old.faults.items kind (next_of self.old.counts kind)) }
    {
        let nth = self.counts.raise(kind);
        for fault in &self.faults {
            if fault.is_for(kind, nth) {
                return Some(fault.landed);
            }
        }
        None
    }
}
