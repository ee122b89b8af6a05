//! Windows over lists of values.
ghost use Rattle.std.specs.Prelude.{◌≡◌, ℕ, ◌+◌, ◌<◌, ◌≤◌, IfOk, IfErr};
ghost use Rattle.plans_partitions.specs.Windows.{IsLeastIn, IsOver};

use crate::queue::{leave_before, leave_from};
use std::alloc::{AllocError, Global};
use std::collections::VecDeque;
use std::marker::Model;

/// A window over the values that were added, from one of their places to the end. Holds a queue alone:
/// 32 bytes for each place that it has room for, and never more places than the window has.
#[derive(Debug, Drop)]
pub struct WindowMin {
    next: usize,
    from: usize,
    queue: VecDeque<(usize, u128)>,
}

impl Model for WindowMin {
    ghost use Rattle.plans_partitions.specs.Windows.{Window, IsWindow};

    ghost Value = { Window };

    ghost view = { λ w. record { next = w.next; from = w.from; queue = w.queue.items } };

    ghost invariant = { λ w. IsWindow (record { next = w.next; from = w.from; queue = w.queue.items }) };
}

impl WindowMin {
    /// The window that starts at place 0 of no values. Constant cost, and no memory.
    pub fn new(alloc: Global) -> WindowMin
        ensures next { result.next ≡ 0 }
        ensures from { result.from ≡ 0 }
        ensures over { (f : ℕ → ℕ) → IsOver f result }
    {
        WindowMin {
            next: 0,
            from: 0,
            queue: VecDeque::new(alloc),
        }
    }

    /// The place where the window starts. Constant cost.
    pub fn from(&self) -> usize
        ensures { result ≡ self.now.from }
    {
        self.from
    }

    /// Adds a value at the end. Costs memory where the queue has no room for one more place, and time in
    /// the queued places whose values aren't less, each of which leaves the queue for good. Without
    /// memory, or a number for the place behind, the window stays.
    pub fn push(&mut self, value: u128) -> Result<(), AllocError>
        ensures next { IfOk result (λ _. self.new.next ≡ self.old.next + 1) }
        ensures from { IfOk result (λ _. self.new.from ≡ self.old.from) }
        ensures over { IfOk result (λ _. (f : ℕ → ℕ) → value ≡ f self.old.next → IsOver f self.old → IsOver f self.new) }
        ensures kept { IfErr result (λ _. self.new ≡ self.old) }
    {
        let Some(next) = self.next.checked_add(1) else {
            return Err(AllocError);
        };
        self.queue.reserve(1)?;
        leave_from(&mut self.queue, value);
        self.queue.push_back((self.next, value))?;
        self.next = next;
        Ok(())
    }

    /// Moves the start on to a place, at most to the end. Costs time in the queued places before it,
    /// which leave the queue for good.
    pub fn start_at(&mut self, place: usize)
        requires on { self.old.from ≤ place }
        requires inside { place ≤ self.old.next }
        ensures next { self.new.next ≡ self.old.next }
        ensures from { self.new.from ≡ place }
        ensures over { (f : ℕ → ℕ) → IsOver f self.old → IsOver f self.new }
    {
        leave_before(&mut self.queue, place);
        self.from = place;
    }

    /// A place where the least value of the window stands. Constant cost.
    pub fn least_place(&self) -> usize
        requires { self.now.from < self.now.next }
        ensures { (f : ℕ → ℕ) → IsOver f self.now → IsLeastIn f self.now.from self.now.next result }
    {
        self.queue[0].0
    }
}
