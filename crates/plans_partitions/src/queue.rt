//! The queue of entries, each of a place where the least value stands of the window from behind the
//! entry before.
ghost use Rattle.std.specs.Prelude.{◌≡◌, ◌↔◌, ℕ, ◌≤◌, IsTrue};
ghost use Rattle.std.specs.VecDeque.{deque_len, deque_capacity};
ghost use Rattle.plans_partitions.specs.Windows.{IsQueue, IsFront, StartsBefore, EndsBelow};

use std::collections::VecDeque;

/// Whether the last entry's value, where there is one, is less than `value`.
fn ends_below(queue: &VecDeque<(usize, u128)>, value: u128) -> bool
    ensures { IsTrue result ↔ EndsBelow value queue.now.items }
{
    match queue.back() {
        Some(&(_, last)) => last < value,
        None => true,
    }
}

/// Lets the last entries go whose values aren't less than `value`.
pub(crate) fn leave_from(queue: &mut VecDeque<(usize, u128)>, value: u128)
    ensures front { (f : ℕ → ℕ) (from next : ℕ) → IsQueue f from next queue.old.items → IsFront f value from next queue.new.items }
    ensures less { EndsBelow value queue.new.items }
    ensures length { deque_len queue.new ≤ deque_len queue.old }
    ensures capacity { deque_capacity queue.new ≡ deque_capacity queue.old }
{
    while !ends_below(queue, value) {
        queue.pop_back();
    }
}

/// Whether there is a first entry, and it stands before `place`.
fn starts_before(queue: &VecDeque<(usize, u128)>, place: usize) -> bool
    ensures { IsTrue result ↔ StartsBefore place queue.now.items }
{
    match queue.front() {
        Some(&(first, _)) => first < place,
        None => false,
    }
}

/// Lets the first entries go that stand before `place`.
pub(crate) fn leave_before(queue: &mut VecDeque<(usize, u128)>, place: usize)
    ensures { (f : ℕ → ℕ) (from next : ℕ) → from ≤ place → place ≤ next → IsQueue f from next queue.old.items
        → IsQueue f place next queue.new.items }
{
    while starts_before(queue, place) {
        queue.pop_front();
    }
}
