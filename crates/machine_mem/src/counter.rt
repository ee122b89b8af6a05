//! A count that can't pass its last value.
ghost use Rattle.std.specs.Prelude.{◌≡◌, ◌+◌, ◌-◌, ◌^◌, ◌≤◌, min};

use machine_model::Failed;

/// A count that stays at 2^64 - 1 once it is there.
#[derive(Debug, Drop)]
pub struct Counter {
    /// The count.
    pub value: u64,
    ghost small: { value ≤ 2 ^ 64 - 1 },
}

impl Counter {
    /// The count 0.
    pub fn new() -> Counter
        ensures { result.value ≡ 0 }
    {
        Counter { value: 0 }
    }

    /// One more.
    pub fn rise(&mut self)
        ensures { self.new.value ≡ min (self.old.value + 1) (2 ^ 64 - 1) }
    {
        self.value = self.value.saturating_add(1);
    }

    /// One more, for a call that fails.
    pub(crate) fn fails(&mut self) -> Failed
        ensures { self.new.value ≡ min (self.old.value + 1) (2 ^ 64 - 1) }
    {
        self.rise();
        Failed
    }
}
