//! How often the calls of one trait failed.
ghost use Rattle.std.specs.Prelude.{◌≡◌, ◌+◌, ◌-◌, ◌^◌, ◌≤◌, min};

/// A count of failed calls. At 2^64 - 1 it stays.
#[derive(Debug, Drop)]
pub(crate) struct FaultCount {
    pub(crate) value: u64,
    ghost limit: { value ≤ 2 ^ 64 - 1 },
}

impl FaultCount {
    /// No call has failed.
    pub(crate) fn new() -> FaultCount
        ensures { result.value ≡ 0 }
    {
        FaultCount { value: 0 }
    }

    /// One more call failed.
    pub(crate) fn rise(&mut self)
        ensures { self.new.value ≡ min (self.old.value + 1) (2 ^ 64 - 1) }
    {
        self.value = self.value.saturating_add(1);
    }
}
