//! Times, and the spans between two of them.
ghost use Rattle.std.specs.Prelude.{◌≡◌, ◌<◌, ◌≤◌, ◌^◌, ◌↔◌, ◌&&◌, nat_lt, IsTrue, IsSome, IfSome};

/// The end of time: greater than every time, and the end of each span that is still open.
pub const NOW: u64 = 1 << 40;

/// A point in time: whole seconds since 1970-01-01 00:00 UTC, below 2^40 (the year 36812).
#[derive(Clone, Copy, Debug, PartialEq, Eq, PartialOrd, Ord, Hash)]
pub struct Time {
    /// Seconds since 1970-01-01 00:00 UTC.
    pub seconds: u64,
    pub ghost before_now: { seconds < 2 ^ 40 },
}

impl Time {
    /// The time of so many seconds since 1970-01-01 00:00 UTC; None from `NOW` on. Constant cost.
    pub fn new(seconds: u64) -> Option<Time>
        ensures valid { IsSome result ↔ (seconds < 2 ^ 40) }
        ensures value { IfSome result (λ t. t.seconds ≡ seconds) }
    {
        if seconds < NOW {
            Some(Time { seconds })
        } else {
            None
        }
    }

    /// The seconds since 1970-01-01 00:00 UTC. Constant cost.
    pub fn seconds(self) -> u64
        ensures value { result ≡ self.seconds }
        ensures before_now { result < 2 ^ 40 }
    {
        self.seconds
    }
}

/// The times `from <= t < to`, in seconds; never empty. A span that is still open ends at `NOW`.
#[derive(Clone, Copy, Debug, PartialEq, Eq, PartialOrd, Ord, Hash)]
pub struct Span {
    /// The first time that the span holds.
    pub from: u64,
    /// The first number behind the span, at most `NOW`.
    pub to: u64,
    pub ghost ordered: { from < to },
    pub ghost in_time: { to ≤ 2 ^ 40 },
}

impl Span {
    /// The span `[from, to)`; None where it would be empty or end behind `NOW`. Constant cost.
    pub fn new(from: u64, to: u64) -> Option<Span>
        ensures valid { IsSome result ↔ ((from < to) × (to ≤ 2 ^ 40)) }
        ensures value { IfSome result (λ s. (s.from ≡ from) × (s.to ≡ to)) }
    {
        if from < to && to <= NOW {
            Some(Span { from, to })
        } else {
            None
        }
    }

    /// Whether it holds a time from the first on and before the other, in seconds. Constant cost.
    pub fn meets(self, from: u64, to: u64) -> bool
        ensures { result ≡ (nat_lt self.from to && nat_lt from self.to) }
    {
        self.from < to && from < self.to
    }

    /// Whether the span holds the time: its start it does, its end it doesn't. Constant cost.
    pub fn holds(self, t: Time) -> bool
        ensures { IsTrue result ↔ ((self.from ≤ t.seconds) × (t.seconds < self.to)) }
    {
        self.from <= t.seconds && t.seconds < self.to
    }
}
