//! A sum of any size.
ghost use Rattle.std.specs.Prelude.{◌≡◌, ◌+◌, ◌-◌, ◌^◌, sum, min, OnOk, OnErr};

use std::alloc::{AllocError, Global};

/// A sum of any size, kept as numbers that add up to it.
#[derive(Drop)]
pub struct Tally {
    /// The numbers.
    pub parts: Vec<u64>,
}

impl Tally {
    /// The sum 0. Takes no memory.
    pub fn new(alloc: Global) -> Tally
        ensures { sum result.parts.items ≡ 0 }
    {
        Tally {
            parts: Vec::new(alloc),
        }
    }

    /// Adds a number. Without memory nothing changes; it takes some at the first call, and where the sum passes a power 2^64.
    pub fn add(&mut self, number: u64) -> Result<(), AllocError>
        ensures ok { OnOk result (sum self.new.parts.items ≡ sum self.old.parts.items + number) }
        ensures err { OnErr result (self.new.parts.items ≡ self.old.parts.items) }
    {
        let last = self.parts.len();
        if last > 0 && self.parts[last - 1] <= u64::MAX - number {
            self.parts[last - 1] += number;
            return Ok(());
        }
        self.parts.push(number)?;
        Ok(())
    }

    /// The sum, or 2^64 - 1 where it is above.
    pub fn capped(&self) -> u64
        ensures { result ≡ min (sum self.now.parts.items) (2 ^ 64 - 1) }
    {
        let mut total = 0u64;
        for part in &self.parts {
            total = total.saturating_add(*part);
        }
        total
    }
}
