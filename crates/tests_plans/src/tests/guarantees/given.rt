//! Documents, partitions and numbers for the tests.
ghost use Rattle.std.specs.Prelude.{◌<◌};

use crate::tests::given::Alike;
use plans_partitions::Partition;
use std::alloc::Global;
use std::process::Abort;

/// Five documents of which the longest segment first takes 7 postings at 2/1, where 5 do.
pub(crate) const FIVE: &[Alike] = &[(2, 10, 20), (2, 20, 50), (1, 30, 50)];

/// The partition with these cuts.
pub(crate) fn cut_at(rt: &impl Abort, alloc: Global, cuts: &[u64]) -> Partition {
    Partition::new(cuts.to_vec(alloc).expect(rt, "memory")).expect(rt, "a partition")
}

/// Numbers that look random: a linear congruential generator, with Knuth's multiplier for 64 bits.
#[derive(Drop)]
pub(crate) struct Numbers(pub(crate) u64);

impl Numbers {
    /// The next number below `end`.
    pub(crate) fn below(&mut self, end: u64) -> u64
        requires { 0 < end }
        ensures { result < end }
    {
        self.0 = self
            .0
            .wrapping_mul(6364136223846793005)
            .wrapping_add(1442695040888963407);
        (self.0 >> 33) % end
    }
}
