//! A source over bytes that lie in memory.
ghost use Rattle.std.specs.Prelude.{◌≡◌};
ghost use Rattle.machine_model.specs.Pulls.{ArePulls};
ghost use Rattle.machine_model.proofs.PullLemmas.{source_laws};
ghost use Rattle.std.proofs.Common.{lit≤};
ghost use Rattle.machine_mem.specs.Slices.{slice_state};

use crate::input::fill;
use machine_model::{Failed, Source};

/// A source over bytes that lie in memory. It tells them, and it never fails.
#[derive(Debug, Drop)]
pub struct SliceSource<'a> {
    left: &'a [u8],
}

impl<'a> SliceSource<'a> {
    /// All of the bytes are left.
    pub fn new(bytes: &'a [u8]) -> SliceSource<'a>
        ensures { slice_state result ≡ record { left = bytes.now; faults = 0 } }
    {
        SliceSource { left: bytes }
    }
}

impl<'a> Source for SliceSource<'a> {
    ghost source_tells = { Unit {0} };

    ghost source = { slice_state };

    ghost only = { λ x y. Unit {0} };

    ghost pulled = { λ x lefts y. ArePulls (λ left. left) (λ s t. Unit {0}) (slice_state x).left lefts (slice_state y).left };

    ghost laws = { source_laws (λ x. (slice_state x).left) (λ left. record { left = left; faults = 0 }) (λ s t. Unit {0}) (λ s. tt)
        (λ s t u one two. tt) (λ s t one. lit≤ tt) (λ x. lit≤ tt) };

    fn pull(&mut self, buf: &mut [u8]) -> Result<usize, Failed> {
        let count = fill(buf, self.left);
        self.left = &self.left[count..];
        Ok(count)
    }
}
