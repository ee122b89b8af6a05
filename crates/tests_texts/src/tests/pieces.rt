//! A source of scripts in pieces.
ghost use Rattle.std.specs.Prelude.{◌^◌, ◌<◌};

use machine_model::{Failed, Source};

/// A source that gives its bytes in pieces, and of whose pulls some fail.
#[derive(Drop)]
pub(crate) struct Pieces<'a> {
    rest: &'a [u8],
    /// How many bytes a pull gives.
    piece: usize,
    /// Whether the next pull fails.
    fails: bool,
    /// Whether a pull fails behind each that gives something.
    halts: bool,
    faults: u64,
    ghost counted: { faults < 2 ^ 64 },
}

/// A source whose first pull fails.
pub(crate) fn failing_first(script: &[u8], piece: usize) -> Pieces<'_> {
    Pieces {
        rest: script,
        piece,
        fails: true,
        halts: false,
        faults: 0,
    }
}

/// A source whose every second pull fails.
pub(crate) fn halting(script: &[u8], piece: usize) -> Pieces<'_> {
    Pieces {
        rest: script,
        piece,
        fails: false,
        halts: true,
        faults: 0,
    }
}

impl Source for Pieces<'_> {
    ghost use Rattle.std.specs.Prelude.{[], ◌≤◌, ℕ};
    ghost use Rattle.std.proofs.Common.{arith};
    ghost use Rattle.machine_model.specs.Pulls.{ArePulls};
    ghost use Rattle.machine_model.proofs.PullLemmas.{source_laws};

    ghost source_tells = { ⊥ };

    ghost source = { λ s. record { left = []; faults = s.faults } };

    ghost only = { λ x y. x.faults ≤ y.faults };

    ghost pulled = { λ x lefts y. ArePulls (λ (faults : ℕ). []) (λ m n. m ≤ n) x.faults lefts y.faults };

    ghost laws = { source_laws (λ x. x.faults) (λ n. record { left = []; faults = n }) (λ m n. m ≤ n) (λ n. Prim.omega arith)
        (λ m n k one two. Prim.omega (arith, one, two)) (λ m n one. one) (λ x. Prim.omega (arith, x.counted)) };

    fn pull(&mut self, buf: &mut [u8]) -> Result<usize, Failed> {
        if self.fails {
            self.fails = false;
            self.faults = self.faults.saturating_add(1);
            return Err(Failed);
        }
        self.fails = self.halts;
        let n = self.piece.min(buf.len()).min(self.rest.len());
        buf[..n].copy_from_slice(&self.rest[..n]);
        self.rest = &self.rest[n..];
        Ok(n)
    }
}
