//! Where bytes come from.
ghost use Rattle.std.specs.Prelude.{◌≡◌, ◌≤◌, ◌++◌, [], ◌∷◌, ℕ, List, length, take, IfOk, OnErr};
ghost use Rattle.machine_model.specs.States.{SourceState};
ghost use Rattle.machine_model.specs.Causes.{HasCause};
ghost use Rattle.machine_model.specs.Laws.{SourceLaws};

use crate::Failed;

/// A stream of bytes that come in, as standard input.
pub trait Source {
    /// Whether the source tells what it has left: then clauses on content hold.
    ghost source_tells: { Type 0 };

    /// The bytes left and the count of faults.
    ghost source: { Self → SourceState };

    /// The source came from the first state to the second by calls of this trait alone.
    ghost only: { Self → Self → Type 0 };

    /// The source came from the first state to the second by pulls, before each of which these bytes
    /// were left, the first first.
    ghost pulled: { Self → List (List ℕ) → Self → Type 0 };

    /// Takes the next bytes into the front of `buf`, and answers how many. With an empty buffer it
    /// answers 0; with another one, 0 is the end of the input. `Failed` takes nothing.
    fn pull(&mut self, buf: &mut [u8]) -> Result<usize, Failed>
        ensures only { only self.old self.new }
        ensures pulled { pulled self.old ((source self.old).left ∷ []) self.new }
        ensures cause { HasCause (source self.old).faults (source self.new).faults result }
        ensures count { IfOk result (λ n. n ≤ length buf.new) }
        ensures bytes { source_tells → IfOk result (λ n. (source self.old).left ≡ take n buf.new ++ (source self.new).left) }
        // 0 is the end of the input
        ensures end { source_tells → IfOk result (λ n. n ≡ 0 → 1 ≤ length buf.new → (source self.old).left ≡ []) }
        ensures failed { source_tells → OnErr result ((source self.new).left ≡ (source self.old).left) };

    /// The laws of these.
    ghost laws: { SourceLaws source only pulled };
}
