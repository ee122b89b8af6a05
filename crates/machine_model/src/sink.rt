//! Where bytes are shown.
ghost use Rattle.std.specs.Prelude.{◌≡◌, ◌≤◌, ◌^◌, ◌-◌, ◌++◌, ℕ, List, length, take, IfOk, Result};
ghost use Rattle.machine_model.specs.States.{SinkState};
ghost use Rattle.machine_model.specs.Causes.{HasCause};
ghost use Rattle.machine_model.specs.Pushes.{taken};

use crate::Failed;

/// A stream of bytes that go out, as standard output.
pub trait Sink {
    ghost use Rattle.machine_model.specs.declared.area.Failed.{Failed};

    /// Whether the sink tells what it has shown: then clauses on content hold.
    ghost sink_tells: { Type 0 };

    /// The bytes shown and the count of faults.
    ghost sink: { Self → SinkState };

    /// The sink came from the first state to the second by calls of this trait alone.
    ghost only: { Self → Self → Type 0 };

    /// One push of a piece, with its answer, led from the first state to the second.
    ghost pushed: { Self → List ℕ → Result ℕ Failed → Self → Type 0 };

    /// Shows the front of a piece, and answers how many bytes: of a piece that isn't empty at least
    /// one. `Failed` takes nothing.
    fn push(&mut self, bytes: &[u8]) -> Result<usize, Failed>
        ensures only { only self.old self.new }
        ensures pushed { pushed self.old bytes.now result self.new }
        ensures cause { HasCause (sink self.old).faults (sink self.new).faults result }
        ensures count { IfOk result (λ n. n ≤ length bytes.now) }
        ensures some { IfOk result (λ n. 1 ≤ length bytes.now → 1 ≤ n) }
        ensures shown { sink_tells → (sink self.new).shown ≡ (sink self.old).shown ++ take (taken result) bytes.now };

    ghost only_same: { (x : Self) → only x x };

    ghost only_joins: { (x y z : Self) → only x y → only y z → only x z };

    ghost only_faults: { (x y : Self) → only x y → (sink x).faults ≤ (sink y).faults };
    // the count is that of a real machine's counter
    ghost faults_limit: { (x : Self) → (sink x).faults ≤ 2 ^ 64 - 1 };
}
