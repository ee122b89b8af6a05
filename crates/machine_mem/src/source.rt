//! The machine in memory as a source.
use crate::MemMachine;
use crate::faults::CallKind;
use machine_model::{Failed, Source};

impl Source for MemMachine {
    ghost use Rattle.std.specs.Prelude.{◌≡◌, ℕ, ◌≤◌, ◌++◌, [], ◌∷◌, min, length, take, IfOk, OnErr, IsErr};
    ghost use Rattle.machine_model.specs.Causes.{HasCause};
    ghost use Rattle.machine_mem.specs.Machines.{OnlySource, pulled, failed_source};
    ghost use Rattle.machine_model.specs.Pulls.{ArePulls};
    ghost use Rattle.machine_model.proofs.PullLemmas.{source_laws};
    ghost use Rattle.machine_mem.specs.MachineLaws.{OnlySource-same, OnlySource-joins};
    ghost use Rattle.machine_mem.specs.Calls.{IsDue, called, script_of, Serves, Stays};
    ghost use Rattle.machine_mem.specs.Meaning.{meaning, source_state};

    ghost source_tells = { Unit {0} };

    ghost source = { source_state };

    ghost only = { λ x y. OnlySource (meaning x) (meaning y) };

    ghost pulled = { λ x lefts y. ArePulls (λ m. m.source.left) OnlySource (meaning x) lefts (meaning y) };

    ghost laws = { source_laws meaning (λ m. m.source) OnlySource OnlySource-same OnlySource-joins (λ x y one. one.faults)
        (λ x. x.source_faults.small) };

    fn pull(&mut self, buf: &mut [u8]) -> Result<usize, Failed>
        ensures only { OnlySource (meaning self.old) (meaning self.new) }
        ensures pulled { ArePulls (λ m. m.source.left) OnlySource (meaning self.old) ((source_state self.old).left ∷ [])
            (meaning self.new) }
        ensures cause { HasCause (source_state self.old).faults (source_state self.new).faults result }
        ensures count { IfOk result (λ n. n ≤ length buf.new) }
        ensures bytes { IfOk result (λ n. (source_state self.old).left ≡ take n buf.new ++ (source_state self.new).left) }
        ensures end { IfOk result (λ n. n ≡ 0 → 1 ≤ length buf.new → (source_state self.old).left ≡ []) }
        ensures failed { OnErr result ((source_state self.new).left ≡ (source_state self.old).left) }

        // exactly; as many bytes as there are and as fit into the buffer, up to the limit
        ensures done { IfOk result
            (λ n. (n ≡ min (min (length buf.old) (meaning self.old).pull_limit) (length (source_state self.old).left))
            × Serves (pulled n) self.old self.new) }
        ensures why { OnErr result (((landed : ℕ) × IsDue self.old CallKind.Pull landed) × Serves failed_source self.old self.new) }
        ensures named { (landed : ℕ) → IsDue self.old CallKind.Pull landed → IsErr result }
        ensures counted { script_of self.new ≡ called CallKind.Pull (script_of self.old) }
        ensures stays { Stays self.old self.new }
    {
        if self.script.due(CallKind::Pull).is_some() {
            return Err(self.source_faults.fails());
        }
        Ok(self.input.pull(buf))
    }
}
