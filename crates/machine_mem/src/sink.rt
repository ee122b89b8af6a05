//! The machine in memory as a sink.
use crate::MemMachine;
use crate::faults::CallKind;
use machine_model::{Failed, Sink};

impl Sink for MemMachine {
    ghost use Rattle.std.specs.Prelude.{◌≡◌, ◌⊎◌, ℕ, ◌≤◌, ◌++◌, length, take, refl, IfOk, OnErr, IsErr};
    ghost use Rattle.machine_model.specs.Causes.{HasCause};
    ghost use Rattle.machine_model.specs.Pushes.{taken};
    ghost use Rattle.machine_mem.specs.Machines.{OnlySink, Pushed, showed, passed, failed_sink};
    ghost use Rattle.machine_mem.specs.MachineLaws.{OnlySink-same, OnlySink-joins};
    ghost use Rattle.machine_mem.specs.Calls.{IsDue, called, script_of, Serves, Starves, Remembers};
    ghost use Rattle.machine_mem.specs.Meaning.{meaning, sink_state};

    ghost sink_tells = { Unit {0} };

    ghost sink = { sink_state };

    ghost only = { λ x y. OnlySink (meaning x) (meaning y) };

    ghost pushed = { λ x piece answer y. Pushed (meaning x) piece answer (meaning y) };

    ghost only_same = { λ x. OnlySink-same (meaning x) refl };

    ghost only_joins = { λ x y z one two. OnlySink-joins (meaning x) (meaning y) (meaning z) one two };

    ghost only_faults = { λ x y one. one.faults };

    ghost faults_limit = { λ x. x.sink_faults.small };

    fn push(&mut self, bytes: &[u8]) -> Result<usize, Failed>
        ensures only { OnlySink (meaning self.old) (meaning self.new) }
        ensures pushed { Pushed (meaning self.old) bytes.now result (meaning self.new) }
        ensures cause { HasCause (sink_state self.old).faults (sink_state self.new).faults result }
        ensures count { IfOk result (λ n. n ≤ length bytes.now) }
        ensures some { IfOk result (λ n. 1 ≤ length bytes.now → 1 ≤ n) }
        ensures shown { (sink_state self.new).shown ≡ (sink_state self.old).shown ++ take (taken result) bytes.now }

        // exactly; a piece is taken whole
        ensures done { IfOk result (λ n. (n ≡ length bytes.now) × Serves (showed bytes.now) self.old self.new) }
        ensures why { OnErr result
            ((((landed : ℕ) × IsDue self.old CallKind.Push landed) × Serves (λ x. failed_sink (passed x)) self.old self.new)
            ⊎ Starves failed_sink self.old self.new) }
        ensures named { (landed : ℕ) → IsDue self.old CallKind.Push landed → IsErr result }
        ensures counted { script_of self.new ≡ called CallKind.Push (script_of self.old) }
        ensures remembers { Remembers self.old self.new }
    {
        match self.script.due(CallKind::Push) {
            None => match self.try_push(bytes) {
                Ok(()) => Ok(bytes.len()),
                Err(_) => {
                    self.starve();
                    Err(self.sink_faults.fails())
                }
            },
            Some(_) => match self.try_pass() {
                Ok(()) => Err(self.sink_faults.fails()),
                Err(_) => {
                    self.starve();
                    Err(self.sink_faults.fails())
                }
            },
        }
    }
}
