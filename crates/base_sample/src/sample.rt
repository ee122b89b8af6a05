//! The commands of a sample, one after another.
ghost use Rattle.std.specs.Prelude.{◌≡◌, ◌<◌, ◌≤◌, [], ◌∷◌, IfOk, OnErr, IfSome, IfNone, slice_get};
ghost use Rattle.base_sample.specs.Samples.{sample_of};
ghost use Rattle.base_sample.specs.Places.{IsPlace, commands_from};

use crate::place::Place;
use crate::writing::{STARTS, change, plan, question};
use base_commands::Command;
use std::alloc::{AllocError, Global};
use std::marker::Model;

/// The most changes of a sample.
pub const MOST_CHANGES: u32 = 100_000;

/// The commands of a sample that are still to be given. Contracts see the list of them.
#[derive(Debug, Drop)]
pub struct Sample {
    start: u32,
    count: u32,
    next: Place,
}

impl Model for Sample {
    ghost use Rattle.std.specs.Prelude.{List, ◌<◌, ◌≤◌};
    ghost use Rattle.base_commands.specs.declared.command.Command.{Command as PlainCommand};
    ghost use Rattle.base_sample.specs.Places.{IsPlace, commands_from};

    ghost Value = { List PlainCommand };

    ghost view = { λ s. commands_from s.start s.count s.next };

    ghost invariant = { λ s. (s.start < 1000) × (s.count ≤ 100000) × IsPlace s.count s.next };
}

impl Sample {
    /// The sample of a seed with so many changes. Constant cost.
    pub fn new(seed: u64, count: u32) -> Sample
        requires some { 1 ≤ count }
        requires few { count ≤ MOST_CHANGES }
        ensures { result ≡ sample_of seed count }
    {
        Sample {
            start: (seed % STARTS) as u32,
            count,
            next: Place::Change(1),
        }
    }

    /// The next command, or None behind the last one. An error means that there was no memory for its
    /// words; the next call gives the same command. Constant cost.
    pub fn next_command(&mut self, alloc: Global) -> Result<Option<Command>, AllocError>
        ensures given { IfOk result (λ next. IfSome next (λ command. self.old ≡ command ∷ self.new)) }
        ensures end { IfOk result (λ next. IfNone next ((self.old ≡ []) × (self.new ≡ []))) }
        ensures kept { OnErr result (self.new ≡ self.old) }
    {
        let command = command_at(alloc, self.start, self.count, self.next)?;
        self.next = self.next.after(self.count);
        Ok(command)
    }
}

/// The command at a place.
fn command_at(
    alloc: Global,
    start: u32,
    count: u32,
    place: Place,
) -> Result<Option<Command>, AllocError>
    requires start { start < 1000 }
    requires count { count ≤ 100000 }
    requires place { IsPlace count place }
    ensures { IfOk result (λ command. command ≡ slice_get (commands_from start count place) 0) }
{
    match place {
        Place::Change(number) => Ok(Some(change(alloc, start, number)?)),
        Place::Plan(number) => Ok(Some(plan(alloc, number)?)),
        Place::Question(tenths) => Ok(Some(question(alloc, count, tenths)?)),
        Place::Check => Ok(Some(Command::Verify)),
        Place::End => Ok(None),
    }
}
