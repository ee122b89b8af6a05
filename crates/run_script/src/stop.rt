//! What stops a run before its input is gone over.
ghost use Rattle.std.specs.Prelude.{◌≡◌};
ghost use Rattle.run_script.specs.declared.stop.Halt.{Halt};
ghost use Rattle.run_script.specs.Statuses.{stop_of_halt};

use pages_sublists::Damage;
use std::alloc::AllocError;

/// An event that ends a run before the reply to an item is known.
#[derive(Clone, Copy, Debug, PartialEq, Eq)]
pub(crate) enum Halt {
    /// A call of the disk failed.
    Disk,
    /// A sublist that was read isn't what the entry of its plan says.
    Damaged(Damage),
    /// There was no memory.
    Memory,
}

impl From<AllocError> for Halt {
    ghost from_gives = { λ _ halt. halt ≡ Halt.Memory };

    fn from(_: AllocError) -> Halt {
        Halt::Memory
    }
}

/// An event that ends a run before the reply to an item is shown whole.
#[derive(Clone, Copy, Debug, PartialEq, Eq)]
pub(crate) enum Stop {
    /// A call of the disk failed.
    Disk,
    /// A sublist that was read isn't what the entry of its plan says.
    Damaged(Damage),
    /// A reply couldn't be shown whole.
    Sink,
    /// There was no memory.
    Memory,
}

impl From<Halt> for Stop {
    ghost from_gives = { λ halt stop. stop ≡ stop_of_halt halt };

    fn from(halt: Halt) -> Stop {
        match halt {
            Halt::Disk => Stop::Disk,
            Halt::Damaged(damage) => Stop::Damaged(damage),
            Halt::Memory => Stop::Memory,
        }
    }
}
