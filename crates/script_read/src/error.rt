//! Why a reader has no next item.
ghost use Rattle.std.specs.Prelude.{◌≡◌};
ghost use Rattle.script_read.specs.declared.error.ScriptError.{ScriptError};

use std::alloc::AllocError;

/// Why there is no next item. Nothing is lost by it: the bytes taken stand for the same script.
#[derive(Clone, Copy, Debug, PartialEq, Eq)]
pub enum ScriptError {
    /// The bytes are no script.
    Broken {
        /// The place in the input, from 0, where they stop being one.
        at: u64,
    },
    /// `MOST_INPUT_BYTES` bytes were taken, and neither an end nor another item is in them.
    Budget,
    /// A pull of the source failed, and without it no item is whole.
    Failed,
    /// Want of memory.
    Memory,
}

impl From<AllocError> for ScriptError {
    ghost from_gives = { λ _ e. e ≡ ScriptError.Memory };

    fn from(_error: AllocError) -> ScriptError {
        ScriptError::Memory
    }
}
