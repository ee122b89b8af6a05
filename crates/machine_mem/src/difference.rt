//! What one call changed.
ghost use Rattle.std.specs.Prelude.{◌+◌, ◌^◌, ◌≤◌, length};

use machine_model::Area;

/// A write of an area.
#[derive(Drop)]
pub struct Write {
    /// The area.
    pub area: Area,
    /// The place of its first byte.
    pub at: u64,
    /// Its bytes.
    pub bytes: Vec<u8>,
    /// How many of them came through. A stop may leave the others too.
    pub landed: usize,
    ghost fits: { at + length bytes.items ≤ 2 ^ 40 },
    ghost within: { landed ≤ length bytes.items },
}

/// What a call changed of a disk and of what was shown.
#[derive(Drop)]
pub enum Difference {
    /// It wrote.
    Write(Write),
    /// It synced.
    Sync,
    /// It showed this piece.
    Show(Vec<u8>),
    /// It failed, and changed nothing.
    Nothing,
}

/// A call of a history.
#[derive(Drop)]
pub struct Recorded {
    /// What it changed.
    pub difference: Difference,
    /// How many calls there were before it.
    pub until: u64,
}
