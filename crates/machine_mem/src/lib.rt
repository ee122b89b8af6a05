//! The machine in memory: the source, sink and disk on which tests run what the archive does.
//!
//! `MemMachine` tells all that it holds. Its calls fail where its script names them, and where it
//! finds no memory for its record, which `starved` counts. It records what each write, sync and push
//! changed, so that a test can take any image that a stop might have left after one of them, and begin
//! again from it.
//! `with_pulls_of` cuts its input into pieces.
//! `SliceSource` is a source over bytes in memory that never fails.
//!
//! To the layer above it promises the traits of `machine_model` with all their laws, and exactly
//! what each call does (`specs/Calls.antt`).
#![tactic(auto)]

mod counter;
mod difference;
mod disk;
mod faults;
mod history;
mod holdings;
mod input;
mod machine;
mod picks;
mod sink;
mod slice_source;
mod source;
mod store;
mod tally;

pub use faults::{CallKind, Fault};
pub use machine::MemMachine;
pub use picks::{Fill, Pick, Picked, Tail};
pub use slice_source::SliceSource;
