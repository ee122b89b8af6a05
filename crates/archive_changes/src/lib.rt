//! The changes of an open archive: a version arrives, a document ends, a batch of both comes at once, the journal
//! is marked, a plan is stored, or begun.
//!
//! Each change leaves images that stand for the history before it or for that and the new entry, and
//! after Ok for the latter alone; a refused one changes nothing (`specs/After.antt`). What is
//! refused, and for which cause, is the history's to say (`specs/Adding.antt`).
#![tactic(auto)]

mod batching;
mod changing;
mod error;
mod planning;

pub use batching::batch;
pub use changing::{arrive, delete, mark_format};
pub use error::BatchError;
pub use planning::{begin, plan};
