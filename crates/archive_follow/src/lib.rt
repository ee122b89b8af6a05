//! An open archive that takes entries from another one.
//!
//! The bytes of an entry are read, and a change of documents, the mark or a batch is made as one of the
//! archive's own (`archive_changes`). A plan is tested, as a load doesn't, for being what its kind promises;
//! its own places are taken if they are free and for its sublists; and it is stored as a plan of the archive's
//! own, safe at any stop. To the layer above the crate promises that an entry is taken exactly where it may
//! come next (`specs/Taken.antt`), and that each image left is as before it or after it.
#![tactic(auto)]

mod batching;
mod changing;
mod error;
mod planning;
mod taking;

pub use error::TakeEntryError;
pub use taking::take_entry;
