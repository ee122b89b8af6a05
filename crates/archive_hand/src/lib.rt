//! The open archive: a history of documents on any disk, safe at any stop.
//!
//! An open archive stands for a history, always; one that is spent within a batch stands for it but for
//! what it tells of words (`specs/States.antt`). A load gives the history for which the images of its
//! disk stand. The calls here keep it so: each reaches a part of what is in memory, makes a change of it
//! together with the journal's entry, or closes it to further changes. Which changes there are, and what
//! it is asked, stands in the crates above.
#![tactic(auto)]

mod archive;
mod batching;
mod committing;
mod error;
mod job;
mod laws;
mod loading;
mod sealing;
mod storing;
mod storing_at;
mod working;

pub use archive::Archive;
pub use archive_entries::LoadError;
pub use error::ChangeError;
pub use job::{Begun, Job, STINT_PAGES, Stint};
pub use laws::an_archive_in_step_stands;
pub use sealing::Sealed;
pub use storing_at::PutError;
