//! A sample carried out on an archive.
//!
//! The commands of a sample go to an open archive one after another, and what comes of them is
//! counted (`specs/Filling.antt`). No reply is written: the counts and the verdict of the check that
//! comes last are all that is told.
//!
//! To the layer above it promises that the commands have one run of the abstract archive, of which
//! the counts and the verdict are, and that at any moment each image left stands for a history of
//! that run.
#![tactic(auto)]

mod carrying;
mod counting;
mod error;
mod filling;
mod laws;
mod note;
mod report;

pub use error::FillError;
pub use filling::fill;
pub use laws::runs_of_samples_have_one_report;
pub use report::Report;
