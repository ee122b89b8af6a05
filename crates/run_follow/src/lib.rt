//! Runs by which one archive follows another.
//!
//! An export shows the entries of a loaded journal as packets (`specs/Exporting.antt`). To the layer above it
//! promises that what is shown is a front of the export of the journal's history, all of it where the run ends
//! well, and that nothing is written. It knows nothing of loads, of words of a command line and of scripts.
#![tactic(auto)]

mod error;
mod exporting;

pub use error::ExportError;
pub use exporting::export;
