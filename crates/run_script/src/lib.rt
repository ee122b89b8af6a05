//! The program's run: the words of the command line, the archive of a machine's disk, the commands
//! of its source and the replies on its sink.
//!
//! A run without words is one run of the abstract archive over the commands of the bytes pulled
//! (`specs/Headline.antt`). Stopped at any moment, it leaves images that stand for the history after
//! as many commands as were acknowledged, or one more. Its status says why it ended, and each cause
//! is in the contract of `run`.
#![tactic(auto)]

mod answer;
mod carry_out;
mod desk;
mod exporting;
mod following;
mod program;
mod sampling;
mod script;
mod serve;
mod status;
mod stop;

pub use program::{refusal_of, run};
pub use status::Status;
