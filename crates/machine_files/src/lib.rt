//! The outside of an archive as real files and streams: the two files of a folder, standard input
//! and standard output.
//!
//! `open_machine` opens `archive.journal` and `archive.pages` of the working folder, and makes a
//! `FileMachine` of them and of the standard streams. The machine tells its lengths and how often
//! its calls failed, and no content: what a file holds no clause can say. `open_to_read` opens them to
//! be read alone, and makes none: the calls of its machine that write or sync fail. Both first lock
//! the journal (`LockFile`), the one against everybody else and the other against those who write;
//! an `OpenError` tells why there is no machine. A machine that is `watched` tells on standard error
//! how far long work is (`Progress`). `arguments` gives the words of the command line, and `finish`
//! ends a program by its exit status.
//!
//! To the layer above it promises the traits of `machine_model` with all their laws, and that a
//! sync is good only where both files and their folder are noted as synced. It knows nothing of what
//! stands in the files.
#![tactic(auto)]

mod area_file;
mod calls;
mod command_line;
mod disk;
mod fault_count;
mod lock;
mod machine;
mod open_error;
mod progress;
mod read_file;
mod sink;
mod source;
mod store;
mod watched;

pub use command_line::{ArgumentsError, arguments, finish};
pub use lock::LockFile;
pub use machine::{FileMachine, WatchedMachine, open_machine, open_to_read};
pub use open_error::{OpenError, OpenLine};
pub use progress::Progress;
pub use read_file::ReadFile;
pub use watched::{WatchedFile, WatchedStream};
