//! The audit of an archive: it reads the two files, shows what a check finds, and writes nothing.
//!
//! `audit` opens the archive on a machine's disk for reading only, checks it against its own texts and
//! then against the digests in its journal, and shows what it finds in one line on the sink. It makes no
//! write and no sync, so the images that a crash may leave stay the same (`specs/Audits.antt`). Its status
//! says how it ended; the contract has each cause.
#![tactic(auto)]

mod examining;
mod laws;
mod opening;
mod program;
mod status;
mod telling;

pub use laws::{a_sound_image_is_whole, an_image_has_one_finding};
pub use program::{are_refused, audit};
pub use status::AuditStatus;
