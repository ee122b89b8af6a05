//! A journal of records on a disk that may stop at any moment.
//!
//! A journal is a header, records, and a closed gate; what lies behind that gate has no meaning.
//! A record is an open gate, the length of its body, and the body. It is written behind a gate that
//! is closed on the disk, with a closed gate of its own behind it, and only when it is durable a
//! write of one byte opens the gate before it. So no checksum is trusted, and a stop leaves the
//! records from before, or these and the new one.
//!
//! To the layer above it promises that each byte list spells one list of bodies at most
//! (`specs/Spelled.antt`), that a load finds it, and what each image left since the start of a call
//! spells (`specs/Crash.antt`). A journal can be opened to read alone: then nothing is written or synced.
#![tactic(auto)]

mod bodies;
mod durable;
mod error;
mod frame;
mod gate;
mod head;
mod header;
mod journal;
mod laws;
mod load;
mod window;

pub use bodies::Bodies;
pub use error::{AppendError, JournalError};
pub use frame::Frame;
pub use gate::GATE_BYTES;
pub use head::Head;
pub use journal::Journal;
pub use laws::{
    a_disk_stays_in_step, a_journal_is_refused_at_one_place, a_journal_spells_one_list,
    heads_lead_to_bodies,
};
pub use window::Window;
