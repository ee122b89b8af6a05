//! The entries of an archive's history, and how they are spelled as bytes in the journal.
//!
//! Each entry has one spelling (`specs/Spelling.antt`, `specs/PlanSpelling.antt`): a tag byte, and
//! fields with numbers big-endian; an arrival ends with a text to the end of the body, a plan with
//! its segments, a batch with its acts. Contracts see an entry as a plain value and a text as its bytes. What is decoded
//! is spelled by exactly the bytes that were given, and bytes that spell no entry are refused
//! behind the longest front with which an entry begins (`specs/Faults.antt`).
#![tactic(auto)]

mod act;
mod batch_reading;
mod batch_writing;
mod entry;
mod error;
mod fields;
mod laws;
mod place;
mod plan;
mod plan_fields;
mod plan_reading;
mod plan_writing;
mod reading;
mod tags;
mod text;
mod writing;

pub use act::Act;
pub use batch_writing::{begin_batch, put_arrival, put_deletion};
pub use entry::Entry;
pub use error::CodecError;
pub use laws::{field_laws, plan_laws, spelling_laws};
pub use place::{Layout, Place};
pub use plan::{Listed, PlanEntry};
pub use plan_writing::encode_plan;
pub use reading::decode;
pub use tags::{FORMAT_BYTES, MOST_ACTS, MOST_SEGMENTS};
pub use text::{MOST_TEXT_BYTES, VersionText};
pub use writing::{encode_arrival, encode_deletion, encode_format};
