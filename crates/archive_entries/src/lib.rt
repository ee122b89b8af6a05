//! The entries of a journal: what they make of a directory, an index and live plans.
//!
//! A load goes over them once, and finds a history that loads, or the first place that shows that
//! there is none (`specs/Replaying.antt`). The directory has the changes of documents with the places
//! of the texts in the journal (`specs/Places.antt`), so a text is read from there. An entry that is
//! to come next is prepared by the same tests (`specs/Entries.antt`). Nothing here writes.
#![tactic(auto)]

mod batching;
mod change;
mod error;
mod laws;
mod lists;
mod live;
mod preparing;
mod replaying;
mod text;
mod texts;

pub use batching::{NextWords, PreparedBatch, note_all, prepare_batch, take_in_all};
pub use change::{TEXT_AT, note, placed};
pub use error::{BatchDeclined, Declined, LoadError, ReadError};
pub use laws::{changes_follow_entries, places_follow_entries};
pub use lists::{are_many, list_up_to};
pub use live::{position_of, put_live};
pub use preparing::{Prepared, full_journal, prepare_arrival, prepare_deletion};
pub use replaying::{Replayed, replay};
pub use texts::read_text;
