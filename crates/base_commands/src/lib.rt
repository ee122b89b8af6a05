//! The commands of an archive as values, whoever gives them: a script, or a caller in the process.
//!
//! A command has documents, times, spans, factors and tolerances of `base_types`, a text that came in
//! or was too long to be kept, counts of rows, and the words of a question as they were written.
//! Contracts see a content as the list of its bytes and a phrase as those of its UTF-8, so a command
//! is a plain value in them.
//!
//! To the layer above it promises the bounds of texts, phrases, counts, batches and shared budgets
//! for each value of them. A document is in range where `HasDocument` (`specs/Documents.antt`) says
//! so.
#![tactic(auto)]

mod batch;
mod command;
mod count;
mod phrase;
mod share;
mod text;

pub use batch::{BatchItem, BatchItems, BatchList, MOST_BATCH_BYTES, MOST_BATCH_ITEMS};
pub use command::{Command, Item, Kind};
pub use count::{BestCount, MOST_BEST_ROWS, MOST_TOP_ROWS, TopCount};
pub use phrase::{MOST_PHRASE_BYTES, Phrase};
pub use share::{MOST_SHARE_WORDS, ShareFraction, ShareWords};
pub use text::{Content, MOST_TEXT_BYTES, Text};
