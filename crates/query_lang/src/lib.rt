//! The language of queries.
//!
//! A query is words joined by `and` (written or not), `or` and `not`, with parentheses
//! (`specs/Grammar.antt` has the grammar as trees). Contracts see a `Query` as its tree. To the layer
//! above it promises that a text is read as the tree that the grammar gives it, or refused at the
//! token behind the longest front that begins some query, and that a query matches and scores by the
//! frequencies of its words as its tree says (`specs/Meaning.antt`). It knows nothing of lists,
//! versions or files.
#![tactic(auto)]

mod error;
mod evaluation;
mod kind;
mod laws;
mod numbering;
mod op;
mod pile;
mod query;
mod reader;
mod term;
mod token;

pub use error::QueryError;
pub use laws::{any_is_a_score_above_0, each_text_is_read_one_way, words_decide};
pub use pile::Pile;
pub use query::{MOST_QUERY_BYTES, Query, asks_for_any};
pub use term::Term;
