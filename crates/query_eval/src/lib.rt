//! Answers to queries of `query_lang`, from lists that lie anywhere.
//!
//! The answer at a time is a row for each document that is alive and matches, the highest score first
//! (`specs/Answers.antt`). To the layer above it promises that the rows are the answer by the
//! frequencies in the parts of lists that are given, one for each distinct word in order, over the
//! documents given. It knows nothing of texts, versions or files.
#![tactic(auto)]

mod answer;
mod facts;
mod found;
mod hit;
mod laws;
mod met;
mod part;
mod ranking;
mod span_laws;
mod spans;

pub use answer::{Answer, Row, Wanted};
pub use found::{answer_by_hits, answer_by_living_hits, answer_from};
pub use laws::{an_answer_is_one, each_query_has_an_answer, only_hits_matter, only_words_matter};
pub use met::docs_met;
pub use part::Part;
pub use span_laws::{
    a_span_answer_is_one, each_window_has_an_answer, hits_are_met, only_hits_matter_over,
    span_rows_are_the_longest,
};
pub use spans::{SpanAnswer, SpanRow, answer_over, answer_over_hits};
