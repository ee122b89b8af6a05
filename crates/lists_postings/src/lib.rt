//! Posting lists: which postings a list has at a time or in a span, the union of two lists, the shortest
//! list of the same rows, and longest stretches of time.
//!
//! A list is a slice of postings in the order of document and start, in which no two postings of one
//! document overlap in time. Contracts see it as the plain list of its postings, and say what it
//! has of a document at a time by one word, the frequency there. The definitions of lists, sublists,
//! clips and unions that every layer above cites stand here, with the laws that hold of them. Each
//! call goes once over the lists that it is given.
//!
//! Stretches are the same thought for anything that is so of a document for a time. A list of them is
//! read by a kind (`specs/Stretches.antt`): the lives of documents are of one, the rows of an answer over
//! a window of another. What is so changes at events; between two neighbours it is asked once. There is a
//! list of longest stretches, and only one.
#![tactic(auto)]

mod coalescing;
mod event;
mod laws;
mod life;
mod merge;
mod parts;
mod stretch;
mod stretch_laws;

pub use coalescing::coalesce;
pub use event::{Event, end_of, sort_events};
pub use laws::{
    clip_of_list_of, coalesced_is_shortest, each_frequency_has_a_list, frequency_of_union,
    join_of_lists_of, longest_spans, one_coalesced, one_list_of, size_is_begun_less_ended,
};
pub use life::Life;
pub use merge::{MergeError, merge_distinct};
pub use parts::{as_of, clip, overlap};
pub use stretch::{Stretch, note};
pub use stretch_laws::{each_has_stretches, exactly_the_longest, stretches_are_one};
