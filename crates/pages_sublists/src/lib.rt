//! Sublists of plans in pages: each segment's list lies in a place, a run of pages with the SHA-256
//! of its bytes.
//!
//! The store knows which pages are free, as `pages_area` does, and its contracts range over the
//! extents that are taken. What is fetched is a function of the bytes that the disk gives
//! (`specs/Fetching.antt`, `specs/Gathering.antt`): a list, or the first cause against them. Places are
//! read through a cache of pages, so that exactly the bytes of pages that aren't kept are read
//! (`specs/Caching.antt`); pages that are given up are kept no longer. What their bytes spell is checked
//! by `pages_checked`, which compares bytes that were checked before and hashes no byte of them.
#![tactic(auto)]

mod fetching;
mod framing;
mod gathering;
mod joining;
mod laws;
mod paged;
mod parts;
mod placing;
mod prepared;
mod spelled;
mod starts;
mod store;
mod why;

pub use framing::opened;
pub use gathering::Gathered;
pub use laws::{
    held_sublists_are_gathered, one_answer_of_bytes, one_gathering, pieces_hold_sublists,
    places_are_for_sublists,
};
pub use parts::{narrowed, sublist_bytes};
pub use prepared::Prepared;
pub use store::Sublists;
pub use why::{Damage, FetchError, PlaceError, Why};
