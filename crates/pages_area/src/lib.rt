//! The area of pages: which are free, the bytes that stand in extents, and a cache of what was read.
//!
//! `Pages` in hand knows the edges of what is taken alone; its contracts range over the extents, runs of
//! pages, that are taken (`specs/Taken.antt`), of which no two share a page. It promises the lowest run of
//! free pages that is long enough, and that a write changes only its extent in each image that a stop may
//! leave.
//!
//! `PageCache` keeps at most 1,024 pages, each with its piece, the bytes that were read of it; the page
//! that was used last is first. Asking for a page that is kept with a piece of the wanted length is a
//! hit and reads nothing; asking for another reads its piece and keeps it. A cache stands for the area
//! where each piece is what the area holds there (`specs/Caches.antt`). It promises that such a cache
//! gives what reads give, that it goes on standing for the area, and exactly which bytes are read. Whoever
//! writes pages gives them back before.
#![tactic(auto)]

mod cache;
mod cache_laws;
mod edges;
mod error;
mod extents;
mod kept;
mod laws;
mod live;
mod pages;

pub use cache::PageCache;
pub use cache_laws::{
    asked_is_first, asked_lie_in_taken, asked_twice_misses_once, asking_stands, askings_join,
    few_are_kept, given_back_leave, left_lie_in_rest, misses_are_by_sizes, writes_apart_stand,
};
pub use error::PageError;
pub use laws::{
    each_is_placed_or_not, extents_apart_stay, good_writes_join, none_is_placed_and_not,
    one_list_of_places, page_writes_join, taken_in_any_order,
};
pub use live::LiveError;
pub use pages::{AtError, Pages, TakeError};
