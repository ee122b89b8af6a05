//! The tests, by what they try.
mod free_pages;
mod given;
mod kept_pages;
mod lists_as_bytes;
mod sublists;
