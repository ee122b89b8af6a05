//! The tests, by what they try.
mod given;
mod index;
mod joins;
mod parts;
mod tails;
mod versions;
