//! The tests, by what they try.
mod given;
mod random;
mod shelf;
mod worked;
