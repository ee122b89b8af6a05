//! The tests, by what they try.
mod cases;
mod given;
mod streams;
