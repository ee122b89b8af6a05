//! The tests, by what they try.
mod answers;
mod firsts;
mod given;
mod language;
mod trees;
mod windows;
