//! The tests, by what they try.
mod choices;
mod fitting;
mod given;
mod guarantees;
mod spaces;
