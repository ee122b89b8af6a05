//! The tests, by what they try.
mod approximations;
mod asked;
mod choices;
mod given;
