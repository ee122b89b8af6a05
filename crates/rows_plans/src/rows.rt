//! The rows, by what they ask of the program.
mod flat;
mod least;
mod many;
mod realistic;
mod refusals;
mod replies;
mod spaces;
mod words;
