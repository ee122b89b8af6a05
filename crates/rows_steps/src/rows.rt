//! The rows, by what they ask of the program.
mod steps;
mod stops;
