//! The rows, by what they ask of the program.
mod foreign;
mod large;
mod refused;
mod whole;
