//! The rows, by what they ask of the program.
mod audits;
mod batches;
mod changed;
mod damaged;
mod faults;
mod flat;
mod foreign;
mod journals;
mod places;
mod sound;
