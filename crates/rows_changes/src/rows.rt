//! The rows, by what they ask of the program.
mod broken;
mod deletions;
mod faults;
mod foreign;
mod history;
mod lines;
mod marks;
mod pieces;
mod plan_stops;
mod replies;
mod samples;
mod statuses;
mod stops;
