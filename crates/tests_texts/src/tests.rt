//! The tests, by what they try.
mod batch_entries;
mod batches;
mod command_lines;
mod entries;
mod given;
mod in_words;
mod pieces;
mod plan_entries;
mod samples;
mod scripts;
mod words;
