//! The rows, by what they ask of the program.
mod best;
mod between;
mod cache;
mod find;
mod propose;
mod rough;
mod share;
mod show;
mod top;
