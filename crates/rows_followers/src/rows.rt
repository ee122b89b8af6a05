//! The rows, by what they ask of the program.
mod altered;
mod exports;
mod follows;
mod packets;
mod stops;
