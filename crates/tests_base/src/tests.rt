//! The tests, by what they try.
mod given;
mod items;
mod machine;
mod times;
