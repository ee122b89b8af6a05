//! The outside of an archive: a source of bytes, a sink for replies, and a disk of two areas,
//! as traits with a written meaning.
//!
//! The meaning of each is a plain record: the bytes left, the bytes shown, and for the disk its
//! lengths, the bytes that reads give, and every image that a stop may leave, at every moment so
//! far, inside a call or between two. An implementation may tell these or not; counts of faults
//! are always told, so that a call can answer that it failed only where its machine did.
//!
//! To the layer above it promises the disk model (`specs/Images.antt`), that moments compose, and
//! that the calls of one trait leave the meanings of the others as they are.
#![tactic(auto)]

mod area;
mod disk;
mod machine;
mod range;
mod sink;
mod source;

pub use area::{Area, Failed, Image};
pub use disk::Disk;
pub use machine::Machine;
pub use range::Range;
pub use sink::Sink;
pub use source::Source;
