//! Posting lists as bytes: the flat layout, with 24 bytes a posting, and the layout in blocks of 128
//! postings, with numbers as short as they can be.
//!
//! In each layout a list has one spelling (`specs/Flat.antt`, `specs/Blocks.antt`). What is decoded
//! is spelled by exactly the bytes that were given, and bytes that spell no list are refused with
//! the place of the first fault. Contracts see a posting as its four numbers.
#![tactic(auto)]

mod block_reading;
mod block_writing;
mod error;
mod flat;
mod frames;
mod front;
mod head;
mod laws;
mod numbers;

pub use block_reading::decode_blocks;
pub use block_writing::encode_blocks;
pub use error::ListError;
pub use flat::{POSTING_BYTES, decode_list, encode_list};
pub use frames::Frames;
pub use head::{BLOCK_POSTINGS, BlockHead, HEAD_BYTES};
pub use laws::{block_laws, flat_laws};
