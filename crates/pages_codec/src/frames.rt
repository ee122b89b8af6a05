//! Blocks by their headers, which are read alone, and opened one by one.
ghost use Rattle.std.specs.Prelude.{◌≡◌, ◌≢◌, ℕ, ◌+◌, ◌<◌, List, length, map, option_map, Ok, IfOk, IfErr};
ghost use Rattle.base_types.specs.declared.posting.Posting.{Posting};
ghost use Rattle.lists_postings.specs.Lists.{IsList};
ghost use Rattle.pages_codec.specs.Layouts.{IsFaultOf};
ghost use Rattle.pages_codec.specs.Blocks.{block_spelling, blocks_at, head_front};
ghost use Rattle.pages_codec.specs.Heads.{head_of};
ghost use Rattle.pages_codec.specs.Frames.{front_of, frames_at, FramesState, start_of, block_bytes, AreStarts};
ghost use Rattle.pages_codec.specs.Decoding.{OrMemory};

use crate::block_reading::decode_blocks;
use crate::error::ListError;
use crate::head::{BLOCK_POSTINGS, BlockHead, HEAD_BYTES, head_front};
use base_types::Posting;
use std::alloc::Global;
use std::marker::Model;

/// Bytes and the headers of their blocks. What stands in the blocks is looked at when they are opened.
#[derive(Drop)]
pub struct Frames {
    bytes: Vec<u8>,
    heads: Vec<BlockHead>,
    starts: Vec<usize>,
}

impl Model for Frames {
    ghost use Rattle.std.specs.Prelude.{length};
    ghost use Rattle.pages_codec.specs.Frames.{FramesState, AreStarts};

    ghost Value = { FramesState };

    ghost view = { λ f. record { bytes = f.bytes.items; heads = f.heads.items } };

    ghost invariant = { λ f. AreStarts (length f.bytes.items) f.heads.items f.starts.items };
}

impl Frames {
    /// The headers of the blocks that these bytes have. It costs constant time a block; the blocks
    /// are passed over.
    pub fn read(alloc: Global, bytes: Vec<u8>) -> Result<Frames, ListError>
        ensures bytes { IfOk result (λ f. f.bytes ≡ bytes.items) }
        ensures heads { IfOk result (λ f. frames_at bytes.items ≡ Ok (map head_of f.heads)) }
        // A place is named exactly where a header is cut short, has no posting or more than 128,
        // or its block passes the end: that of the first such header.
        ensures fault { IfErr result (OrMemory (IsFaultOf frames_at bytes.items)) }
    {
        let (heads, starts) = frames_at(alloc, &bytes)?;
        Ok(Frames {
            bytes,
            heads,
            starts,
        })
    }

    /// The headers in order, as they stand in the bytes.
    pub fn heads(&self) -> &[BlockHead]
        ensures { result.now ≡ self.now.heads }
    {
        &self.heads
    }

    /// The postings of the block of this number. One pass over its bytes.
    pub fn open(&self, alloc: Global, block: usize) -> Result<Vec<Posting>, ListError>
        requires { block < length self.now.heads }
        // What is read is a list, and its block is spelled so.
        ensures found { IfOk result (λ v. IsList v.items × (block_bytes self.now block ≡ block_spelling v.items)) }
        // The list that is spelled so is what is read.
        ensures only { (list : List Posting) → IsList list → block_bytes self.now block ≡ block_spelling list
            → IfOk result (λ v. v.items ≡ list) }
        // Where a place is named, the block spells no list.
        ensures nothing { IfErr result
            (OrMemory (λ _. (list : List Posting) → IsList list → block_bytes self.now block ≢ block_spelling list)) }
        // Which place is named: that of the block's fault, counted from the first of all bytes.
        ensures fault { IfErr result
            (OrMemory (λ at. (inner : ℕ) × (at ≡ start_of self.now.heads block + inner)
            × IsFaultOf blocks_at (block_bytes self.now block) inner)) }
    {
        let start = self.starts[block];
        match decode_blocks(alloc, self.block(block)) {
            Ok(list) => Ok(list),
            Err(ListError::Form { at }) => Err(ListError::Form {
                at: start as u64 + at,
            }),
            Err(ListError::Memory) => Err(ListError::Memory),
        }
    }

    /// The bytes of the block of this number, with its header.
    fn block(&self, block: usize) -> &[u8]
        requires { block < length self.now.heads }
        ensures { result.now ≡ block_bytes self.now block }
    {
        let head = self.heads[block];
        let start = self.starts[block];
        &self.bytes[start..start + HEAD_BYTES + head.size as usize]
    }
}

/// The header of a block in front, and the bytes behind the block.
#[tactic(auto, unfolding(crate::specs::Frames::front_of))]
fn front_of(bytes: &[u8]) -> Option<(BlockHead, &[u8])>
    ensures { option_map (λ x. (head_of x.0, x.1.now)) result ≡ front_of bytes.now }
{
    if bytes.len() < HEAD_BYTES {
        return None;
    }
    let (head, rest) = head_front(bytes);
    let count = head.count as usize;
    let size = head.size as usize;
    if count < 1 || count > BLOCK_POSTINGS || size > rest.len() {
        return None;
    }
    Some((head, &rest[size..]))
}

/// The headers of the bytes, and where each begins.
fn frames_at(alloc: Global, bytes: &[u8]) -> Result<(Vec<BlockHead>, Vec<usize>), ListError>
    ensures found { IfOk result (λ x. frames_at bytes.now ≡ Ok (map head_of x.0.items)) }
    ensures starts { IfOk result (λ x. AreStarts (length bytes.now) x.0.items x.1.items) }
    ensures fault { IfErr result (OrMemory (IsFaultOf frames_at bytes.now)) }
{
    let mut heads = Vec::new(alloc);
    let mut starts = Vec::new(alloc);
    let mut rest = bytes;
    while !rest.is_empty() {
        let start = bytes.len() - rest.len();
        let Some((head, behind)) = front_of(rest) else {
            return Err(ListError::Form { at: start as u64 });
        };
        heads.push(head)?;
        starts.push(start)?;
        rest = behind;
    }
    Ok((heads, starts))
}
