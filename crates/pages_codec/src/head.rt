//! The headers of blocks.
ghost use Rattle.std.specs.Prelude.{◌≡◌, ◌≤◌, length};
ghost use Rattle.pages_codec.specs.Fields.{seen};
ghost use Rattle.pages_codec.specs.Blocks.{head_bytes, head_front, may_lead};
ghost use Rattle.pages_codec.specs.Heads.{head_of};

use crate::front::{u8_front, u16_front, u32_front};
use base_types::{DocId, Posting};

/// The most postings of a block. Each block but the last has as many.
pub const BLOCK_POSTINGS: usize = 128;

/// The bytes of a header: postings 1, bytes behind it 2, top 4, first document 4, last document 4.
pub const HEAD_BYTES: usize = 15;

/// The header of a block.
#[derive(Clone, Copy, Debug, PartialEq, Eq)]
pub struct BlockHead {
    /// How many postings the block has, from 1 to 128.
    pub count: u8,
    /// How many bytes they take.
    pub size: u16,
    /// Their greatest frequency.
    pub top: u32,
    /// The document of the first of them.
    pub first: DocId,
    /// The document of the last of them.
    pub last: DocId,
}

/// The header in front, and the bytes behind it.
pub fn head_front(bytes: &[u8]) -> (BlockHead, &[u8])
    requires { 15 ≤ length bytes.now }
    ensures value { head_of result.0 ≡ (head_front bytes.now).0 }
    ensures rest { result.1.now ≡ (head_front bytes.now).1 }
{
    let (count, rest) = u8_front(bytes);
    let (size, rest) = u16_front(rest);
    let (top, rest) = u32_front(rest);
    let (first, rest) = u32_front(rest);
    let (last, rest) = u32_front(rest);
    let head = BlockHead {
        count,
        size,
        top,
        first: DocId(first),
        last: DocId(last),
    };
    (head, rest)
}

/// Whether a header may stand behind the posting before it, with so many bytes behind.
pub fn may_lead(before: Option<Posting>, head: BlockHead, behind: usize) -> bool
    ensures { result ≡ may_lead (seen before) (head_of head) behind }
{
    let least = match before {
        None => 0,
        Some(last) => last.doc.0,
    };
    let count = head.count as usize;
    let size = head.size as usize;
    1 <= count
        && count <= BLOCK_POSTINGS
        && size <= behind
        && (count == BLOCK_POSTINGS || size == behind)
        && least <= head.first.0
}

/// The bytes of a header.
pub fn bytes_of(head: BlockHead) -> [u8; HEAD_BYTES]
    ensures { result ≡ head_bytes (head_of head) }
{
    let size = head.size.to_be_bytes();
    let top = head.top.to_be_bytes();
    let first = head.first.0.to_be_bytes();
    let last = head.last.0.to_be_bytes();
    [
        head.count, size[0], size[1], top[0], top[1], top[2], top[3], first[0], first[1], first[2],
        first[3], last[0], last[1], last[2], last[3],
    ]
}
