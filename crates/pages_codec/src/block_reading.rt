//! Reading blocks.
ghost use Rattle.std.specs.Prelude.{◌≡◌, ◌<◌, ◌≤◌, ◌^◌, length, map, Ok, IfOk, IfErr};
ghost use Rattle.pages_codec.specs.Fields.{fields, seen};
ghost use Rattle.pages_codec.specs.Steps.{last_of};
ghost use Rattle.pages_codec.specs.Blocks.{number_in, least_start, span_at, next_at, others_at, postings_at, body_at, block_at, blocks_at, block_spelling, top_of, last_doc};
ghost use Rattle.pages_codec.specs.Layouts.{IsFaultOf};
ghost use Rattle.pages_codec.specs.Heads.{head_of};
ghost use Rattle.pages_codec.specs.Gives.{Gives, with_front};
ghost use Rattle.pages_codec.specs.Decoding.{OrMemory, Decodes};

use crate::error::{ListError, ReadError};
use crate::head::{BlockHead, HEAD_BYTES, head_front, may_lead};
use crate::numbers::number_front;
use base_types::{DocId, NOW, Posting, Span};
use std::alloc::Global;

/// The fault of what begins with these bytes.
fn fault(bytes: &[u8]) -> ReadError
    ensures { result ≡ ReadError.Form (length bytes.now) }
{
    ReadError::Form {
        left: bytes.len() as u64,
    }
}

/// A number from `least` on and below `limit`, and the bytes behind it.
#[tactic(auto, unfolding(crate::specs::Blocks::number_in))]
fn number_in(least: u64, limit: u64, bytes: &[u8]) -> Result<(u64, &[u8]), ReadError>
    ensures read { Gives (λ x. (x.0, x.1.now)) result (number_in least limit bytes.now) }
    ensures least { IfOk result (λ x. least ≤ x.0) }
    ensures limit { IfOk result (λ x. x.0 < limit) }
{
    let Some((number, rest)) = number_front(bytes) else {
        return Err(fault(bytes));
    };
    if least <= number && number < limit {
        Ok((number, rest))
    } else {
        Err(fault(bytes))
    }
}

/// A posting of this document whose start counts from `base`, and the bytes behind it.
#[tactic(auto, unfolding(crate::specs::Blocks::span_at))]
fn span_at(doc: DocId, base: u64, least: u64, bytes: &[u8]) -> Result<(Posting, &[u8]), ReadError>
    requires doc { doc.0 < 2 ^ 32 }
    requires base { base ≤ 2 ^ 40 }
    ensures { Gives (λ x. (fields x.0, x.1.now)) result (span_at doc.0 base least bytes.now) }
{
    let (tf, rest) = number_in(1, 1 << 32, bytes)?;
    let (start, rest) = number_in(least, NOW - base, rest)?;
    let from = base + start;
    let (len, rest) = number_in(1, NOW - from + 1, rest)?;
    let posting = Posting {
        doc,
        span: Span {
            from,
            to: from + len,
        },
        tf: tf as u32,
    };
    Ok((posting, rest))
}

/// A posting that may stand behind another, and the bytes behind it.
#[tactic(auto, unfolding(crate::specs::Blocks::next_at))]
fn next_at(last: Posting, bytes: &[u8]) -> Result<(Posting, &[u8]), ReadError>
    ensures { Gives (λ x. (fields x.0, x.1.now)) result (next_at (fields last) bytes.now) }
{
    let (step, rest) = number_in(0, (1 << 32) - last.doc.0 as u64, bytes)?;
    let base = if step == 0 { last.span.to } else { 0 };
    span_at(DocId((last.doc.0 as u64 + step) as u32), base, 0, rest)
}

/// The least start of a posting of this document behind the one before.
fn least_start(before: Option<Posting>, doc: DocId) -> u64
    ensures { result ≡ least_start (seen before) doc.0 }
{
    match before {
        None => 0,
        Some(last) => { if last.doc.0 == doc.0 { last.span.to } else { 0 } }
    }
}

/// So many postings behind another, added to a list, and the bytes behind them.
fn others_at(
    list: Vec<Posting>,
    count: u8,
    last: Posting,
    bytes: &[u8],
) -> Result<(Vec<Posting>, &[u8]), ReadError>
    ensures { Gives (λ x. (map fields x.0.items, x.1.now)) result
        (with_front (map fields list.items) (others_at count (fields last) bytes.now)) }
{
    let mut list = list;
    let mut last = last;
    let mut rest = bytes;
    for _ in 0..count {
        let (posting, behind) = next_at(last, rest)?;
        list.push(posting)?;
        last = posting;
        rest = behind;
    }
    Ok((list, rest))
}

/// The postings of a block, and the bytes behind them.
#[tactic(auto, unfolding(crate::specs::Blocks::postings_at))]
fn postings_at(
    alloc: Global,
    before: Option<Posting>,
    first: DocId,
    count: u8,
    bytes: &[u8],
) -> Result<(Vec<Posting>, &[u8]), ReadError>
    requires doc { first.0 < 2 ^ 32 }
    requires some { 1 ≤ count }
    ensures { Gives (λ x. (map fields x.0.items, x.1.now)) result (postings_at (seen before) first.0 count bytes.now) }
{
    let (posting, rest) = span_at(first, 0, least_start(before, first), bytes)?;
    let mut list = Vec::with_capacity(alloc, count as usize)?;
    list.push(posting)?;
    others_at(list, count - 1, posting, rest)
}

/// The greatest frequency and the last document of postings; 0 and 0 where there is none.
pub fn summary(list: &[Posting]) -> (u32, u32)
    ensures top { result.0 ≡ top_of 0 (map fields list.now) }
    ensures last { result.1 ≡ last_doc 0 (map fields list.now) }
{
    let mut top = 0;
    let mut last = 0;
    for posting in list {
        top = top.max(posting.tf);
        last = posting.doc.0;
    }
    (top, last)
}

/// A block whose header was read, by the bytes behind the header; and the bytes behind the block.
#[tactic(auto, unfolding(crate::specs::Blocks::body_at))]
fn body_at<'a>(
    alloc: Global,
    before: Option<Posting>,
    bytes: &[u8],
    head: BlockHead,
    rest: &'a [u8],
) -> Result<(Vec<Posting>, &'a [u8]), ReadError>
    requires doc { head.first.0 < 2 ^ 32 }
    requires some { 1 ≤ head.count }
    requires size { head.size ≤ length rest.now }
    ensures { Gives (λ x. (map fields x.0.items, x.1.now)) result (body_at (seen before) bytes.now (head_of head) rest.now) }
{
    let (inside, behind) = rest.split_at(head.size as usize);
    let (list, left) = match postings_at(alloc, before, head.first, head.count, inside) {
        Ok(read) => read,
        Err(ReadError::Form { left }) => {
            return Err(ReadError::Form {
                left: left + behind.len() as u64,
            });
        }
        Err(ReadError::Memory) => return Err(ReadError::Memory),
    };
    let (top, last) = summary(&list);
    if left.is_empty() && head.top == top && head.last.0 == last {
        Ok((list, behind))
    } else {
        Err(fault(bytes))
    }
}

/// A block that may stand behind the posting before it, and the bytes behind it.
#[tactic(auto, unfolding(crate::specs::Blocks::block_at))]
pub fn block_at(
    alloc: Global,
    before: Option<Posting>,
    bytes: &[u8],
) -> Result<(Vec<Posting>, &[u8]), ReadError>
    ensures { Gives (λ x. (map fields x.0.items, x.1.now)) result (block_at (seen before) bytes.now) }
{
    if bytes.len() < HEAD_BYTES {
        return Err(fault(bytes));
    }
    let (head, rest) = head_front(bytes);
    if may_lead(before, head, rest.len()) {
        body_at(alloc, before, bytes, head, rest)
    } else {
        Err(fault(bytes))
    }
}

/// The last posting of a block, or the one before it.
fn last_of(before: Option<Posting>, block: &[Posting]) -> Option<Posting>
    ensures { seen result ≡ last_of (seen before) (map fields block.now) }
{
    match block.split_last() {
        Some((last, _)) => Some(*last),
        None => before,
    }
}

/// The postings that blocks spell.
fn blocks_at(alloc: Global, bytes: &[u8]) -> Result<Vec<Posting>, ListError>
    ensures found { IfOk result (λ v. blocks_at bytes.now ≡ Ok (map fields v.items)) }
    ensures fault { IfErr result (OrMemory (IsFaultOf blocks_at bytes.now)) }
{
    let mut list = Vec::new(alloc);
    let mut before = None;
    let mut rest = bytes;
    while !rest.is_empty() {
        let (block, behind) = match block_at(alloc, before, rest) {
            Ok(read) => read,
            Err(ReadError::Form { left }) => {
                return Err(ListError::Form {
                    at: bytes.len() as u64 - left,
                });
            }
            Err(ReadError::Memory) => return Err(ListError::Memory),
        };
        list.extend_from_slice(&block)?;
        before = last_of(before, &block);
        rest = behind;
    }
    Ok(list)
}

/// The list that bytes spell in blocks. One pass over them.
pub fn decode_blocks(alloc: Global, bytes: &[u8]) -> Result<Vec<Posting>, ListError>
    ensures { Decodes block_spelling blocks_at bytes.now result }
{
    blocks_at(alloc, bytes)
}
