//! Writing blocks.
ghost use Rattle.std.specs.Prelude.{◌≡◌, ◌<◌, ◌≤◌, ◌++◌, ◌∷◌, length, map, take, drop, OnOk, IfOk};
ghost use Rattle.std.specs.List.{flat_map};
ghost use Rattle.lists_postings.specs.Lists.{IsList};
ghost use Rattle.pages_codec.specs.Fields.{fields};
ghost use Rattle.pages_codec.specs.Numbers.{number_bytes};
ghost use Rattle.pages_codec.specs.Blocks.{span_numbers, base_behind, other_numbers, inside, block, block_spelling};

use crate::block_reading::summary;
use crate::head::{BLOCK_POSTINGS, BlockHead, HEAD_BYTES, bytes_of};
use crate::numbers::put_number;
use base_types::{DocId, Posting};
use std::alloc::{AllocError, Global};

/// Adds a posting whose start counts from `base`.
fn put_span(bytes: &mut Vec<u8>, base: u64, posting: Posting) -> Result<(), AllocError>
    requires { base ≤ posting.span.from }
    ensures { OnOk result (bytes.new.items ≡ bytes.old.items ++ flat_map (number_bytes 6) (span_numbers base (fields posting))) }
{
    put_number(bytes, posting.tf as u64)?;
    put_number(bytes, posting.span.from - base)?;
    put_number(bytes, posting.span.to - posting.span.from)?;
    Ok(())
}

/// What the start of a posting counts from, so many documents behind another.
fn base_behind(last: Posting, step: u32) -> u64
    ensures { result ≡ base_behind (fields last) step }
{
    if step == 0 { last.span.to } else { 0 }
}

/// Adds the postings behind another.
fn put_others(bytes: &mut Vec<u8>, last: Posting, list: &[Posting]) -> Result<(), AllocError>
    requires { IsList (last ∷ list.now) }
    ensures { OnOk result (bytes.new.items ≡ bytes.old.items
        ++ flat_map (number_bytes 6) (other_numbers (fields last) (map fields list.now))) }
{
    let mut last = last;
    let mut rest = list;
    while let Some((posting, behind)) = rest.split_first() {
        let step = posting.doc.0 - last.doc.0;
        put_number(bytes, step as u64)?;
        put_span(bytes, base_behind(last, step), *posting)?;
        last = *posting;
        rest = behind;
    }
    Ok(())
}

/// Adds the postings of a block.
fn put_inside(bytes: &mut Vec<u8>, list: &[Posting]) -> Result<(), AllocError>
    requires { IsList list.now }
    ensures { OnOk result (bytes.new.items ≡ bytes.old.items ++ inside (map fields list.now)) }
{
    match list.split_first() {
        None => Ok(()),
        Some((first, behind)) => {
            put_span(bytes, 0, *first)?;
            put_others(bytes, *first, behind)
        }
    }
}

/// Adds a block. Its postings are spelled into `buffer` first, since the header has their length.
fn put_block(bytes: &mut Vec<u8>, buffer: &mut Vec<u8>, list: &[Posting]) -> Result<(), AllocError>
    requires list { IsList list.now }
    requires some { 0 < length list.now }
    requires most { length list.now ≤ 128 }
    ensures { OnOk result (bytes.new.items ≡ bytes.old.items ++ block (map fields list.now)) }
{
    buffer.clear();
    put_inside(buffer, list)?;
    let (top, last) = summary(list);
    let head = BlockHead {
        count: list.len() as u8,
        size: buffer.len() as u16,
        top,
        first: list[0].doc,
        last: DocId(last),
    };
    bytes.extend_from_slice(&bytes_of(head))?;
    bytes.extend_from_slice(buffer)?;
    Ok(())
}

/// The postings of the next block, and those behind them.
fn split(list: &[Posting]) -> (&[Posting], &[Posting])
    ensures front { result.0.now ≡ take 128 list.now }
    ensures behind { result.1.now ≡ drop 128 list.now }
{
    list.split_at(BLOCK_POSTINGS.min(list.len()))
}

/// The bytes of a list in blocks. One pass over it.
pub fn encode_blocks(alloc: Global, list: &[Posting]) -> Result<Vec<u8>, AllocError>
    requires { IsList list.now }
    ensures { IfOk result (λ v. v.items ≡ block_spelling list.now) }
{
    let mut bytes = Vec::with_capacity(alloc, HEAD_BYTES + 8 * list.len())?;
    let mut buffer = Vec::new(alloc);
    let mut rest = list;
    while !rest.is_empty() {
        let (front, behind) = split(rest);
        put_block(&mut bytes, &mut buffer, front)?;
        rest = behind;
    }
    Ok(bytes)
}
