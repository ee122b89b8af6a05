//! The flat layout: 24 bytes a posting, one after another.
ghost use Rattle.std.specs.Prelude.{◌≡◌, ◌++◌, ℕ, map, option_map, Ok, OnOk, IfOk, IfErr};
ghost use Rattle.pages_codec.specs.Fields.{fields, seen, may_follow};
ghost use Rattle.pages_codec.specs.Layouts.{IsFaultOf};
ghost use Rattle.pages_codec.specs.Flat.{spelled, spelling, posting_at, list_at};
ghost use Rattle.pages_codec.specs.Decoding.{OrMemory, Decodes};

use crate::error::ListError;
use crate::front::{u32_front, u64_front};
use base_types::{DocId, Posting, Span};
use std::alloc::{AllocError, Global};

/// The bytes of a posting: document 4, frequency 4, from 8, to 8.
pub const POSTING_BYTES: usize = 24;

/// Whether a posting of this document and start may stand behind the one before it.
fn follows(before: Option<Posting>, doc: u32, span: Span) -> bool
    ensures { (tf : ℕ) → result ≡ may_follow (seen before) (record { doc = doc; tf = tf; from = span.from; to = span.to }) }
{
    match before {
        None => true,
        Some(last) => last.doc.0 < doc || (last.doc.0 == doc && last.span.to <= span.from),
    }
}

/// A posting that may stand behind the one before it, and the bytes behind it.
#[tactic(auto, unfolding(crate::specs::Flat::posting_at))]
fn posting_at(before: Option<Posting>, bytes: &[u8]) -> Option<(Posting, &[u8])>
    ensures { option_map (λ x. (fields x.0, x.1.now)) result ≡ posting_at (seen before) bytes.now }
{
    if bytes.len() < POSTING_BYTES {
        return None;
    }
    let (doc, rest) = u32_front(bytes);
    let (tf, rest) = u32_front(rest);
    let (from, rest) = u64_front(rest);
    let (to, rest) = u64_front(rest);
    let Some(span) = Span::new(from, to) else {
        return None;
    };
    if tf < 1 || !follows(before, doc, span) {
        return None;
    }
    let posting = Posting {
        doc: DocId(doc),
        span,
        tf,
    };
    Some((posting, rest))
}

/// The postings that the bytes spell.
fn list_at(alloc: Global, bytes: &[u8]) -> Result<Vec<Posting>, ListError>
    ensures found { IfOk result (λ v. list_at bytes.now ≡ Ok (map fields v.items)) }
    ensures fault { IfErr result (OrMemory (IsFaultOf list_at bytes.now)) }
{
    let mut list = Vec::with_capacity(alloc, bytes.len() / POSTING_BYTES)?;
    let mut before = None;
    let mut rest = bytes;
    while !rest.is_empty() {
        let Some((posting, behind)) = posting_at(before, rest) else {
            return Err(ListError::Form {
                at: (bytes.len() - rest.len()) as u64,
            });
        };
        list.push(posting)?;
        before = Some(posting);
        rest = behind;
    }
    Ok(list)
}

/// Writes the bytes of a posting behind the others.
fn put_posting(bytes: &mut Vec<u8>, posting: Posting) -> Result<(), AllocError>
    ensures { OnOk result (bytes.new.items ≡ bytes.old.items ++ spelled (fields posting)) }
{
    bytes.extend_from_slice(&posting.doc.0.to_be_bytes())?;
    bytes.extend_from_slice(&posting.tf.to_be_bytes())?;
    bytes.extend_from_slice(&posting.span.from.to_be_bytes())?;
    bytes.extend_from_slice(&posting.span.to.to_be_bytes())?;
    Ok(())
}

/// The bytes of a list. One pass over it.
pub fn encode_list(alloc: Global, list: &[Posting]) -> Result<Vec<u8>, AllocError>
    ensures { IfOk result (λ v. v.items ≡ spelling list.now) }
{
    let mut bytes = Vec::with_capacity(alloc, list.len() * POSTING_BYTES)?;
    for posting in list {
        put_posting(&mut bytes, *posting)?;
    }
    Ok(bytes)
}

/// The list that bytes spell. One pass over them.
pub fn decode_list(alloc: Global, bytes: &[u8]) -> Result<Vec<Posting>, ListError>
    ensures { Decodes spelling list_at bytes.now result }
{
    list_at(alloc, bytes)
}
