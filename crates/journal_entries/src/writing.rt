//! Spelling an entry.
ghost use Rattle.std.specs.Prelude.{◌≡◌, ◌<◌, ◌≤◌, ◌^◌, length, IfOk};
ghost use Rattle.journal_entries.specs.declared.entry.Entry.TheVariants.{Arrive, Delete, Format};
ghost use Rattle.journal_entries.specs.Spelling.{spelling, IsEntry};

use crate::tags::{ARRIVE, CHANGE_BYTES, DELETE, FORMAT, FORMAT_BYTES, FORMAT_NUMBER};
use crate::text::MOST_TEXT_BYTES;
use base_types::{DocId, Time};
use std::alloc::{AllocError, Global};

/// The spelling of an arrival. Costs the text's length; the text is copied once.
pub fn encode_arrival(
    alloc: Global,
    doc: DocId,
    at: Time,
    text: &str,
) -> Result<Vec<u8>, AllocError>
    requires { length text.now ≤ MOST_TEXT_BYTES }
    ensures in_range { IsEntry (Arrive doc at text.now) }
    ensures spelled { IfOk result (λ v. v.items ≡ spelling (Arrive doc at text.now)) }
    ensures at_least { IfOk result (λ v. 13 ≤ length v.items) }
    ensures at_most { IfOk result (λ v. length v.items < 2 ^ 32) }
{
    let mut out = Vec::with_capacity(alloc, CHANGE_BYTES + text.len())?;
    out.push(ARRIVE)?;
    out.extend_from_slice(&doc.0.to_be_bytes())?;
    out.extend_from_slice(&at.seconds().to_be_bytes())?;
    out.extend_from_slice(text.as_bytes())?;
    Ok(out)
}

/// The spelling of a deletion, of 13 bytes. Constant cost.
pub fn encode_deletion(alloc: Global, doc: DocId, at: Time) -> Result<Vec<u8>, AllocError>
    ensures in_range { IsEntry (Delete doc at) }
    ensures spelled { IfOk result (λ v. v.items ≡ spelling (Delete doc at)) }
    ensures len { IfOk result (λ v. length v.items ≡ 13) }
{
    let mut out = Vec::with_capacity(alloc, CHANGE_BYTES)?;
    out.push(DELETE)?;
    out.extend_from_slice(&doc.0.to_be_bytes())?;
    out.extend_from_slice(&at.seconds().to_be_bytes())?;
    Ok(out)
}

/// The spelling of the mark, of 3 bytes. Constant cost.
pub fn encode_format(alloc: Global) -> Result<Vec<u8>, AllocError>
    ensures spelled { IfOk result (λ v. v.items ≡ spelling Format) }
    ensures len { IfOk result (λ v. length v.items ≡ 3) }
{
    let mut out = Vec::with_capacity(alloc, FORMAT_BYTES)?;
    out.push(FORMAT)?;
    out.extend_from_slice(&FORMAT_NUMBER.to_be_bytes())?;
    Ok(out)
}
