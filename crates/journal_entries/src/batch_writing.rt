//! Spelling a batch, act by act.
ghost use Rattle.std.specs.Prelude.{◌≡◌, ◌≤◌, ◌∷◌, ◌++◌, length, OnOk, IfOk};
ghost use Rattle.std.specs.Int.{w32, w64, to_be_bytes};
ghost use Rattle.journal_entries.specs.declared.act.Act.TheVariants as acts;
ghost use Rattle.journal_entries.specs.Acts.{act_bytes, batch_front, IsAct};

use crate::tags::{ARRIVE, BATCH, BATCH_FRONT_BYTES, CHANGE_BYTES, DELETE};
use crate::text::MOST_TEXT_BYTES;
use base_types::{DocId, Time};
use std::alloc::{AllocError, Global};

/// What stands in front of the acts of a batch of so many, with room for as many bytes of acts.
pub fn begin_batch(alloc: Global, count: u32, room: usize) -> Result<Vec<u8>, AllocError>
    ensures { IfOk result (λ v. v.items ≡ batch_front count) }
{
    let mut out = Vec::with_capacity(alloc, room.saturating_add(BATCH_FRONT_BYTES))?;
    out.push(BATCH)?;
    out.extend_from_slice(&count.to_be_bytes())?;
    Ok(out)
}

/// Adds a number of 4 bytes.
fn put_number(out: &mut Vec<u8>, number: u32) -> Result<(), AllocError>
    ensures { OnOk result (out.new.items ≡ out.old.items ++ to_be_bytes w32 number) }
{
    out.extend_from_slice(&number.to_be_bytes())?;
    Ok(())
}

/// Adds the tag of a change, its document and its time.
fn put_change(out: &mut Vec<u8>, tag: u8, doc: DocId, at: Time) -> Result<(), AllocError>
    ensures { OnOk result (out.new.items ≡ out.old.items ++ tag ∷ (to_be_bytes w32 doc.0 ++ to_be_bytes w64 at.seconds)) }
{
    out.push(tag)?;
    out.extend_from_slice(&doc.0.to_be_bytes())?;
    out.extend_from_slice(&at.seconds().to_be_bytes())?;
    Ok(())
}

/// Adds an arrival to the acts of a batch. Costs the text's length; the text is copied once.
pub fn put_arrival(out: &mut Vec<u8>, doc: DocId, at: Time, text: &str) -> Result<(), AllocError>
    requires { length text.now ≤ MOST_TEXT_BYTES }
    ensures in_range { IsAct (acts.Arrive doc at text.now) }
    ensures added { OnOk result (out.new.items ≡ out.old.items ++ act_bytes (acts.Arrive doc at text.now)) }
{
    put_number(out, (CHANGE_BYTES + text.len()) as u32)?;
    put_change(out, ARRIVE, doc, at)?;
    out.extend_from_slice(text.as_bytes())?;
    Ok(())
}

/// Adds a deletion to the acts of a batch. Constant cost on average.
pub fn put_deletion(out: &mut Vec<u8>, doc: DocId, at: Time) -> Result<(), AllocError>
    ensures in_range { IsAct (acts.Delete doc at) }
    ensures added { OnOk result (out.new.items ≡ out.old.items ++ act_bytes (acts.Delete doc at)) }
{
    put_number(out, CHANGE_BYTES as u32)?;
    put_change(out, DELETE, doc, at)
}
