//! Reading an entry.
ghost use Rattle.std.specs.Prelude.{◌≡◌, ℕ, IfOk};
ghost use Rattle.journal_entries.specs.declared.entry.Entry.{Entry};
ghost use Rattle.journal_entries.specs.Spelling.{spelling, IsEntry};
ghost use Rattle.journal_entries.specs.Reading.{format_at, entry_at};
ghost use Rattle.journal_entries.specs.Fields.{Gives};
ghost use Rattle.journal_entries.specs.Decoding.{IsReadAs};
ghost use Rattle.journal_entries.specs.Faults.{IsFault};

use crate::act::alone;
use crate::batch_reading::{arrive_at, batch_at, delete_at};
use crate::entry::Entry;
use crate::error::CodecError;
use crate::fields::{FieldError, end_at, fault, u16_at};
use crate::plan_reading::plan_at;
use crate::tags::{ARRIVE, BATCH, DELETE, FORMAT, FORMAT_NUMBER, PLANNED};
use std::alloc::Global;

#[tactic(auto, unfolding(crate::specs::Reading::format_at))]
fn format_at(bytes: &[u8]) -> Result<Entry, FieldError>
    ensures { Gives (λ e. e) result (format_at bytes.now) }
{
    let (number, rest) = u16_at(bytes)?;
    if number != FORMAT_NUMBER {
        return Err(fault(bytes));
    }
    end_at(rest)?;
    Ok(Entry::Format)
}

#[tactic(auto, unfolding(crate::specs::Reading::entry_at))]
fn entry_at(alloc: Global, bytes: &[u8]) -> Result<Entry, FieldError>
    ensures { Gives (λ e. e) result (entry_at bytes.now) }
{
    match bytes {
        [ARRIVE, rest @ ..] => Ok(alone(arrive_at(alloc, rest)?)),
        [DELETE, rest @ ..] => Ok(alone(delete_at(rest)?)),
        [PLANNED, rest @ ..] => Ok(Entry::Planned(plan_at(alloc, rest)?)),
        [BATCH, rest @ ..] => Ok(Entry::Batch(batch_at(alloc, rest)?)),
        [FORMAT, rest @ ..] => format_at(rest),
        _ => Err(fault(bytes)),
    }
}

/// The entry that a body spells. Costs the body's length; a text is copied once.
pub fn decode(alloc: Global, body: &[u8]) -> Result<Entry, CodecError>
    // What is read is spelled so.
    ensures found { IfOk result (λ e. IsEntry e × (body.now ≡ spelling e)) }
    // What is spelled so is read, unless memory ran out.
    ensures only { (e : Entry) → IsEntry e → body.now ≡ spelling e → IsReadAs e result }
    // Where a place is named, no entry is spelled, and that is where the bytes are at fault.
    ensures fault { (at : ℕ) → result ≡ Err (CodecError.Form at) → IsFault body.now at }
{
    match entry_at(alloc, body) {
        Ok(entry) => Ok(entry),
        Err(FieldError::Memory) => Err(CodecError::Memory),
        Err(FieldError::Form { left }) => Err(CodecError::Form {
            at: body.len() as u64 - left,
        }),
    }
}
