//! Reading a batch and its acts.
ghost use Rattle.journal_entries.specs.Fields.{Gives};
ghost use Rattle.journal_entries.specs.Reading.{arrive_at, delete_at, act_at, act_of, sized_at, acts_at, batch_at};

use crate::act::Act;
use crate::fields::{FieldError, change_at, end_at, fault, text_at, u32_at};
use crate::plan::Listed;
use crate::plan_fields::number_in;
use crate::tags::{ARRIVE, DELETE, LEAST_ACT_BYTES, MOST_ACTS};
use std::alloc::Global;

/// An arrival, from behind its tag.
#[tactic(auto, unfolding(crate::specs::Reading::arrive_at))]
pub fn arrive_at(alloc: Global, bytes: &[u8]) -> Result<Act, FieldError>
    ensures { Gives (λ a. a) result (arrive_at bytes.now) }
{
    let (doc, at, rest) = change_at(bytes)?;
    let text = text_at(alloc, rest)?;
    Ok(Act::Arrive { doc, at, text })
}

/// A deletion, from behind its tag.
#[tactic(auto, unfolding(crate::specs::Reading::delete_at))]
pub fn delete_at(bytes: &[u8]) -> Result<Act, FieldError>
    ensures { Gives (λ a. a) result (delete_at bytes.now) }
{
    let (doc, at, rest) = change_at(bytes)?;
    end_at(rest)?;
    Ok(Act::Delete { doc, at })
}

/// An act that takes all the bytes.
#[tactic(auto, unfolding(crate::specs::Reading::act_at))]
fn act_at(alloc: Global, bytes: &[u8]) -> Result<Act, FieldError>
    ensures { Gives (λ a. a) result (act_at bytes.now) }
{
    match bytes {
        [ARRIVE, rest @ ..] => arrive_at(alloc, rest),
        [DELETE, rest @ ..] => delete_at(rest),
        _ => Err(fault(bytes)),
    }
}

/// The act that takes so many bytes, and the bytes behind it.
fn act_of(alloc: Global, len: usize, bytes: &[u8]) -> Result<(Act, &[u8]), FieldError>
    ensures { Gives (λ x. (x.0, x.1.now)) result (act_of len bytes.now) }
{
    if bytes.len() < len {
        return Err(fault(bytes));
    }
    let (front, rest) = bytes.split_at(len);
    match act_at(alloc, front) {
        Ok(act) => Ok((act, rest)),
        Err(FieldError::Memory) => Err(FieldError::Memory),
        Err(FieldError::Form { left }) => Err(FieldError::Form {
            left: left + rest.len() as u64,
        }),
    }
}

/// An act behind how many bytes it has, and the bytes behind it.
#[tactic(auto, unfolding(crate::specs::Reading::sized_at))]
fn sized_at(alloc: Global, bytes: &[u8]) -> Result<(Act, &[u8]), FieldError>
    ensures { Gives (λ x. (x.0, x.1.now)) result (sized_at bytes.now) }
{
    let (len, rest) = u32_at(bytes)?;
    act_of(alloc, len as usize, rest)
}

/// So many acts, and the bytes behind them.
fn acts_at(alloc: Global, count: u32, bytes: &[u8]) -> Result<(Listed<Act>, &[u8]), FieldError>
    ensures { Gives (λ x. (x.0, x.1.now)) result (acts_at count bytes.now) }
{
    let room = bytes.len() / LEAST_ACT_BYTES;
    let mut acts = Vec::with_capacity(alloc, room.min(count as usize))?;
    let mut rest = bytes;
    for _ in 0..count {
        let (act, behind) = sized_at(alloc, rest)?;
        acts.push(act)?;
        rest = behind;
    }
    Ok((Listed::new(acts), rest))
}

/// A batch, from behind its tag.
#[tactic(auto, unfolding(crate::specs::Reading::batch_at))]
pub fn batch_at(alloc: Global, bytes: &[u8]) -> Result<Listed<Act>, FieldError>
    ensures { Gives (λ a. a) result (batch_at bytes.now) }
{
    let (count, rest) = number_in(1, MOST_ACTS, bytes)?;
    let (acts, rest) = acts_at(alloc, count, rest)?;
    end_at(rest)?;
    Ok(acts)
}
