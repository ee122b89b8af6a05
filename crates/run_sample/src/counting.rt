//! Counting what comes of commands.
ghost use Rattle.std.specs.Prelude.{◌≡◌, ◌+◌, [], ◌∷◌, ◌++◌, List, Ok, IfOk, IfErr};
ghost use Rattle.model_archive.specs.Steps.{Reply};
ghost use Rattle.archive_replies.specs.Tallies.{tally_of};
ghost use Rattle.run_sample.specs.Carrying.{IsTold};

use crate::error::FillError;
use crate::note::Note;
use archive_replies::Tally;

/// The counts over no command.
pub(crate) const NOTHING: Tally = Tally {
    accepted: 0,
    refused: 0,
    hits: 0,
    read: 0,
};

/// The counts with the note of one command more. It is `Memory` where a count would pass
/// 2^64 - 1. Constant cost.
pub(crate) fn with_note(tally: Tally, note: &Note) -> Result<Tally, FillError>
    ensures counts { (replies : List Reply) (reply : Reply) → tally ≡ tally_of replies → IsTold reply (Ok note.now)
        → IfOk result (λ t. t ≡ tally_of (replies ++ reply ∷ [])) }
    ensures full { IfErr result (λ error. error ≡ FillError.Memory) }
{
    match note {
        Note::Accepted => Ok(Tally {
            accepted: sum(tally.accepted, 1)?,
            ..tally
        }),
        Note::Refused => Ok(Tally {
            refused: sum(tally.refused, 1)?,
            ..tally
        }),
        Note::Found { hits, read } => Ok(Tally {
            hits: sum(tally.hits, *hits)?,
            read: sum(tally.read, *read)?,
            ..tally
        }),
        Note::Checked(_) => Ok(tally),
    }
}

/// A sum of counts.
fn sum(count: u64, more: u64) -> Result<u64, FillError>
    ensures sum { IfOk result (λ n. n ≡ count + more) }
    ensures full { IfErr result (λ error. error ≡ FillError.Memory) }
{
    match count.checked_add(more) {
        Some(sum) => Ok(sum),
        None => Err(FillError::Memory),
    }
}
