//! What is noted of one command.
ghost use Rattle.std.specs.Prelude.{◌≡◌, Ok, IfOk, IsOk, IsSome, IsErrOf, ◌⊎◌, OnOk};
ghost use Rattle.archive_changes.specs.Endings.{changed, planned, unchanged};
ghost use Rattle.archive_questions.specs.Endings.{found, unanswered, verified};
ghost use Rattle.run_sample.specs.Carrying.{Tells, verdict_of};

use crate::error::FillError;
use archive_check::VerifyError;
use archive_hand::ChangeError;
use archive_questions::AskError;
use model_archive::{Refusal, Summary, Verdict};
use query_eval::Answer;

/// What is noted of one command of a sample.
#[derive(Debug, Drop)]
pub(crate) enum Note {
    /// A change was accepted, or a plan stored.
    Accepted,
    /// It was refused.
    Refused,
    /// A question was answered.
    Found {
        /// How many rows it found.
        hits: u64,
        /// How many postings were read for them.
        read: u64,
    },
    /// The archive was checked.
    Checked(Verdict),
}

impl Note {
    /// What a check told; None of any other command.
    pub(crate) fn verdict(self) -> Option<Verdict>
        ensures { result ≡ verdict_of self }
    {
        match self {
            Note::Checked(verdict) => Some(verdict),
            Note::Accepted | Note::Refused | Note::Found { .. } => None,
        }
    }
}

/// What is noted of a change.
pub(crate) fn of_change(change: Result<u64, ChangeError>) -> Result<Note, FillError>
    ensures tells { Tells (changed change) result }
    ensures fault { IsErrOf result FillError.Failed → IsErrOf change ChangeError.Failed }
    ensures live { OnOk result (IsOk change ⊎ ((why : Refusal) × IsErrOf change (ChangeError.Refused why))) }
{
    match change {
        Ok(_) => Ok(Note::Accepted),
        Err(error) => of_unchanged(error),
    }
}

/// What is noted of a plan.
pub(crate) fn of_plan(plan: Result<Summary, ChangeError>) -> Result<Note, FillError>
    ensures tells { Tells (planned plan) result }
    ensures fault { IsErrOf result FillError.Failed → IsErrOf plan ChangeError.Failed }
    ensures live { OnOk result (IsOk plan ⊎ ((why : Refusal) × IsErrOf plan (ChangeError.Refused why))) }
{
    match plan {
        Ok(_) => Ok(Note::Accepted),
        Err(error) => of_unchanged(error),
    }
}

/// What is noted of a change that was not made.
fn of_unchanged(error: ChangeError) -> Result<Note, FillError>
    ensures tells { Tells (unchanged error) result }
    ensures fault { IsErrOf result FillError.Failed → error ≡ ChangeError.Failed }
    ensures live { OnOk result ((why : Refusal) × (error ≡ ChangeError.Refused why)) }
{
    match error {
        ChangeError::Refused(_) => Ok(Note::Refused),
        ChangeError::Failed => Err(FillError::Failed),
        ChangeError::Memory => Err(FillError::Memory),
    }
}

/// What is noted of a question.
pub(crate) fn of_question(answer: Result<Answer, AskError>) -> Result<Note, FillError>
    ensures tells { Tells (found answer) result }
    ensures fault { IsErrOf result FillError.Failed → IsErrOf answer AskError.Failed }
{
    match answer {
        Ok(answer) => Ok(Note::Found {
            hits: answer.rows.len() as u64,
            read: answer.read,
        }),
        Err(error) => of_unanswered(error),
    }
}

/// What is noted of a check.
pub(crate) fn of_check(verdict: Result<Verdict, VerifyError>) -> Result<Note, FillError>
    ensures tells { Tells (verified verdict) result }
    ensures fault { IsErrOf result FillError.Failed → IsErrOf verdict VerifyError.Failed }
    ensures checked { IfOk result (λ note. IsSome (verdict_of note)) }
{
    match verdict {
        Ok(verdict) => Ok(Note::Checked(verdict)),
        Err(VerifyError::Failed) => Err(FillError::Failed),
        Err(VerifyError::Memory) => Err(FillError::Memory),
    }
}

/// What is noted of a question that was not answered.
fn of_unanswered(error: AskError) -> Result<Note, FillError>
    ensures tells { Tells (unanswered error) result }
    ensures fault { IsErrOf result FillError.Failed → error ≡ AskError.Failed }
{
    match error {
        AskError::Refused(_) => Ok(Note::Refused),
        AskError::Failed => Err(FillError::Failed),
        AskError::Damaged(damage) => Err(FillError::Damaged(damage)),
        AskError::Memory => Err(FillError::Memory),
    }
}
