//! What is told of a sample that was carried out.
use archive_replies::Tally;
use model_archive::Verdict;

/// What came of a sample.
#[derive(Debug, Drop)]
pub struct Report {
    /// The counts over all its commands.
    pub tally: Tally,
    /// What the check told that is its last command.
    pub verdict: Verdict,
}
