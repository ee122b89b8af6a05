//! What holds of runs over the commands of samples, whatever is called.
ghost use Rattle.run_sample.specs.Laws.{ReportsAreOne, RunsHaveReports};

/// A run of the abstract archive over the commands of a sample has a report, and one only. Does
/// nothing.
pub fn runs_of_samples_have_one_report()
    ensures report { RunsHaveReports }
    ensures one { ReportsAreOne }
{}
