//! What holds of each sample. The functions do nothing when they run.
ghost use Rattle.base_sample.specs.Laws.{MinutesAreExact, SamplesAreOfFewKinds, SamplesHaveDocuments, SamplesHaveLengths};

/// A sample has nineteen commands more than changes.
pub fn samples_have_lengths()
    ensures { SamplesHaveLengths }
{}

/// The commands of a sample are changes of the documents 1 to 100, plans with a guarantee, questions
/// at a time, and checks.
pub fn samples_are_of_few_kinds()
    ensures { SamplesAreOfFewKinds }
{}

/// The documents that its commands name are numbers below 2^32.
pub fn samples_have_documents_in_range()
    ensures { SamplesHaveDocuments }
{}

/// So many minutes are 60 times as many seconds, where there is such a time.
pub fn minutes_are_exact()
    ensures { MinutesAreExact }
{}
