//! What holds of answers over a window by their definition, for whoever proves something over them.
//! The functions do nothing when they run.
ghost use Rattle.query_eval.specs.SpanLaws.{ASpanAnswerIsOne, EachWindowHasAnAnswer, HitsAreMet, OnlyHitsMatterOver, SpanRowsAreTheLongest};

/// A query has one answer over a window.
pub fn a_span_answer_is_one()
    ensures { ASpanAnswerIsOne }
{}

/// The definition of answers leaves no window out: where no document from some number on is ever
/// alive, there is one.
pub fn each_window_has_an_answer()
    ensures { EachWindowHasAnAnswer }
{}

/// The rows are the longest stretches of one score, and no other.
pub fn span_rows_are_the_longest()
    ensures { SpanRowsAreTheLongest }
{}

/// A document that has one of the words at a time of a window, by the parts that were answered for
/// them, has a posting in the window.
pub fn hits_are_met()
    ensures { HitsAreMet }
{}

/// Where a text that has none of the words doesn't match, only documents with one of them matter at
/// each time of a window.
pub fn only_hits_matter_over()
    ensures { OnlyHitsMatterOver }
{}
