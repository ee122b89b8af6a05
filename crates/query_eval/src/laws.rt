//! What holds of answers by their definition, for whoever proves something over them. The functions
//! do nothing when they run.
ghost use Rattle.query_eval.specs.Laws.{EachQueryHasAnAnswer, AnAnswerIsOne, OnlyHitsMatter, OnlyWordsMatter};

/// The definition of answers leaves none out: each query has one over any documents.
pub fn each_query_has_an_answer()
    ensures { EachQueryHasAnAnswer }
{}

/// A query has one answer.
pub fn an_answer_is_one()
    ensures { AnAnswerIsOne }
{}

/// Frequencies that are the same for the query's words have one answer.
pub fn only_words_matter()
    ensures { OnlyWordsMatter }
{}

/// Where `Query::matches_without_words` is false, only the documents alive that have one of the words
/// need be given: the answer over them is the answer over all documents alive.
pub fn only_hits_matter()
    ensures { OnlyHitsMatter }
{}
