//! What holds of queries by their definitions, for whoever proves something over them. The functions
//! do nothing when they run.
ghost use Rattle.std.specs.Prelude.{◌≡◌, ◌≤◌, ℕ, List, Result, Ok, All, true, nat_lt};
ghost use Rattle.query_lang.specs.Chains.{asks_for_any};
ghost use Rattle.query_lang.specs.Grammar.{Query, IsRead};
ghost use Rattle.query_lang.specs.Meaning.{matches, words_of, score, weight};
ghost use Rattle.query_lang.specs.Tokens.{term_of};

/// The grammar leaves no text out, and reads none in two ways.
pub fn each_text_is_read_one_way()
    ensures total { (text : List ℕ) → (r : Result Query ℕ) × IsRead term_of text r }
    ensures one { (text : List ℕ) (r s : Result Query ℕ)
        → IsRead term_of text r → IsRead term_of text s → r ≡ s }
{}

/// Two texts in which each word of a query is as frequent are one to the query.
pub fn words_decide()
    ensures matches { (q : Query) (f g : List ℕ → ℕ) → All (λ w. f w ≡ g w) (words_of q)
        → matches q f ≡ matches q g }
    ensures score { (q : Query) (f g : List ℕ → ℕ) → All (λ w. f w ≡ g w) (words_of q)
        → score q f ≡ score q g }
{}

/// A text that asks for any of some words matches exactly where its score is above 0, since each of
/// its words weighs something.
pub fn any_is_a_score_above_0()
    ensures matches { (text : List ℕ) (q : Query) → IsRead term_of text (Ok q) → asks_for_any text ≡ true
        → (f : List ℕ → ℕ) → matches q f ≡ nat_lt 0 (score q f) }
    ensures weights { (text : List ℕ) (q : Query) → IsRead term_of text (Ok q) → asks_for_any text ≡ true
        → All (λ w. (1 ≤ weight q w) × (weight q w ≤ 1000)) (words_of q) }
{}
