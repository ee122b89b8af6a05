//! What the definitions of runs, keys and counts tell. Nothing here runs.
ghost use Rattle.std.specs.Prelude.{◌≡◌, ◌↔◌, ◌<◌, ◌≤◌, length, ◌++◌, ◌∷◌, ℕ, List, true, false, Some, None, if◌then◌else◌, map, nat_eq, slice_get, All};
ghost use Rattle.std.specs.List.{list_all, list_any, IsDistinct};
ghost use Rattle.std.specs.Map.{lookup};
ghost use Rattle.std.specs.Option.{option_map_or};
ghost use Rattle.std.specs.Str.{bytes_eq};
ghost use Rattle.caseless.specs.Caseless.{IsCanonicalMatch};
ghost use Rattle.text_words.specs.Terms.{is_term, closed, runs, key, is_key, term_of, keys, occurrences};
ghost use Rattle.text_words.specs.Words.{with_all, distinct, counted, fresh_of, weights_of, weight_at};

/// The runs of a text are its maximal stretches of letters, marks and numbers: such characters
/// alone are one run, and any other character parts the runs before it from those behind it.
pub fn runs_are_maximal_stretches()
    ensures stretch { (run : List ℕ) → list_all is_term run ≡ true → runs run ≡ closed run }
    ensures parted { (before after : List ℕ) (c : ℕ) → is_term c ≡ false
        → runs (before ++ c ∷ after) ≡ runs before ++ runs after }
{}

/// Two runs have one key exactly where they match without regard to case, by Unicode's definition
/// of canonical caseless matching (The Unicode Standard, D145); and so, where both are terms, they
/// are one term exactly then.
pub fn keys_match_without_case()
    ensures keys { (one other : List ℕ) → ((key one ≡ key other) ↔ IsCanonicalMatch one other) }
    ensures terms { (one other : List ℕ) → is_key (key one) ≡ true → is_key (key other) ≡ true
        → ((term_of one ≡ term_of other) ↔ IsCanonicalMatch one other) }
{}

/// The distinct keys of a list are its keys, each once; and those of a front of the list come
/// first, so that they stand in the order of first occurrence.
pub fn distinct_keys_stand_in_order()
    ensures same { (word : List ℕ) (found : List (List ℕ))
        → list_any (bytes_eq word) (distinct found) ≡ list_any (bytes_eq word) found }
    ensures once { (found : List (List ℕ)) → IsDistinct bytes_eq (distinct found) }
    ensures order { (front back : List (List ℕ))
        → (rest : List (List ℕ)) × (distinct (front ++ back) ≡ distinct front ++ rest) }
{}

/// A text's counts say of each word how often it occurs.
pub fn counts_are_frequencies()
    ensures { (word text : List ℕ) → lookup (bytes_eq word) (counted (keys text))
        ≡ (if list_any (bytes_eq word) (keys text) then Some (occurrences word text) else None) }
{}

/// A word occurs at most once a byte of the text, whatever the bytes are. So how often it occurs in
/// a text of fewer than 2^32 bytes is below 2^32.
pub fn a_word_occurs_at_most_once_a_byte()
    ensures { (word text : List ℕ) → occurrences word text ≤ length text }
{}

/// The fresh words of a text are what a vocabulary lacks of it: with them alone it has the words
/// that it would have with all the text's words. They stand behind the words that it had, in the
/// order of first occurrence, and so the first of them gets the number that is the count of those.
pub fn fresh_words_get_the_next_numbers()
    ensures all { (words : List (List ℕ)) (text : List ℕ)
        → with_all words (map (λ p. p.0) (fresh_of words (counted (keys text)))) ≡ with_all words (keys text) }
    ensures behind { (words : List (List ℕ)) (text : List ℕ)
        → with_all words (keys text) ≡ words ++ map (λ p. p.0) (fresh_of words (counted (keys text))) }
{}

/// The counts of the words that a vocabulary knows, and behind them those of the fresh words by the
/// next numbers, say of each number how often its word occurs in the text, when the fresh words
/// are in the vocabulary; no number stands twice, and none stands there for a word that doesn't
/// occur.
pub fn weights_are_frequencies()
    ensures each { (words : List (List ℕ)) (text : List ℕ) (n : ℕ) → IsDistinct bytes_eq words
        → weight_at n (weights_of words (counted (keys text)))
        ≡ option_map_or (λ word. occurrences word text) (slice_get (with_all words (keys text)) n) 0 }
    ensures once { (words : List (List ℕ)) (text : List ℕ)
        → IsDistinct nat_eq (map (λ p. p.0) (weights_of words (counted (keys text)))) }
    ensures occur { (words : List (List ℕ)) (text : List ℕ)
        → All (λ p. (p.0 < length (with_all words (keys text))) × (1 ≤ p.1)) (weights_of words (counted (keys text))) }
{}
