//! The words of texts, how often they occur, their numbers, and texts weighed by them.
ghost use Rattle.std.specs.Prelude.{◌≡◌, ◌∷◌, [], IfOk};

use crate::tests::given::{expect_same, expect_same_in};
use crate::tests::in_words::{beside, counted, owned};
use base_types::{Key, WordId};
use std::alloc::{AllocError, Global};
use std::process::Abort;
use text_words::{NumberError, Places, Vocabulary, Weighed, one_term};

/// Shows a term with its count behind those that are shown.
fn show(rt: &impl Abort, alloc: Global, out: &mut String, term: &str, count: u32) {
    let shown = counted(rt, alloc, term, u64::from(count));
    out.push_str(shown.as_str()).expect(rt, "memory");
    out.push_str(", ").expect(rt, "memory");
}

/// The digits of a number.
fn digits(rt: &impl Abort, alloc: Global, number: u32) -> String {
    format!(in alloc; "{number}").expect(rt, "memory")
}

/// Shows a word that has a number by it, with its count.
fn show_number(rt: &impl Abort, alloc: Global, out: &mut String, number: u32, count: u32) {
    show(rt, alloc, out, digits(rt, alloc, number).as_str(), count);
}

/// What is weighed as a text: the words that have a number by it, and then the others, each with its count
/// behind it.
fn told(rt: &impl Abort, alloc: Global, found: &Weighed) -> String {
    let mut out = String::new(alloc);
    for (number, count) in &found.known {
        show_number(rt, alloc, &mut out, *number, *count);
    }
    for (key, count) in &found.fresh {
        show(rt, alloc, &mut out, key.as_str(), *count);
    }
    out
}

/// A text weighed by a vocabulary.
fn weighed(
    rt: &impl Abort,
    alloc: Global,
    vocabulary: &Vocabulary,
    places: &mut Places,
    text: &str,
) -> Weighed {
    assert!(rt; text.len() < 4294967296);
    vocabulary.weigh(alloc, places, text).expect(rt, "memory")
}

/// The terms of a text as a text, each with its count behind it, by a vocabulary without words.
fn shown(rt: &impl Abort, alloc: Global, text: &str) -> String {
    let vocabulary = numbered(rt, alloc, &[]);
    let mut places = Places::new(alloc);
    told(
        rt,
        alloc,
        &weighed(rt, alloc, &vocabulary, &mut places, text),
    )
}

/// Asserts of each row that the terms of its first text are shown as the second.
fn assert_terms(rt: &impl Abort, alloc: Global, rows: &[(&str, &str)]) {
    for (text, wanted) in rows {
        let found = shown(rt, alloc, text);
        expect_same_in(rt, text, found.as_str(), *wanted);
    }
}

/// A text so many times over.
fn repeated(rt: &impl Abort, alloc: Global, text: &str, times: usize) -> String {
    let mut out = String::new(alloc);
    for _ in 0..times {
        out.push_str(text).expect(rt, "memory");
    }
    out
}

/// Texts and their terms.
///
/// What is wanted is from Python 3.11: `unicodedata.normalize('NFD', ..)` and `str.casefold`, over
/// the runs by `unicodedata.category`.
const TERMS: [(&str, &str); 21] = [
    ("", ""),
    ("e-mail", "e 1, mail 1, "),
    ("snake_case don't", "snake 1, case 1, don 1, t 1, "),
    ("To be, or not to be", "to 2, be 2, or 1, not 1, "),
    ("Straße STRASSE Strasse", "strasse 3, "),
    ("ẞ ß", "ss 2, "),
    ("\u{e9} e\u{301} \u{c9}", "e\u{301} 3, "),
    ("A\u{30a} \u{c5} \u{212b}", "a\u{30a} 3, "),
    ("ΣΊΣΥΦΟΣ Σίσυφος ς σ", "σι\u{301}συφοσ 2, σ 2, "),
    ("\u{390} \u{1fd3}", "\u{3b9}\u{308}\u{301} 2, "),
    ("ı i I İ", "ı 1, i 2, i\u{307} 1, "),
    ("\u{212a} k K", "k 3, "),
    (
        "\u{ac01} \u{1100}\u{1161}\u{11a8}",
        "\u{1100}\u{1161}\u{11a8} 2, ",
    ),
    ("q\u{307}\u{323} q\u{323}\u{307}", "q\u{323}\u{307} 2, "),
    ("\u{663} 3 \u{969}", "\u{663} 1, 3 1, \u{969} 1, "),
    ("Ⅷ ⅷ ½", "ⅷ 2, ½ 1, "),
    ("ﬁne FINE", "fine 2, "),
    ("\u{1c6} \u{1c4} \u{1c5}", "\u{1c6} 3, "),
    ("\u{e000} \u{378} x\u{e000}y", "x 1, y 1, "),
    ("\u{1f469}\u{1f3fd}\u{200d}\u{1f680}", ""),
    ("\u{2764}\u{fe0f}", "\u{fe0f} 1, "),
];

#[test]
fn terms_are_those_of_unicode(rt: HostRuntime) {
    assert_terms(&rt, rt.alloc(), &TERMS);
}

/// Texts in eight scripts and their terms.
///
/// What is wanted is written down from the Unicode Character Database: categories, canonical
/// decompositions and combining classes from UnicodeData.txt, folds from the lines C and F of
/// CaseFolding.txt, and Hangul syllables by section 3.12 of The Unicode Standard.
const TERMS_OF_SCRIPTS: [(&str, &str); 10] = [
    ("Straße İSTANBUL", "strasse 1, i\u{307}stanbul 1, "),
    ("\u{1e9b}\u{323} \u{1c5}", "s\u{323}\u{307} 1, \u{1c6} 1, "),
    ("ΌΔΟΣ, όδος", "ο\u{301}δοσ 2, "),
    ("ЁЖ Ёж; Йод", "е\u{308}ж 2, и\u{306}од 1, "),
    ("\u{622}\u{628}", "\u{627}\u{653}\u{628} 1, "),
    (
        "\u{628}\u{651}\u{64e} \u{628}\u{64e}\u{651}",
        "\u{628}\u{64e}\u{651} 2, ",
    ),
    ("\u{958}लम हिन्दी", "\u{915}\u{93c}लम 1, हिन्दी 1, "),
    (
        "\u{d55c}\u{ae00}",
        "\u{1112}\u{1161}\u{11ab}\u{1100}\u{1173}\u{11af} 1, ",
    ),
    ("漢字、\u{f900}", "漢字 1, \u{8c48} 1, "),
    ("1\u{fe0f}\u{20e3} \u{1f600}", "1\u{fe0f}\u{20e3} 1, "),
];

#[test]
fn terms_of_eight_scripts(rt: HostRuntime) {
    assert_terms(&rt, rt.alloc(), &TERMS_OF_SCRIPTS);
}

/// How often the first word that has a number occurs.
fn first_count(found: &Weighed) -> u32 {
    match found.known.first() {
        Some((_, count)) => *count,
        None => 0,
    }
}

/// How often the word occurs in the text, by a vocabulary that has it alone.
fn times(rt: &impl Abort, alloc: Global, word: &str, text: &str) -> u32 {
    let vocabulary = numbered(rt, alloc, &[word]);
    expect_same(rt, vocabulary.len(), 1);
    let mut places = Places::new(alloc);
    first_count(&weighed(rt, alloc, &vocabulary, &mut places, text))
}

/// A word, a text, and how often the word occurs in it: from Python 3.11, as above.
const OCCURRENCES: [(&str, &str, u32); 9] = [
    ("red", "Red, red; RED reddish", 3),
    ("red", "", 0),
    ("red", "infrared", 0),
    ("red", "blue red", 1),
    ("straße", "Straße STRASSE Strasse ss", 3),
    ("ς", "ΣΊΣΥΦΟΣ Σίσυφος ς σ", 2),
    ("\u{e9}", "\u{e9} e\u{301} \u{c9} e", 3),
    ("k", "\u{212a} k K kk", 3),
    ("t", "e-mail snake_case don't T", 2),
];

/// The word occurs so often in the text.
fn expect_times(rt: &impl Abort, alloc: Global, (word, text, wanted): (&str, &str, u32)) {
    let found = times(rt, alloc, word, text);
    expect_same_in(rt, (word, text), found, wanted);
}

#[test]
fn occurrences_are_runs_of_the_same_key(rt: HostRuntime) {
    for row in &OCCURRENCES {
        expect_times(&rt, rt.alloc(), *row);
    }
    // beside a run that is no term
    let mut text = repeated(&rt, rt.alloc(), "a", 256);
    text.push_str(" a").expect(&rt, "memory");
    expect_times(&rt, rt.alloc(), ("a", text.as_str(), 1));
}

/// What is repeated and how often, and whether that is a term. By UnicodeData.txt U+0390 decomposes into
/// three characters of two bytes each.
const LONG_RUNS: [(&str, usize, bool); 7] = [
    ("a", 255, true),
    ("a", 256, false),
    ("あ", 85, true),
    ("あ", 86, false),
    ("\u{390}", 42, true),
    ("\u{390}", 43, false),
    ("a", 1 << 20, false),
];

/// Whether a text is one term alone.
fn is_term(rt: &impl Abort, alloc: Global, text: &str) -> bool {
    one_term(alloc, text).expect(rt, "memory").is_some()
}

/// So long a run is a term, or none.
fn expect_run(rt: &impl Abort, alloc: Global, (unit, times, found): (&str, usize, bool)) {
    let text = repeated(rt, alloc, unit, times);
    let alone = is_term(rt, alloc, text.as_str());
    expect_same_in(rt, (unit, times), alone, found);
    let shown = shown(rt, alloc, text.as_str());
    expect_same_in(rt, (unit, times), !shown.is_empty(), found);
}

#[test]
fn long_runs_are_no_terms(rt: HostRuntime) {
    for row in &LONG_RUNS {
        expect_run(&rt, rt.alloc(), *row);
    }
    let text = repeated(&rt, rt.alloc(), "a ", 1 << 19);
    assert_terms(&rt, rt.alloc(), &[(text.as_str(), "a 524288, ")]);
}

/// Texts and the only term of each; nothing where there is none, or more.
const ONE_TERM: [(&str, &str); 5] = [
    ("", ""),
    ("e-mail", ""),
    (" Straße! ", "strasse"),
    ("...", ""),
    ("word", "word"),
];

/// The text has this one term alone, or else nothing is wanted.
fn expect_one_term(rt: &impl Abort, alloc: Global, (text, wanted): (&str, &str)) {
    let term = one_term(alloc, text).expect(rt, "memory");
    let found = match &term {
        Some(key) => key.as_str(),
        None => "",
    };
    expect_same_in(rt, text, found, wanted);
}

#[test]
fn one_term_is_the_only_run(rt: HostRuntime) {
    for row in &ONE_TERM {
        expect_one_term(&rt, rt.alloc(), *row);
    }
    // two runs, of which one is no term
    let mut text = repeated(&rt, rt.alloc(), "a", 256);
    text.push_str(" word").expect(&rt, "memory");
    expect_one_term(&rt, rt.alloc(), (text.as_str(), ""));
}

/// A list of the key alone.
fn alone(alloc: Global, key: &Key) -> Result<Vec<Key>, AllocError>
    ensures { IfOk result (λ keys. keys.items ≡ key.now ∷ []) }
{
    let mut keys = Vec::new(alloc);
    keys.push(key.clone()?)?;
    Ok(keys)
}

/// The number of the text's only term, made where it has none.
fn number(
    alloc: Global,
    vocabulary: &mut Vocabulary,
    text: &str,
) -> Result<Option<WordId>, NumberError> {
    let Some(key) = one_term(alloc, text)? else {
        return Ok(None);
    };
    let keys = alone(alloc, &key)?;
    vocabulary.reserve(&keys)?;
    Ok(Some(vocabulary.number(key)))
}

/// Texts in turn, and the number of the only term of each.
const NUMBERS: [(&str, Option<u32>); 6] = [
    ("To", Some(0)),
    ("be", Some(1)),
    ("TO", Some(0)),
    ("or not", None),
    ("or", Some(2)),
    ("Be", Some(1)),
];

/// The text's only term has this number, made where it has none.
fn expect_number(
    rt: &impl Abort,
    alloc: Global,
    vocabulary: &mut Vocabulary,
    (text, wanted): (&str, Option<u32>),
) {
    let found = number(alloc, vocabulary, text).expect(rt, "room");
    expect_same_in(rt, text, found.map(|id| id.number()), wanted);
}

/// The number of a word, where it has one.
fn expect_found(
    rt: &impl Abort,
    alloc: Global,
    vocabulary: &Vocabulary,
    word: &str,
    wanted: Option<WordId>,
) {
    let key = one_term(alloc, word).expect(rt, "memory");
    let key = key.expect(rt, "a term");
    expect_same_in(rt, word, vocabulary.find(&key), wanted);
}

#[test]
fn words_are_numbered_in_the_order_in_which_they_come(rt: HostRuntime) {
    let alloc = rt.alloc();
    let mut vocabulary = Vocabulary::new(alloc).expect(&rt, "memory");
    for row in &NUMBERS {
        expect_number(&rt, alloc, &mut vocabulary, *row);
    }
    expect_same(&rt, vocabulary.len(), 3);
    let id = WordId::new(2).expect(&rt, "a number");
    expect_word(&rt, &vocabulary, id, "or");
    expect_found(&rt, alloc, &vocabulary, "OR", Some(id));
    expect_found(&rt, alloc, &vocabulary, "not", None);
}

/// The word of a number is this.
fn expect_word(rt: &impl Abort, vocabulary: &Vocabulary, id: WordId, word: &str) {
    assert!(rt; id.number() < vocabulary.len());
    expect_same(rt, vocabulary.word(id).as_str(), word);
}

/// Adds a term to a vocabulary.
fn add(rt: &impl Abort, alloc: Global, vocabulary: &mut Vocabulary, term: &str) {
    let _ = number(alloc, vocabulary, term).expect(rt, "room");
}

/// A vocabulary of these terms, in order.
fn numbered(rt: &impl Abort, alloc: Global, terms: &[&str]) -> Vocabulary {
    let mut vocabulary = Vocabulary::new(alloc).expect(rt, "memory");
    for term in terms {
        add(rt, alloc, &mut vocabulary, term);
    }
    vocabulary
}

/// Asserts of each row that its first text is weighed as the second.
fn assert_weights(
    rt: &impl Abort,
    alloc: Global,
    vocabulary: &Vocabulary,
    places: &mut Places,
    rows: &[(&str, &str)],
) {
    for (text, wanted) in rows {
        let found = told(rt, alloc, &weighed(rt, alloc, vocabulary, places, text));
        expect_same_in(rt, text, found.as_str(), *wanted);
    }
}

#[test]
fn words_are_weighed_by_number_or_by_key(rt: HostRuntime) {
    let alloc = rt.alloc();
    let vocabulary = numbered(&rt, alloc, &["be", "or", "\u{e9}"]);
    let mut places = Places::new(alloc);
    let rows = [
        ("", ""),
        ("To be, or not to be", "0 2, 1 1, to 2, not 1, "),
        ("E\u{301} Be \u{c9} NOT bE", "2 2, 0 2, not 1, "),
        ("or", "1 1, "),
    ];
    assert_weights(&rt, alloc, &vocabulary, &mut places, &rows);
}

/// The word `w` with a number behind it, and a space.
fn word_at(rt: &impl Abort, alloc: Global, at: u32) -> String {
    let mut word = owned(rt, alloc, "w");
    let digits = digits(rt, alloc, at);
    word.push_str(digits.as_str()).expect(rt, "memory");
    word.push_str(" ").expect(rt, "memory");
    word
}

/// Adds the words `w0`, `w1` and so on to a vocabulary, so many, and gives the text of them.
fn numbered_text(
    rt: &impl Abort,
    alloc: Global,
    vocabulary: &mut Vocabulary,
    words: u32,
) -> String {
    let mut text = String::new(alloc);
    for at in 0..words {
        let word = word_at(rt, alloc, at);
        add(rt, alloc, vocabulary, word.as_str());
        text.push_str(word.as_str()).expect(rt, "memory");
    }
    text
}

/// So many words have each its own number, in order, and a count of 2.
fn expect_own_numbers(rt: &impl Abort, found: &Weighed, words: u32) {
    expect_same(
        rt,
        (found.known.len(), found.fresh.len()),
        (words as usize, 0),
    );
    for (place, (number, count)) in found.known.iter().enumerate() {
        expect_same(rt, (*number as usize, *count), (place, 2));
    }
}

/// Asserts that so many words that stand twice in a text are weighed each by its own number.
fn assert_own_numbers(rt: &impl Abort, alloc: Global, words: u32) {
    let mut vocabulary = numbered(rt, alloc, &[]);
    let text = numbered_text(rt, alloc, &mut vocabulary, words);
    let text = repeated(rt, alloc, text.as_str(), 2);
    let mut places = Places::new(alloc);
    let found = weighed(rt, alloc, &vocabulary, &mut places, text.as_str());
    expect_own_numbers(rt, &found, words);
}

// There are 2,048 slots for guesses: `ferry` and `place` have the same one, and so have two of any 2,049
// words.
#[test]
fn a_guess_is_believed_where_it_is_right(rt: HostRuntime) {
    let alloc = rt.alloc();
    let vocabulary = numbered(&rt, alloc, &["ferry", "place", "strasse"]);
    let mut places = Places::new(alloc);
    let rows = [
        ("ferry ferry place ferry place place", "0 3, 1 3, "),
        ("Place FERRY place Ferry PLACE ferry", "1 3, 0 3, "),
        ("STRASSE Straße strasse STRASSE", "2 4, "),
        ("ferry\u{301} ferry", "0 1, ferry\u{301} 1, "),
    ];
    assert_weights(&rt, alloc, &vocabulary, &mut places, &rows);
    assert_own_numbers(&rt, alloc, 2049);
}

/// Asserts that a vocabulary of ferry and toll weighs a text, and another one once it has a bridge too.
fn assert_grown(rt: &impl Abort, alloc: Global, places: &mut Places) {
    let mut vocabulary = numbered(rt, alloc, &["ferry", "toll"]);
    let before = ("toll ferry Toll bridge", "1 2, 0 1, bridge 1, ");
    assert_weights(rt, alloc, &vocabulary, places, &[before]);
    add(rt, alloc, &mut vocabulary, "bridge");
    let after = ("bridge Toll bridge ferry", "2 2, 1 1, 0 1, ");
    assert_weights(rt, alloc, &vocabulary, places, &[after]);
}

/// Asserts that a new vocabulary of these terms weighs the row's text.
fn assert_weighed_by(
    rt: &impl Abort,
    alloc: Global,
    terms: &[&str],
    places: &mut Places,
    row: (&str, &str),
) {
    let vocabulary = numbered(rt, alloc, terms);
    assert_weights(rt, alloc, &vocabulary, places, &[row]);
}

#[test]
fn guesses_outlive_their_vocabulary(rt: HostRuntime) {
    let alloc = rt.alloc();
    let mut places = Places::new(alloc);
    assert_grown(&rt, alloc, &mut places);
    let fewer = ("toll ferry toll bridge", "0 2, ferry 1, bridge 1, ");
    assert_weighed_by(&rt, alloc, &["toll"], &mut places, fewer);
    let others = ("toll ferry bridge", "2 1, 1 1, 0 1, ");
    let terms = ["bridge", "ferry", "toll"];
    assert_weighed_by(&rt, alloc, &terms, &mut places, others);
}

/// A run, one that is a letter longer, and the first one again.
fn with_longer(rt: &impl Abort, alloc: Global, run: &str) -> String {
    let mut text = beside(rt, alloc, run, run);
    text.push_str("a ").expect(rt, "memory");
    text.push_str(run).expect(rt, "memory");
    text
}

#[test]
fn long_runs_are_weighed_as_none(rt: HostRuntime) {
    let alloc = rt.alloc();
    let longest = repeated(&rt, alloc, "a", 255);
    let vocabulary = numbered(&rt, alloc, &[longest.as_str()]);
    let mut places = Places::new(alloc);
    let text = with_longer(&rt, alloc, longest.as_str());
    let row = (text.as_str(), "0 2, ");
    assert_weights(&rt, alloc, &vocabulary, &mut places, &[row, row]);
}
