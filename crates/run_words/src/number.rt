//! Numbers as values of options.
ghost use Rattle.std.specs.Prelude.{◌≡◌, ℕ, IfSome, IfNone};
ghost use Rattle.std.specs.Char.{is_ascii_digit};
ghost use Rattle.std.specs.List.{list_all};
ghost use Rattle.run_words.specs.Numbers.{WritesNumber};

/// The most digits of a number.
const MOST_DIGITS: usize = 19;

/// The number that a text writes, if it does. Costs the text's length.
pub(crate) fn number_of(text: &str) -> Option<u64>
    ensures some { IfSome result (WritesNumber text.now) }
    ensures none { IfNone result ((n : ℕ) → WritesNumber text.now n → ⊥) }
{
    if text.len() > MOST_DIGITS || !are_digits(text) {
        return None;
    }
    text.parse().ok()
}

/// Whether a text has ASCII digits alone. Costs its length.
fn are_digits(text: &str) -> bool
    ensures { result ≡ list_all is_ascii_digit text.now }
{
    text.bytes().all(|b| b.is_ascii_digit())
}
