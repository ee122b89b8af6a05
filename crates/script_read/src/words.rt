//! The words of a line, and the numbers that they spell.
ghost use Rattle.std.specs.Prelude.{◌≡◌, ◌==◌, ◌≤◌, ◌^◌, length, position, Some, None, bytes_eq};
ghost use Rattle.std.specs.List.{position_or_len};
ghost use Rattle.script_read.specs.Words.{is_space, after_spaces, word, after_word, is_blank, without_last_spaces, phrase};
ghost use Rattle.script_read.specs.Numbers.{number};

/// Whether this is the byte between words.
fn is_space(b: u8) -> bool
    ensures { result ≡ is_space b }
{
    b == b' '
}

/// Whether no word stands in a line. Costs its length.
pub(crate) fn is_blank(line: &[u8]) -> bool
    ensures { result ≡ is_blank line.now }
{
    line.iter().all(|b| is_space(*b))
}

/// A line without the spaces at its front. Costs these.
fn after_spaces(line: &[u8]) -> &[u8]
    ensures value { result.now ≡ after_spaces line.now }
    ensures shorter { length result.now ≤ length line.now }
{
    let mut n = 0;
    while n < line.len() && is_space(line[n]) {
        n += 1;
    }
    &line[n..]
}

fn find_space(line: &[u8]) -> Option<usize>
    ensures { result ≡ position is_space line.now }
{
    line.iter().position(|b| is_space(*b))
}

/// The length of the first word.
fn word_length(line: &[u8]) -> usize
    ensures value { result ≡ position_or_len is_space line.now }
    ensures within { result ≤ length line.now }
{
    find_space(line).unwrap_or(line.len())
}

/// The first word of a line, and what stands behind it.
pub(crate) fn next_word(line: &[u8]) -> (&[u8], &[u8])
    ensures word { result.0.now ≡ word line.now }
    ensures rest { result.1.now ≡ after_word line.now }
    ensures shorter { length result.1.now ≤ length line.now }
    ensures short { length result.0.now ≤ length line.now }
{
    let words = after_spaces(line);
    let n = word_length(words);
    (&words[..n], &words[n..])
}

/// The bytes up to the last that is no space.
fn without_last_spaces(line: &[u8]) -> &[u8]
    ensures value { result.now ≡ without_last_spaces line.now }
    ensures shorter { length result.now ≤ length line.now }
{
    let mut n = line.len();
    while n > 0 && is_space(line[n - 1]) {
        n -= 1;
    }
    &line[..n]
}

/// The words of a line as one text.
pub(crate) fn phrase(line: &[u8]) -> &[u8]
    ensures value { result.now ≡ phrase line.now }
    ensures shorter { length result.now ≤ length line.now }
{
    without_last_spaces(after_spaces(line))
}

/// The number that a word spells, where it spells one below the limit. Costs the word's length.
pub(crate) fn number_below(limit: u64, word: &[u8]) -> Option<u64>
    requires some { 1 ≤ limit }
    requires small { limit ≤ 2 ^ 40 }
    ensures { result ≡ number limit word.now }
{
    if word.is_empty() {
        return None;
    }
    let mut value = 0;
    for digit in word {
        if !digit.is_ascii_digit() {
            return None;
        }
        value = 10 * value + u64::from(*digit - b'0');
        if value >= limit {
            return None;
        }
    }
    Some(value)
}

/// Whether a word is this name. Costs the name's length.
pub(crate) fn is_named(name: &[u8], word: &[u8]) -> bool
    ensures { result ≡ bytes_eq name.now word.now }
{
    name == word
}
