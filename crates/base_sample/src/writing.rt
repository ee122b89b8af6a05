//! The commands of a sample by their numbers.
ghost use Rattle.std.specs.Prelude.{◌≡◌, ◌<◌, ◌≤◌, IfOk};
ghost use Rattle.base_sample.specs.Samples.{minute, word, document, text, change, plan, question};

use base_commands::{Command, Content, Kind, Phrase, Text};
use base_types::{DocId, Fraction, Time};
use std::alloc::{AllocError, Global};

/// The first number behind the starts, which are what seeds come to.
pub(crate) const STARTS: u64 = 1000;

/// How many words the texts are made of.
const WORDS: u32 = 200;

/// How many documents are changed, the first of them 1.
const DOCUMENTS: u32 = 100;

/// Each change whose number this divides is a deletion.
const DELETION_EVERY: u32 = 10;

/// So many minutes behind the start of 1970.
fn minute(minutes: u32) -> Time
    requires { minutes ≤ 100000 }
    ensures { result ≡ minute minutes }
{
    Time {
        seconds: 60 * u64::from(minutes),
    }
}

/// The word of a number.
fn word(alloc: Global, number: u32) -> Result<Phrase, AllocError>
    ensures { IfOk result (λ w. w ≡ word number) }
{
    let text = format!(in alloc; "w{number}")?;
    let phrase = Phrase::new(alloc, text.as_bytes())?;
    Ok(phrase.unwrap())
}

/// The document of a change.
fn document(start: u32, number: u32) -> DocId
    requires start { start < 1000 }
    requires number { number ≤ 100000 }
    ensures { result ≡ document start number }
{
    DocId((start + 7 * number) % DOCUMENTS + 1)
}

/// The bytes of the text of a version that arrives by a change.
fn five_words(alloc: Global, start: u32, number: u32) -> Result<Vec<u8>, AllocError>
    requires start { start < 1000 }
    requires number { number ≤ 100000 }
    ensures { IfOk result (λ bytes. bytes.items ≡ text start number) }
{
    let first = (start + number) % WORDS;
    let second = (start + number * 2) % WORDS;
    let third = (start + number * 3) % WORDS;
    let fourth = (start + number * 4) % WORDS;
    let fifth = (start + number * 5) % WORDS;
    let text = format!(in alloc; "w{first} w{second} w{third} w{fourth} w{fifth}")?;
    Ok(text.into_bytes())
}

/// The text of a version that arrives by a change.
fn text(alloc: Global, start: u32, number: u32) -> Result<Text, AllocError>
    requires start { start < 1000 }
    requires number { number ≤ 100000 }
    ensures { IfOk result (λ t. t ≡ Text.Bytes (text start number)) }
{
    let bytes = five_words(alloc, start, number)?;
    Ok(Text::Bytes(Content::new(bytes)))
}

/// The change of a number. Constant cost.
pub(crate) fn change(alloc: Global, start: u32, number: u32) -> Result<Command, AllocError>
    requires start { start < 1000 }
    requires number { number ≤ 100000 }
    ensures { IfOk result (λ c. c ≡ change start number) }
{
    let doc = document(start, number);
    let at = minute(number);
    if number % DELETION_EVERY == 0 {
        return Ok(Command::Delete { doc, at });
    }
    let text = text(alloc, start, number)?;
    Ok(Command::Arrive { doc, at, text })
}

/// The plan of the word of a number. Constant cost.
pub(crate) fn plan(alloc: Global, number: u32) -> Result<Command, AllocError>
    ensures { IfOk result (λ c. c ≡ plan number) }
{
    let word = word(alloc, number)?;
    let fraction = Fraction { over: 3, under: 2 };
    Ok(Command::Plan {
        word,
        kind: Kind::Guarantee,
        fraction,
    })
}

/// The question for the word of a number, asked so many tenths of the way through the changes.
/// Constant cost.
pub(crate) fn question(alloc: Global, count: u32, tenths: u32) -> Result<Command, AllocError>
    requires count { count ≤ 100000 }
    requires tenths { tenths ≤ 10 }
    ensures { IfOk result (λ c. c ≡ question count tenths) }
{
    let at = minute(count * tenths / 10);
    let expr = word(alloc, tenths)?;
    Ok(Command::Find { at, expr })
}
