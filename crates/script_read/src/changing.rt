//! The lines of commands that change an archive, but arrivals: what they say behind their names.
ghost use Rattle.std.specs.Prelude.{◌≡◌, ◌≤◌, ◌++◌, length, IfOk};
ghost use Rattle.base_commands.specs.declared.command.Command.TheVariants.{Delete, Plan, Begin, Format};
ghost use Rattle.base_commands.specs.declared.command.Kind.TheVariants.{Guarantee, Uniform, Since};
ghost use Rattle.script_read.specs.Forms.{◌▸◌, ◌▹◌, ◌or◌, end, named};
ghost use Rattle.script_read.specs.Values.{document, time, text, fraction};
ghost use Rattle.script_read.specs.Lines.{planning, changes, questions, reports};

use crate::asking::question_or_report;
use crate::values::{document, fraction, text, time};
use crate::words::{is_blank, is_named, next_word};
use base_commands::{Command, Kind, Phrase};
use std::alloc::{AllocError, Global};

fn deletion(words: &[u8]) -> Option<Command>
    ensures { result ≡ (document ▸ time ▸ end) Delete words.now }
{
    let (doc, more) = next_word(words);
    let doc = document(doc)?;
    let (at, rest) = next_word(more);
    let at = time(at)?;
    if !is_blank(rest) {
        return None;
    }
    Some(Command::Delete { doc, at })
}

/// The plan of a word that keeps to a guarantee, with the words behind `guarantee`.
fn guaranteed(word: Phrase, words: &[u8]) -> Option<Command>
    ensures { result ≡ (fraction ▸ end) (λ f. Plan word Guarantee f) words.now }
{
    let (factor, rest) = next_word(words);
    let fraction = fraction(factor)?;
    if !is_blank(rest) {
        return None;
    }
    Some(Command::Plan {
        word,
        kind: Kind::Guarantee,
        fraction,
    })
}

/// The plan of a word that keeps to a space, with the words behind `space`.
fn spaced(word: Phrase, words: &[u8]) -> Option<Command>
    ensures { result ≡ ((fraction ▸ "uniform" ▹ end) (λ f. Plan word Uniform f) or (fraction ▸ "since" ▹ time ▸ end)
        (λ f at. Plan word (Since at) f)) words.now }
{
    let (factor, how) = next_word(words);
    let fraction = fraction(factor)?;
    let (name, more) = next_word(how);
    if is_named(name, b"uniform") {
        if !is_blank(more) {
            return None;
        }
        return Some(Command::Plan {
            word,
            kind: Kind::Uniform,
            fraction,
        });
    }
    if !is_named(name, b"since") {
        return None;
    }
    let (at, rest) = next_word(more);
    let at = time(at)?;
    if !is_blank(rest) {
        return None;
    }
    Some(Command::Plan {
        word,
        kind: Kind::Since { at },
        fraction,
    })
}

/// The plan of a word, with the words behind it.
fn planned(word: Phrase, words: &[u8]) -> Option<Command>
    ensures { result ≡ (("guarantee" ▹ fraction ▸ end) (λ f. Plan word Guarantee f)
        or ("space" ▹ fraction ▸ "uniform" ▹ end) (λ f. Plan word Uniform f)
        or ("space" ▹ fraction ▸ "since" ▹ time ▸ end) (λ f at. Plan word (Since at) f)) words.now }
{
    let (how, bound) = next_word(words);
    if is_named(how, b"guarantee") {
        return guaranteed(word, bound);
    }
    if is_named(how, b"space") {
        return spaced(word, bound);
    }
    None
}

fn planning(alloc: Global, words: &[u8]) -> Result<Option<Command>, AllocError>
    requires { length words.now ≤ 4096 }
    ensures { IfOk result (λ c. c ≡ planning words.now) }
{
    let (word, more) = next_word(words);
    match text(alloc, word)? {
        Some(word) => Ok(planned(word, more)),
        None => Ok(None),
    }
}

fn beginning(alloc: Global, words: &[u8]) -> Result<Option<Command>, AllocError>
    requires { length words.now ≤ 4096 }
    ensures { IfOk result (λ c. c ≡ (text ▸ "guarantee" ▹ fraction ▸ end) Begin words.now) }
{
    let (word, more) = next_word(words);
    let Some(word) = text(alloc, word)? else {
        return Ok(None);
    };
    let (how, bound) = next_word(more);
    if !is_named(how, b"guarantee") {
        return Ok(None);
    }
    let (factor, rest) = next_word(bound);
    let Some(fraction) = fraction(factor) else {
        return Ok(None);
    };
    if !is_blank(rest) {
        return Ok(None);
    }
    Ok(Some(Command::Begin { word, fraction }))
}

fn formatting(words: &[u8]) -> Option<Command>
    ensures { result ≡ ("2" ▹ end) Format words.now }
{
    let (number, rest) = next_word(words);
    if is_named(number, b"2") && is_blank(rest) {
        return Some(Command::Format);
    }
    None
}

/// The command of this name, but an arrival, with the words behind it. Costs their length.
pub(crate) fn command(
    alloc: Global,
    name: &[u8],
    words: &[u8],
) -> Result<Option<Command>, AllocError>
    requires { length words.now ≤ 4096 }
    ensures { IfOk result (λ c. c ≡ named (changes ++ questions ++ reports) name.now words.now) }
{
    if is_named(name, b"delete") {
        return Ok(deletion(words));
    }
    if is_named(name, b"plan") {
        return planning(alloc, words);
    }
    if is_named(name, b"begin") {
        return beginning(alloc, words);
    }
    if is_named(name, b"format") {
        return Ok(formatting(words));
    }
    question_or_report(alloc, name, words)
}
