//! The lines of commands that leave an archive as it is: what they say behind their names.
ghost use Rattle.std.specs.Prelude.{◌≡◌, ◌≤◌, ◌++◌, length, option_map, IfOk};
ghost use Rattle.base_commands.specs.declared.command.Command.TheVariants.{Find, Between, Show, Propose, Certificate, Verify};
ghost use Rattle.script_read.specs.Forms.{◌▸◌, ◌▹◌, end, rest, checked, named};
ghost use Rattle.script_read.specs.Values.{document, time, text, expr, fraction, span_of};
ghost use Rattle.script_read.specs.Lines.{questions, reports};

use crate::reporting::report;
use crate::values::{document, expr, fraction, span, text, time};
use crate::words::{is_blank, is_named, next_word};
use base_commands::Command;
use std::alloc::{AllocError, Global};

fn finding(alloc: Global, words: &[u8]) -> Result<Option<Command>, AllocError>
    requires { length words.now ≤ 4096 }
    ensures { IfOk result (λ c. c ≡ (time ▸ rest expr) Find words.now) }
{
    let (at, more) = next_word(words);
    let Some(at) = time(at) else {
        return Ok(None);
    };
    match expr(alloc, more)? {
        Some(expr) => Ok(Some(Command::Find { at, expr })),
        None => Ok(None),
    }
}

fn spanning(alloc: Global, words: &[u8]) -> Result<Option<Command>, AllocError>
    requires { length words.now ≤ 4096 }
    ensures { IfOk result (λ c. c ≡ (time ▸ time ▸ checked (rest expr))
        (λ from to. option_map (λ span expr. Between span expr) (span_of from to)) words.now) }
{
    let (from, second) = next_word(words);
    let Some(from) = time(from) else {
        return Ok(None);
    };
    let (to, more) = next_word(second);
    let Some(to) = time(to) else {
        return Ok(None);
    };
    let Some(span) = span(from, to) else {
        return Ok(None);
    };
    match expr(alloc, more)? {
        Some(expr) => Ok(Some(Command::Between { span, expr })),
        None => Ok(None),
    }
}

fn showing(words: &[u8]) -> Option<Command>
    ensures { result ≡ (document ▸ time ▸ end) Show words.now }
{
    let (doc, more) = next_word(words);
    let doc = document(doc)?;
    let (at, rest) = next_word(more);
    let at = time(at)?;
    if !is_blank(rest) {
        return None;
    }
    Some(Command::Show { doc, at })
}

fn proposing(alloc: Global, words: &[u8]) -> Result<Option<Command>, AllocError>
    requires { length words.now ≤ 4096 }
    ensures { IfOk result (λ c. c ≡ (text ▸ "guarantee" ▹ fraction ▸ end) Propose words.now) }
{
    let (word, more) = next_word(words);
    let Some(word) = text(alloc, word)? else {
        return Ok(None);
    };
    let (how, bound) = next_word(more);
    if !is_named(how, b"guarantee") {
        return Ok(None);
    }
    let (factor, rest) = next_word(bound);
    let Some(fraction) = fraction(factor) else {
        return Ok(None);
    };
    if !is_blank(rest) {
        return Ok(None);
    }
    Ok(Some(Command::Propose { word, fraction }))
}

fn certifying(alloc: Global, words: &[u8]) -> Result<Option<Command>, AllocError>
    requires { length words.now ≤ 4096 }
    ensures { IfOk result (λ c. c ≡ (text ▸ end) Certificate words.now) }
{
    let (word, rest) = next_word(words);
    let Some(word) = text(alloc, word)? else {
        return Ok(None);
    };
    if !is_blank(rest) {
        return Ok(None);
    }
    Ok(Some(Command::Certificate { word }))
}

fn verifying(words: &[u8]) -> Option<Command>
    ensures { result ≡ end Verify words.now }
{
    if is_blank(words) {
        Some(Command::Verify)
    } else {
        None
    }
}

/// The command of this name that leaves an archive as it is, with the words behind it. Costs their
/// length.
pub(crate) fn question_or_report(
    alloc: Global,
    name: &[u8],
    words: &[u8],
) -> Result<Option<Command>, AllocError>
    requires { length words.now ≤ 4096 }
    ensures { IfOk result (λ c. c ≡ named (questions ++ reports) name.now words.now) }
{
    if is_named(name, b"find") {
        return finding(alloc, words);
    }
    if is_named(name, b"between") {
        return spanning(alloc, words);
    }
    if is_named(name, b"show") {
        return Ok(showing(words));
    }
    if is_named(name, b"propose") {
        return proposing(alloc, words);
    }
    if is_named(name, b"certificate") {
        return certifying(alloc, words);
    }
    if is_named(name, b"verify") {
        return Ok(verifying(words));
    }
    report(alloc, name, words)
}
