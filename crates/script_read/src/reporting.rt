//! The lines of commands that report: the first rows, what is near, and how words would share a budget.
ghost use Rattle.std.specs.Prelude.{◌≡◌, ◌≤◌, length, IfOk};
ghost use Rattle.base_commands.specs.declared.command.Command.TheVariants.{Top, Best, Approx, Rough, Share};
ghost use Rattle.script_read.specs.Forms.{◌▸◌, end, rest, named};
ghost use Rattle.script_read.specs.Values.{time, text, expr, tolerance, top_count, best_count, share_fraction, share_words};
ghost use Rattle.script_read.specs.Lines.{reports};

use crate::shares::{share_fraction, share_words};
use crate::values::{best_count, expr, text, time, tolerance, top_count};
use crate::words::{is_blank, is_named, next_word};
use base_commands::Command;
use std::alloc::{AllocError, Global};

fn top_rows(alloc: Global, words: &[u8]) -> Result<Option<Command>, AllocError>
    requires { length words.now ≤ 4096 }
    ensures { IfOk result (λ c. c ≡ (top_count ▸ time ▸ rest expr) Top words.now) }
{
    let (count, second) = next_word(words);
    let Some(count) = top_count(count) else {
        return Ok(None);
    };
    let (at, more) = next_word(second);
    let Some(at) = time(at) else {
        return Ok(None);
    };
    match expr(alloc, more)? {
        Some(expr) => Ok(Some(Command::Top { count, at, expr })),
        None => Ok(None),
    }
}

fn best_rows(alloc: Global, words: &[u8]) -> Result<Option<Command>, AllocError>
    requires { length words.now ≤ 4096 }
    ensures { IfOk result (λ c. c ≡ (best_count ▸ time ▸ rest expr) Best words.now) }
{
    let (count, second) = next_word(words);
    let Some(count) = best_count(count) else {
        return Ok(None);
    };
    let (at, more) = next_word(second);
    let Some(at) = time(at) else {
        return Ok(None);
    };
    match expr(alloc, more)? {
        Some(expr) => Ok(Some(Command::Best { count, at, expr })),
        None => Ok(None),
    }
}

fn approximating(alloc: Global, words: &[u8]) -> Result<Option<Command>, AllocError>
    requires { length words.now ≤ 4096 }
    ensures { IfOk result (λ c. c ≡ (text ▸ tolerance ▸ end) Approx words.now) }
{
    let (word, bound) = next_word(words);
    let Some(word) = text(alloc, word)? else {
        return Ok(None);
    };
    let (part, rest) = next_word(bound);
    let Some(tolerance) = tolerance(part) else {
        return Ok(None);
    };
    if !is_blank(rest) {
        return Ok(None);
    }
    Ok(Some(Command::Approx { word, tolerance }))
}

fn rough_rows(alloc: Global, words: &[u8]) -> Result<Option<Command>, AllocError>
    requires { length words.now ≤ 4096 }
    ensures { IfOk result (λ c. c ≡ (tolerance ▸ time ▸ rest expr) Rough words.now) }
{
    let (part, second) = next_word(words);
    let Some(tolerance) = tolerance(part) else {
        return Ok(None);
    };
    let (at, more) = next_word(second);
    let Some(at) = time(at) else {
        return Ok(None);
    };
    match expr(alloc, more)? {
        Some(expr) => Ok(Some(Command::Rough {
            tolerance,
            at,
            expr,
        })),
        None => Ok(None),
    }
}

fn sharing(alloc: Global, words: &[u8]) -> Result<Option<Command>, AllocError>
    requires { length words.now ≤ 4096 }
    ensures { IfOk result (λ c. c ≡ (share_fraction ▸ rest share_words) Share words.now) }
{
    let (factor, more) = next_word(words);
    let Some(fraction) = share_fraction(factor) else {
        return Ok(None);
    };
    match share_words(alloc, more)? {
        Some(words) => Ok(Some(Command::Share { fraction, words })),
        None => Ok(None),
    }
}

/// The command of this name that reports, with the words behind it. Costs their length.
pub(crate) fn report(
    alloc: Global,
    name: &[u8],
    words: &[u8],
) -> Result<Option<Command>, AllocError>
    requires { length words.now ≤ 4096 }
    ensures { IfOk result (λ c. c ≡ named reports name.now words.now) }
{
    if is_named(name, b"top") {
        return top_rows(alloc, words);
    }
    if is_named(name, b"best") {
        return best_rows(alloc, words);
    }
    if is_named(name, b"approx") {
        return approximating(alloc, words);
    }
    if is_named(name, b"rough") {
        return rough_rows(alloc, words);
    }
    if is_named(name, b"share") {
        return sharing(alloc, words);
    }
    Ok(None)
}
