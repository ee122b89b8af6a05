//! What a line says.
ghost use Rattle.std.specs.Prelude.{◌≡◌, ◌≤◌, length, IfOk};
ghost use Rattle.script_read.specs.declared.part.Part.TheVariants.{Batch};
ghost use Rattle.script_read.specs.Forms.{◌▸◌, end};
ghost use Rattle.script_read.specs.Values.{batch_count};
ghost use Rattle.script_read.specs.Lines.{alone, arrival, is_skipped, meaning};

use crate::changing::command;
use crate::part::Part;
use crate::values::{batch_count, document, time};
use crate::words::{is_blank, is_named, next_word, number_below};
use base_commands::Item;
use base_types::{DocId, Time};
use std::alloc::{AllocError, Global};

/// What a line says.
#[derive(Debug, Drop)]
pub enum Meaning {
    /// Nothing, and nothing is answered.
    Skipped,
    /// A part by itself.
    Alone(Part),
    /// A version arrives; its text comes behind the line.
    Arrival {
        /// The document.
        doc: DocId,
        /// When the version is created.
        at: Time,
        /// The length of its text, below 2^40.
        bytes: u64,
    },
    /// What may not stand in a script.
    Faulty,
}

fn is_skipped(line: &[u8]) -> bool
    ensures { result ≡ is_skipped line.now }
{
    is_blank(line) || line[0] == b'#'
}

fn arrival(words: &[u8]) -> Option<Meaning>
    ensures { result ≡ arrival words.now }
{
    let (doc, more) = next_word(words);
    let doc = document(doc)?;
    let (at, last) = next_word(more);
    let at = time(at)?;
    let (bytes, rest) = next_word(last);
    let bytes = number_below(1 << 40, bytes)?;
    if !is_blank(rest) {
        return None;
    }
    Some(Meaning::Arrival { doc, at, bytes })
}

/// The line of a batch.
fn batch(words: &[u8]) -> Option<Part>
    ensures { result ≡ (batch_count ▸ end) Batch words.now }
{
    let (count, rest) = next_word(words);
    let count = batch_count(count)?;
    if !is_blank(rest) {
        return None;
    }
    Some(Part::Batch { count })
}

/// What a line is by itself, by its name and the words behind it. Costs their length.
fn alone(alloc: Global, name: &[u8], words: &[u8]) -> Result<Option<Part>, AllocError>
    requires { length words.now ≤ 4096 }
    ensures { IfOk result (λ p. p ≡ alone name.now words.now) }
{
    if is_named(name, b"batch") {
        return Ok(batch(words));
    }
    match command(alloc, name, words)? {
        Some(command) => Ok(Some(Part::Item(Item::Command(command)))),
        None => Ok(None),
    }
}

/// What a line says, without its end. Costs its length.
#[tactic(auto, unfolding(crate::specs::Lines::meaning))]
pub(crate) fn meaning_of(alloc: Global, line: &[u8]) -> Result<Meaning, AllocError>
    requires { length line.now ≤ 4096 }
    ensures { IfOk result (λ m. m ≡ meaning line.now) }
{
    if is_skipped(line) {
        return Ok(Meaning::Skipped);
    }
    let (name, words) = next_word(line);
    if is_named(name, b"arrive") {
        return Ok(arrival(words).unwrap_or(Meaning::Faulty));
    }
    match alone(alloc, name, words)? {
        Some(part) => Ok(Meaning::Alone(part)),
        None => Ok(Meaning::Alone(Part::Item(Item::Line))),
    }
}
