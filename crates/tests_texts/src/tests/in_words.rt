//! Commands in words.
use base_commands::{BatchItems, Command, Kind, Phrase, ShareFraction, ShareWords, Text};
use base_types::{DocId, Fraction, Span, Time};
use std::alloc::Global;
use std::process::Abort;
use std::str;

/// A word in a string of its own.
pub(crate) fn owned(rt: &impl Abort, alloc: Global, word: &str) -> String {
    String::from_str(alloc, word).expect(rt, "memory")
}

/// One word behind another.
pub(crate) fn beside(rt: &impl Abort, alloc: Global, front: &str, back: &str) -> String {
    format!(in alloc; "{front} {back}").expect(rt, "memory")
}

/// A number behind a word.
pub(crate) fn counted(rt: &impl Abort, alloc: Global, front: &str, number: u64) -> String {
    format!(in alloc; "{front} {number}").expect(rt, "memory")
}

/// A ratio behind a word.
fn ratio(rt: &impl Abort, alloc: Global, front: &str, over: u32, under: u32) -> String {
    format!(in alloc; "{front} {over}/{under}").expect(rt, "memory")
}

/// A command for a document at a time.
pub(crate) fn at_document(
    rt: &impl Abort,
    alloc: Global,
    name: &str,
    doc: DocId,
    at: Time,
) -> String {
    let front = counted(rt, alloc, name, u64::from(doc.0));
    counted(rt, alloc, front.as_str(), at.seconds())
}

/// A text, or how long it is where that is too long.
fn text_in_words(rt: &impl Abort, alloc: Global, text: &Text) -> String {
    match text {
        Text::Bytes(content) => {
            let text = str::from_utf8(content.as_slice()).expect(rt, "a text");
            owned(rt, alloc, text)
        }
        Text::TooLong { bytes } => counted(rt, alloc, "too long", *bytes),
    }
}

fn arrival(rt: &impl Abort, alloc: Global, doc: DocId, at: Time, text: &Text) -> String {
    let front = at_document(rt, alloc, "arrive", doc, at);
    let text = text_in_words(rt, alloc, text);
    beside(rt, alloc, front.as_str(), text.as_str())
}

/// A command for a word with a factor.
fn of_factor(
    rt: &impl Abort,
    alloc: Global,
    name: &str,
    word: &Phrase,
    fraction: Fraction,
) -> String {
    let front = beside(rt, alloc, name, word.as_str());
    ratio(rt, alloc, front.as_str(), fraction.over(), fraction.under())
}

/// The kind of a plan.
pub(crate) fn kind_in_words(rt: &impl Abort, alloc: Global, kind: Kind) -> String {
    match kind {
        Kind::Guarantee => owned(rt, alloc, "guarantee"),
        Kind::Uniform => owned(rt, alloc, "uniform"),
        Kind::Since { at } => counted(rt, alloc, "since", at.seconds()),
    }
}

fn plan(rt: &impl Abort, alloc: Global, word: &Phrase, kind: Kind, fraction: Fraction) -> String {
    let front = beside(rt, alloc, "plan", word.as_str());
    let kind = kind_in_words(rt, alloc, kind);
    let front = beside(rt, alloc, front.as_str(), kind.as_str());
    ratio(rt, alloc, front.as_str(), fraction.over(), fraction.under())
}

/// A question at a time, and what stands in front of that.
fn question(rt: &impl Abort, alloc: Global, front: &str, at: Time, expr: &Phrase) -> String {
    let front = counted(rt, alloc, front, at.seconds());
    beside(rt, alloc, front.as_str(), expr.as_str())
}

/// A question for so many rows.
fn ranked(
    rt: &impl Abort,
    alloc: Global,
    (name, count): (&str, u32),
    at: Time,
    expr: &Phrase,
) -> String {
    let front = counted(rt, alloc, name, u64::from(count));
    question(rt, alloc, front.as_str(), at, expr)
}

fn between(rt: &impl Abort, alloc: Global, span: &Span, expr: &Phrase) -> String {
    let front = counted(rt, alloc, "between", span.from);
    let front = counted(rt, alloc, front.as_str(), span.to);
    beside(rt, alloc, front.as_str(), expr.as_str())
}

fn batch(rt: &impl Abort, alloc: Global, items: &BatchItems) -> String {
    match items {
        BatchItems::Items(list) => counted(rt, alloc, "batch", list.as_slice().len() as u64),
        BatchItems::TooLong { bytes } => counted(rt, alloc, "batch too long", *bytes),
    }
}

fn share(rt: &impl Abort, alloc: Global, shared: ShareFraction, words: &ShareWords) -> String {
    let fraction = shared.fraction();
    let mut line = ratio(rt, alloc, "share", fraction.over(), fraction.under());
    for word in words.as_slice() {
        line.push_str(" ").expect(rt, "memory");
        line.push_str(word.as_str()).expect(rt, "memory");
    }
    line
}

/// A question in words.
fn question_in_words(rt: &impl Abort, alloc: Global, command: &Command) -> String {
    match command {
        Command::Find { at, expr } => question(rt, alloc, "find", *at, expr),
        Command::Between { span, expr } => between(rt, alloc, span, expr),
        Command::Show { doc, at } => at_document(rt, alloc, "show", *doc, *at),
        Command::Top { count, at, expr } => {
            ranked(rt, alloc, ("top", count.number()), *at, expr)
        }
        Command::Best { count, at, expr } => {
            ranked(rt, alloc, ("best", count.number()), *at, expr)
        }
        Command::Rough {
            tolerance,
            at,
            expr,
        } => {
            let front = ratio(rt, alloc, "rough", tolerance.part, tolerance.whole);
            question(rt, alloc, front.as_str(), *at, expr)
        }
        _ => owned(rt, alloc, "no question"),
    }
}

/// A command in words: its name, its numbers, and what it holds.
pub(crate) fn command_in_words(rt: &impl Abort, alloc: Global, command: &Command) -> String {
    match command {
        Command::Arrive { doc, at, text } => arrival(rt, alloc, *doc, *at, text),
        Command::Delete { doc, at } => at_document(rt, alloc, "delete", *doc, *at),
        Command::Plan {
            word,
            kind,
            fraction,
        } => plan(rt, alloc, word, *kind, *fraction),
        Command::Propose { word, fraction } => of_factor(rt, alloc, "propose", word, *fraction),
        Command::Begin { word, fraction } => of_factor(rt, alloc, "begin", word, *fraction),
        Command::Approx { word, tolerance } => {
            let front = beside(rt, alloc, "approx", word.as_str());
            ratio(rt, alloc, front.as_str(), tolerance.part, tolerance.whole)
        }
        Command::Certificate { word } => beside(rt, alloc, "certificate", word.as_str()),
        Command::Verify => owned(rt, alloc, "verify"),
        Command::Format => owned(rt, alloc, "format 2"),
        Command::Batch(items) => batch(rt, alloc, items),
        Command::Share { fraction, words } => share(rt, alloc, *fraction, words),
        _ => question_in_words(rt, alloc, command),
    }
}
