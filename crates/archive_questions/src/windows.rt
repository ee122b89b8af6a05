//! What an archive is asked over a window of time.
ghost use Rattle.std.specs.Prelude.{◌≡◌, ℕ, List, length, is_some, IfOk};
ghost use Rattle.query_lang.specs.Meaning.{words_of};
ghost use Rattle.query_eval.specs.Found.{told, read_of};
ghost use Rattle.query_eval.specs.Spans.{IsSpanAnswer};
ghost use Rattle.model_archive.specs.Histories.{History, text_at};
ghost use Rattle.model_archive.specs.Chosen.{AreChosen, IsMadeOver};
ghost use Rattle.archive_questions.specs.After.{AfterFetching, AfterQuestion, Fetches};
ghost use Rattle.archive_hand.specs.States.{StandsFor, AreInStepBy, Reaches};
ghost use Rattle.archive_hand.specs.Stored.{Store};
ghost use Rattle.archive_hand.specs.Takes.{TakesBy};
ghost use Rattle.archive_questions.specs.Endings.{spanned};
ghost use Rattle.base_commands.specs.declared.command.Command.TheVariants as commands;
ghost use Rattle.base_commands.specs.declared.command.Item.TheVariants as items;

use crate::asking::is_any_planned;
use crate::choosing::parts_of;
use crate::error::{AskError, asked};
use archive_hand::Archive;
use base_commands::Phrase;
use base_types::Span;
use machine_model::Disk;
use pages_sublists::FetchError;
use query_eval::{Part, SpanAnswer, answer_over, answer_over_hits, docs_met};
use query_lang::Query;
use std::alloc::{AllocError, Global};

/// What a query finds over a window of time: for each document the longest spans inside it in which
/// the document is alive, matches and has one score, and how many postings were read for them.
/// Nothing is changed but which pages are kept.
///
/// `Refused`: the text is no query. `Damaged`: a sublist that was read isn't what the entry of its
/// plan says. `Failed`: the disk failed.
/// Costs the query's length. Of each word with a plan, the sublists of the segments that overlap the
/// window are read from Pages, and its list in memory from the horizon on, where the window
/// reaches past it; of each other word its list in memory. Then the postings in the window are
/// sorted, and no document is looked up. Where a word has a plan, each document with a posting in
/// the window is looked up once, with steps in the logarithm of its changes and one for each of its
/// changes in the window; where the query matches without any of its words, it costs what the
/// directory's `lives` does. A page that was read before is not read again while it is among the
/// 1,024 that were used last.
pub fn between<D: Disk>(
    alloc: Global,
    disk: &mut D,
    archive: &mut Archive,
    span: Span,
    expr: &Phrase,
) -> Result<SpanAnswer, AskError>
    requires within { Reaches (D.disk disk.old).reach archive.old }
    ensures only { D.Disk.only disk.old disk.new }
    ensures after { AfterQuestion D.disk_tells expr.now span.from span.to
        (λ h query answer. IsMadeOver h (D.disk disk.old).holds.pages span.from span.to query answer.rows.items answer.read)
        result (D.disk disk.old) (D.disk disk.new) archive.old archive.new }
    // In step by what reads give, whatever lies in Pages, it is a step.
    ensures by_reads { D.disk_tells → (s : Store) → AreInStepBy (D.disk disk.old) archive.old s →
        TakesBy s (items.Command (commands.Between span expr.now)) (spanned result) (D.disk disk.old) (D.disk disk.new) archive.new }
{
    match Query::read(alloc, expr.as_str()) {
        Ok(query) => asked(span_answer_of(alloc, disk, archive, &query, span)),
        Err(why) => Err(AskError::from(why)),
    }
}

/// The answer to a query over a window by the lists of its words.
fn span_answer_of<D: Disk>(
    alloc: Global,
    disk: &mut D,
    archive: &mut Archive,
    query: &Query,
    span: Span,
) -> Result<SpanAnswer, FetchError>
    requires within { Reaches (D.disk disk.old).reach archive.old }
    ensures only { D.Disk.only disk.old disk.new }
    ensures after { AfterFetching D.disk_tells result (D.disk disk.old) (D.disk disk.new) archive.old archive.new }
    ensures fetched { Fetches D.disk_tells span.from span.to (words_of query.now)
        (λ h answer. IsMadeOver h (D.disk disk.old).holds.pages span.from span.to query.now answer.rows.items answer.read)
        result (D.disk disk.old) (D.disk disk.new) archive.old archive.new }
{
    let parts = parts_of(alloc, disk, archive, query.words(), span)?;
    let answer = span_answer_by(alloc, archive, query, span, &parts)?;
    Ok(answer)
}

/// The answer to a query over a window by what was chosen of the lists of its words.
fn span_answer_by(
    alloc: Global,
    archive: &Archive,
    query: &Query,
    span: Span,
    parts: &[Part],
) -> Result<SpanAnswer, AllocError>
    requires { length parts.now ≡ length (words_of query.now) }
    ensures read { IfOk result (λ answer. answer.read ≡ read_of parts.now) }
    ensures rows { (h : History) (pages : List ℕ) → StandsFor archive.now h
        → AreChosen h pages span.from span.to (words_of query.now) parts.now
        → IfOk result (λ answer. IsSpanAnswer (λ doc t. is_some (text_at h doc t))
        (λ doc t. told (words_of query.now) parts.now t doc.0) query.now span.from span.to answer.rows.items) }
{
    if query.matches_without_words() {
        let lives = archive.directory().lives(alloc, span)?;
        let answer = answer_over(alloc, query, span, parts, &lives)?;
        return Ok(answer);
    }
    if is_any_planned(archive, query.words()) {
        // All postings lie within lives of their documents, but for bytes of Pages that no archive wrote.
        let docs = docs_met(alloc, parts, span)?;
        let lives = archive.directory().lives_of(alloc, &docs, span)?;
        let answer = answer_over(alloc, query, span, parts, &lives)?;
        return Ok(answer);
    }
    let answer = answer_over_hits(alloc, query, span, parts)?;
    Ok(answer)
}
