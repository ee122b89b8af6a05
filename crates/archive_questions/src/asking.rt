//! What an archive is asked: the text of a document at a time, and what a query finds, or the first rows of it.
ghost use Rattle.std.specs.Prelude.{◌≡◌, ◌+◌, ℕ, List, All, length, false, true, Ok, None, IsSome, IfOk, IsErrOf};
ghost use Rattle.machine_model.specs.Causes.{Rose};
ghost use Rattle.machine_model.specs.Calls.{OnlyReads};
ghost use Rattle.query_lang.specs.Grammar.{IsRead};
ghost use Rattle.query_lang.specs.Meaning.{words_of};
ghost use Rattle.query_lang.specs.Tokens.{term_of};
ghost use Rattle.query_eval.specs.Answers.{IsAnswer};
ghost use Rattle.query_eval.specs.Firsts.{AreWantedOf};
ghost use Rattle.query_eval.specs.Found.{told, read_of};
ghost use Rattle.model_archive.specs.Histories.{History, text_at};
ghost use Rattle.model_archive.specs.Plans.{is_another, plan_of};
ghost use Rattle.model_archive.specs.Chosen.{AreChosen, IsMadeAt};
ghost use Rattle.archive_questions.specs.After.{AfterFetching, AfterNoted, AfterQuestion, Fetches};
ghost use Rattle.archive_hand.specs.States.{StandsFor, AreInStepBy, Reaches};
ghost use Rattle.archive_hand.specs.Stored.{Store};
ghost use Rattle.archive_hand.specs.Takes.{TakesBy};
ghost use Rattle.archive_questions.specs.Answering.{HitsAreAlive, IsWantedAt};
ghost use Rattle.archive_questions.specs.Endings.{found, version_shown};
ghost use Rattle.base_commands.specs.declared.command.Command.TheVariants as commands;
ghost use Rattle.base_commands.specs.declared.command.Item.TheVariants as items;

use crate::choosing::{moment, parts_of};
use crate::error::{AskError, asked};
use archive_entries::{ReadError, read_text};
use archive_hand::Archive;
use base_commands::{Phrase, TopCount};
use base_types::{DocId, Key, Span, Time};
use machine_model::Disk;
use pages_sublists::FetchError;
use query_eval::{Answer, Part, Wanted, answer_by_hits, answer_by_living_hits, answer_from};
use query_lang::Query;
use std::alloc::{AllocError, Global};

/// What a query finds as of a time: the rows of the documents alive then that match, and how many
/// postings were read for them. Where it is answered the archive notes the time with each word of the
/// query; nothing else is changed but which pages are kept.
///
/// `Refused`: the text is no query. `Damaged`: a sublist that was read isn't what the entry of its
/// plan says. `Failed`: the disk failed.
/// Costs the query's length. Of each word with a plan, the sublist that holds the time is read from
/// Pages, before the horizon, and its list in memory from the horizon on; of each other word its
/// list in memory. Then the postings are sorted that hold the time, and the rows; where a word has a
/// plan, each document that matches is looked up, in the order of documents; where the query matches
/// without any of its words, each document is looked up. A page that was read before is not read again while it is among the 1,024
/// that were used last.
pub fn find<D: Disk>(
    alloc: Global,
    disk: &mut D,
    archive: &mut Archive,
    at: Time,
    expr: &Phrase,
) -> Result<Answer, AskError>
    requires within { Reaches (D.disk disk.old).reach archive.old }
    ensures only { D.Disk.only disk.old disk.new }
    ensures after { AfterNoted D.disk_tells expr.now at
        (λ h query answer. IsMadeAt h (D.disk disk.old).holds.pages at.seconds query answer.rows.items answer.read)
        result (D.disk disk.old) (D.disk disk.new) archive.old archive.new }
    // In step by what reads give, whatever lies in Pages, it is a step.
    ensures by_reads { D.disk_tells → (s : Store) → AreInStepBy (D.disk disk.old) archive.old s →
        TakesBy s (items.Command (commands.Find at expr.now)) (found result) (D.disk disk.old) (D.disk disk.new) archive.new }
{
    match Query::read(alloc, expr.as_str()) {
        Ok(query) => find_and_note(alloc, disk, archive, &query, at),
        Err(why) => Err(AskError::from(why)),
    }
}

/// All that a query finds, whose words are then noted.
fn find_and_note<D: Disk>(
    alloc: Global,
    disk: &mut D,
    archive: &mut Archive,
    query: &Query,
    at: Time,
) -> Result<Answer, AskError>
    requires within { Reaches (D.disk disk.old).reach archive.old }
    ensures only { D.Disk.only disk.old disk.new }
    ensures after { (phrase : List ℕ) → IsRead term_of phrase (Ok query.now) → AfterNoted D.disk_tells phrase at
        (λ h q answer. IsMadeAt h (D.disk disk.old).holds.pages at.seconds q answer.rows.items answer.read)
        result (D.disk disk.old) (D.disk disk.new) archive.old archive.new }
{
    let answer = match answer_of(alloc, disk, archive, query, at, Wanted::All) {
        Ok(answer) => answer,
        Err(why) => return Err(AskError::from(why)),
    };
    match archive.note(alloc, query.words(), at) {
        Ok(()) => Ok(answer),
        Err(_) => Err(AskError::Memory),
    }
}

/// The first rows of what a query finds as of a time, and how many postings were read, which are those
/// for all rows. Nothing is changed but which pages are kept.
///
/// It ends as `find` does, and costs what `find` does, but that the rows are not all sorted: one pass
/// keeps at most twice as many as are asked for, or 1,024, and sorts these each time that there are so
/// many.
pub fn top<D: Disk>(
    alloc: Global,
    disk: &mut D,
    archive: &mut Archive,
    count: TopCount,
    at: Time,
    expr: &Phrase,
) -> Result<Answer, AskError>
    requires within { Reaches (D.disk disk.old).reach archive.old }
    ensures only { D.Disk.only disk.old disk.new }
    ensures after { AfterQuestion D.disk_tells expr.now at.seconds (at.seconds + 1)
        (λ h query answer. IsWantedAt (Wanted.First count.number) h (D.disk disk.old).holds.pages at.seconds query answer.rows.items
        answer.read)
        result (D.disk disk.old) (D.disk disk.new) archive.old archive.new }
    // In step by what reads give, whatever lies in Pages, it is a step.
    ensures by_reads { D.disk_tells → (s : Store) → AreInStepBy (D.disk disk.old) archive.old s →
        TakesBy s (items.Command (commands.Top count at expr.now)) (found result) (D.disk disk.old) (D.disk disk.new) archive.new }
{
    ask(
        alloc,
        disk,
        archive,
        at,
        expr,
        Wanted::First(count.number() as usize),
    )
}

/// The rows that are asked for of what a query finds.
fn ask<D: Disk>(
    alloc: Global,
    disk: &mut D,
    archive: &mut Archive,
    at: Time,
    expr: &Phrase,
    wanted: Wanted,
) -> Result<Answer, AskError>
    requires within { Reaches (D.disk disk.old).reach archive.old }
    ensures only { D.Disk.only disk.old disk.new }
    ensures after { AfterQuestion D.disk_tells expr.now at.seconds (at.seconds + 1)
        (λ h query answer. IsWantedAt wanted h (D.disk disk.old).holds.pages at.seconds query answer.rows.items answer.read)
        result (D.disk disk.old) (D.disk disk.new) archive.old archive.new }
{
    match Query::read(alloc, expr.as_str()) {
        Ok(query) => asked(answer_of(alloc, disk, archive, &query, at, wanted)),
        Err(why) => Err(AskError::from(why)),
    }
}

/// The answer to a query by the lists of its words.
fn answer_of<D: Disk>(
    alloc: Global,
    disk: &mut D,
    archive: &mut Archive,
    query: &Query,
    at: Time,
    wanted: Wanted,
) -> Result<Answer, FetchError>
    requires within { Reaches (D.disk disk.old).reach archive.old }
    ensures only { D.Disk.only disk.old disk.new }
    ensures after { AfterFetching D.disk_tells result (D.disk disk.old) (D.disk disk.new) archive.old archive.new }
    ensures fetched { Fetches D.disk_tells at.seconds (at.seconds + 1) (words_of query.now)
        (λ h answer. IsWantedAt wanted h (D.disk disk.old).holds.pages at.seconds query.now answer.rows.items answer.read)
        result (D.disk disk.old) (D.disk disk.new) archive.old archive.new }
{
    let parts = parts_of(alloc, disk, archive, query.words(), moment(at))?;
    let answer = answer_by(alloc, archive, query, at, &parts, wanted)?;
    Ok(answer)
}

/// The answer to a query by what was chosen of the lists of its words.
fn answer_by(
    alloc: Global,
    archive: &Archive,
    query: &Query,
    at: Time,
    parts: &[Part],
    wanted: Wanted,
) -> Result<Answer, AllocError>
    requires { length parts.now ≡ length (words_of query.now) }
    ensures read { IfOk result (λ answer. answer.read ≡ read_of parts.now) }
    ensures rows { (h : History) (pages : List ℕ) → StandsFor archive.now h
        → AreChosen h pages at.seconds (at.seconds + 1) (words_of query.now) parts.now
        → IfOk result (λ answer. AreWantedOf wanted (λ rows. IsAnswer (λ doc. IsSome (text_at h doc at.seconds))
        (λ doc. told (words_of query.now) parts.now at.seconds doc.0) query.now rows) answer.rows.items) }
{
    answer_with(alloc, archive, query, at, parts, wanted)
}

/// The answer to a query by any lists of its words, if where no word has a plan all documents that have one
/// of the words by these lists are alive.
pub(crate) fn answer_with(
    alloc: Global,
    archive: &Archive,
    query: &Query,
    at: Time,
    parts: &[Part],
    wanted: Wanted,
) -> Result<Answer, AllocError>
    requires { length parts.now ≡ length (words_of query.now) }
    ensures read { IfOk result (λ answer. answer.read ≡ read_of parts.now) }
    ensures rows { (h : History) → StandsFor archive.now h
        → (All (λ word. plan_of h word ≡ None) (words_of query.now) → HitsAreAlive h (words_of query.now) parts.now at.seconds)
        → IfOk result (λ answer. AreWantedOf wanted (λ rows. IsAnswer (λ doc. IsSome (text_at h doc at.seconds))
        (λ doc. told (words_of query.now) parts.now at.seconds doc.0) query.now rows) answer.rows.items) }
{
    if query.matches_without_words() {
        let alive = archive.directory().alive(alloc, at)?;
        let answer = answer_from(alloc, query, at, parts, &alive, wanted)?;
        return Ok(answer);
    }
    if is_any_planned(archive, query.words()) {
        // All documents with a hit are alive, but for bytes of Pages that no archive wrote.
        let directory = archive.directory();
        let is_alive = |doc| directory.alive_at(doc, at);
        let answer = answer_by_living_hits(alloc, query, at, parts, is_alive, wanted)?;
        return Ok(answer);
    }
    let answer = answer_by_hits(alloc, query, at, parts, wanted)?;
    Ok(answer)
}

/// Whether one of some words has a plan. Costs a search among the plans for each word.
pub(crate) fn is_any_planned(archive: &Archive, words: &[Key]) -> bool
    ensures { result ≡ false → All (λ word. All (λ s. is_another word s ≡ true) archive.now.shelf.plans) words.now }
{
    for word in words {
        if archive.shelf().position(word).is_some() {
            return true;
        }
    }
    false
}

/// The text of the document's version that is alive at the time; None exactly where the document
/// isn't alive then. Nothing is changed.
///
/// `Failed`: the disk failed. `Memory`: an allocation failed.
/// Costs what a look-up in the directory does, and one read of the text's length.
pub fn show<D: Disk>(
    alloc: Global,
    disk: &mut D,
    archive: &Archive,
    doc: DocId,
    at: Time,
) -> Result<Option<Vec<u8>>, ReadError>
    requires within { Reaches (D.disk disk.old).reach archive.now }
    ensures only { D.Disk.only disk.old disk.new }
    ensures same { OnlyReads (D.disk disk.old) (D.disk disk.new) }
    ensures failed { IsErrOf result ReadError.Failed → Rose (D.disk disk.old).faults (D.disk disk.new).faults }
    // In step by what reads give, whatever lies in Pages, it is a step.
    ensures by_reads { D.disk_tells → (s : Store) → AreInStepBy (D.disk disk.old) archive.now s →
        TakesBy s (items.Command (commands.Show doc at)) (version_shown (λ v. v.items) result) (D.disk disk.old)
        (D.disk disk.new) archive.now }
{
    let Some(place) = archive.directory().place(doc, at) else {
        return Ok(None);
    };
    let text = read_text(alloc, disk, archive.journal(), place)?;
    Ok(Some(text))
}
