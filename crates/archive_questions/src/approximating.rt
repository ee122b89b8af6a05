//! What is told approximately: the list of a word, and what a query finds by such lists.
ghost use Rattle.std.specs.Prelude.{◌≡◌, ◌^◌, ℕ, List, length, IfOk, IsErrOf, IsTrue};
ghost use Rattle.std.specs.List.{AllZip};
ghost use Rattle.std.specs.List.Sorted.{IsPermutation};
ghost use Rattle.base_types.specs.declared.posting.Posting.{Posting as PlainPosting};
ghost use Rattle.machine_model.specs.States.{DiskState};
ghost use Rattle.lists_postings.specs.Lists.{IsList, ComesBefore};
ghost use Rattle.lists_approx.specs.Approximations.{IsLongestFirst};
ghost use Rattle.query_lang.specs.Meaning.{words_of};
ghost use Rattle.query_eval.specs.Found.{read_of};
ghost use Rattle.model_archive.specs.Answers.{IsWordList};
ghost use Rattle.model_archive.specs.Chosen.{AreChosen};
ghost use Rattle.model_archive.specs.Histories.{History};
ghost use Rattle.model_archive.specs.Rough.{IsMadeRough, IsShortPart};
ghost use Rattle.model_archive.specs.Steps.{Approximated, Approximates, Refused};
ghost use Rattle.archive_hand.specs.States.{StandsFor, AreInStepBy, Reaches};
ghost use Rattle.archive_hand.specs.Stored.{Store};
ghost use Rattle.archive_hand.specs.Takes.{TakesBy};
ghost use Rattle.archive_questions.specs.After.{AfterFetching, AfterQuestion, Fetches};
ghost use Rattle.archive_questions.specs.Endings.{approximated, neared};
ghost use Rattle.base_commands.specs.declared.command.Command.TheVariants as commands;
ghost use Rattle.base_commands.specs.declared.command.Item.TheVariants as items;

use crate::asking::answer_with;
use crate::choosing::parts_of;
use crate::error::{AskError, asked};
use archive_entries::Declined;
use archive_hand::Archive;
use base_commands::Phrase;
use base_types::{Key, NOW, Posting, Span, Time, Tolerance};
use lists_approx::approximate;
use machine_model::Disk;
use model_archive::Refusal;
use pages_sublists::FetchError;
use query_eval::{Part, Row, Wanted};
use query_lang::Query;
use std::alloc::{AllocError, Global};
use text_words::one_term;

/// A word's list approximately.
#[derive(Debug, Drop)]
pub struct Approximation {
    /// The longest-first approximation of the whole list.
    pub short: Vec<Posting>,
    /// How many postings the whole list has.
    pub full: u64,
}

/// What a query finds by approximations of its words' lists.
#[derive(Debug, Drop)]
pub struct RoughAnswer {
    /// The documents that match, with scores that are near: the highest such score first, and of one score
    /// by document.
    pub rows: Vec<Row>,
    /// How many postings were read for them.
    pub read: u64,
}

/// The longest-first approximation of a word's whole list, than which none is shorter, and how many
/// postings that list has. Nothing is changed, and no disk is asked.
///
/// `Refused`: for the first cause in order, the phrase isn't one term, or no text has the word. `Memory`:
/// an allocation failed.
/// Costs one pass over the word's postings, and memory in them.
pub fn approx(
    alloc: Global,
    archive: &Archive,
    word: &Phrase,
    tolerance: Tolerance,
) -> Result<Approximation, Declined>
    // Whatever history it stands for: a refusal comes exactly where that has the cause (unless memory runs out), and what is told is of
    // it.
    ensures refused { (h : History) → StandsFor archive.now h → (why : Refusal) → IsErrOf result (Declined.Refused why)
        → Approximates h word.now tolerance (Refused why) }
    ensures approximates { (h : History) → StandsFor archive.now h
        → IfOk result (λ a. Approximates h word.now tolerance (Approximated a.short.items a.full)) }
    // In step by what reads give, whatever lies in Pages, it is a step.
    ensures by_reads { (d : DiskState) (s : Store) → AreInStepBy d archive.now s
        → TakesBy s (items.Command (commands.Approx word.now tolerance)) (approximated result) d d archive.now }
{
    approx_phrase(alloc, archive, word, tolerance)
}

/// The approximation of a phrase's word.
fn approx_phrase(
    alloc: Global,
    archive: &Archive,
    word: &Phrase,
    tolerance: Tolerance,
) -> Result<Approximation, Declined>
    ensures refused { (h : History) → StandsFor archive.now h → (why : Refusal) → IsErrOf result (Declined.Refused why)
        → Approximates h word.now tolerance (Refused why) }
    ensures approximates { (h : History) → StandsFor archive.now h
        → IfOk result (λ a. Approximates h word.now tolerance (Approximated a.short.items a.full)) }
{
    let Some(key) = one_term(alloc, word.as_str())? else {
        return Err(Declined::Refused(Refusal::NotOneTerm));
    };
    if !archive.knows(&key) {
        return Err(Declined::Refused(Refusal::UnknownWord));
    }
    let approximation = approximation_of(alloc, archive, &key, tolerance)?;
    Ok(approximation)
}

/// The approximation of a word's whole list.
fn approximation_of(
    alloc: Global,
    archive: &Archive,
    word: &Key,
    tolerance: Tolerance,
) -> Result<Approximation, AllocError>
    ensures { (h : History) → StandsFor archive.now h
        → IfOk result (λ a. (whole : List PlainPosting) × IsWordList h word.now whole × IsLongestFirst tolerance whole a.short.items
        × (a.full ≡ length whole)) }
{
    let whole = archive.index().list(alloc, word)?;
    let short = shortened(alloc, &whole, tolerance)?;
    Ok(Approximation {
        short,
        full: whole.len() as u64,
    })
}

/// What a query finds as of a time by the longest-first approximations of its words' whole lists: exactly
/// the documents that `find` finds, each with a score that differs from the true one by at most the
/// tolerance's part of that (`model_archive::rough_answers_are_near`), and how many postings were read for
/// them. Nothing is changed but which pages are kept.
///
/// `Refused`: the text is no query. `Damaged`: a sublist that was read isn't what the entry of its
/// plan says. `Failed`: the disk failed.
/// Costs the query's length. Of each word with a plan all its sublists are read from Pages, and its list in
/// memory from the horizon on; of each other word its list in memory. Each is approximated in one pass (where
/// there is a plan, after a sort). Then it costs what `find` does with lists that are so long. A page that
/// was read before is not read again while it is among the 1,024 that were used last.
pub fn rough<D: Disk>(
    alloc: Global,
    disk: &mut D,
    archive: &mut Archive,
    tolerance: Tolerance,
    at: Time,
    expr: &Phrase,
) -> Result<RoughAnswer, AskError>
    requires within { Reaches (D.disk disk.old).reach archive.old }
    ensures only { D.Disk.only disk.old disk.new }
    ensures after { AfterQuestion D.disk_tells expr.now 0 (2 ^ 40)
        (λ h query answer. IsMadeRough h (D.disk disk.old).holds.pages tolerance at.seconds query answer.rows.items answer.read)
        result (D.disk disk.old) (D.disk disk.new) archive.old archive.new }
    // In step by what reads give, whatever lies in Pages, it is a step.
    ensures by_reads { D.disk_tells → (s : Store) → AreInStepBy (D.disk disk.old) archive.old s →
        TakesBy s (items.Command (commands.Rough tolerance at expr.now)) (neared result) (D.disk disk.old) (D.disk disk.new) archive.new }
{
    ask_roughly(alloc, disk, archive, tolerance, at, expr)
}

/// What a text finds by approximations.
fn ask_roughly<D: Disk>(
    alloc: Global,
    disk: &mut D,
    archive: &mut Archive,
    tolerance: Tolerance,
    at: Time,
    expr: &Phrase,
) -> Result<RoughAnswer, AskError>
    requires within { Reaches (D.disk disk.old).reach archive.old }
    ensures only { D.Disk.only disk.old disk.new }
    ensures after { AfterQuestion D.disk_tells expr.now 0 (2 ^ 40)
        (λ h query answer. IsMadeRough h (D.disk disk.old).holds.pages tolerance at.seconds query answer.rows.items answer.read)
        result (D.disk disk.old) (D.disk disk.new) archive.old archive.new }
{
    match Query::read(alloc, expr.as_str()) {
        Ok(query) => asked(rough_answer_of(alloc, disk, archive, &query, tolerance, at)),
        Err(why) => Err(AskError::from(why)),
    }
}

/// The answer to a query by approximations of the lists of its words.
fn rough_answer_of<D: Disk>(
    alloc: Global,
    disk: &mut D,
    archive: &mut Archive,
    query: &Query,
    tolerance: Tolerance,
    at: Time,
) -> Result<RoughAnswer, FetchError>
    requires within { Reaches (D.disk disk.old).reach archive.old }
    ensures only { D.Disk.only disk.old disk.new }
    ensures after { AfterFetching D.disk_tells result (D.disk disk.old) (D.disk disk.new) archive.old archive.new }
    ensures fetched { Fetches D.disk_tells 0 (2 ^ 40) (words_of query.now)
        (λ h answer. IsMadeRough h (D.disk disk.old).holds.pages tolerance at.seconds query.now answer.rows.items answer.read)
        result (D.disk disk.old) (D.disk disk.new) archive.old archive.new }
{
    let parts = parts_of(alloc, disk, archive, query.words(), all_times())?;
    let answer = rough_answer_by(alloc, archive, query, tolerance, at, &parts)?;
    Ok(answer)
}

/// The answer to a query by approximations of what was chosen of the lists of its words.
fn rough_answer_by(
    alloc: Global,
    archive: &Archive,
    query: &Query,
    tolerance: Tolerance,
    at: Time,
    parts: &[Part],
) -> Result<RoughAnswer, AllocError>
    requires { length parts.now ≡ length (words_of query.now) }
    ensures { (h : History) (pages : List ℕ) → StandsFor archive.now h → AreChosen h pages 0 (2 ^ 40) (words_of query.now) parts.now
        → IfOk result (λ answer. IsMadeRough h pages tolerance at.seconds query.now answer.rows.items answer.read) }
{
    let shorts = short_parts(alloc, parts, tolerance)?;
    let answer = answer_with(alloc, archive, query, at, &shorts, Wanted::All)?;
    Ok(RoughAnswer {
        rows: answer.rows,
        read: answer.read,
    })
}

/// The approximations of parts, one by one; as much was read for them.
fn short_parts(alloc: Global, parts: &[Part], tolerance: Tolerance) -> Result<Vec<Part>, AllocError>
    ensures short { IfOk result (λ shorts. AllZip (IsShortPart tolerance) parts.now shorts.items) }
    ensures many { IfOk result (λ shorts. length shorts.items ≡ length parts.now) }
    ensures read { IfOk result (λ shorts. read_of shorts.items ≡ read_of parts.now) }
{
    let mut shorts = Vec::new(alloc);
    for part in parts {
        let short = short_part(alloc, part, tolerance)?;
        shorts.push(short)?;
    }
    Ok(shorts)
}

/// The approximation of a part; as much was read for it.
fn short_part(alloc: Global, part: &Part, tolerance: Tolerance) -> Result<Part, AllocError>
    ensures short { IfOk result (λ short. IsShortPart tolerance part.now short) }
    ensures read { IfOk result (λ short. short.read ≡ part.now.read) }
{
    let list = shortened(alloc, &part.list, tolerance)?;
    Ok(Part {
        list,
        read: part.read,
    })
}

/// The longest-first approximation of postings in any order. Postings of one document that overlap, as in
/// no list, are answered as out of memory.
fn shortened(
    alloc: Global,
    postings: &[Posting],
    tolerance: Tolerance,
) -> Result<Vec<Posting>, AllocError>
    ensures { IfOk result (λ short. IsLongestFirst tolerance postings.now short.items) }
{
    if is_list(postings) {
        return approximate(alloc, postings, tolerance);
    }
    let list = sorted(alloc, postings)?;
    if is_list(&list) {
        return approximate(alloc, &list, tolerance);
    }
    Err(AllocError)
}

/// The postings in the order of document and start.
fn sorted(alloc: Global, postings: &[Posting]) -> Result<Vec<Posting>, AllocError>
    ensures { IfOk result (λ list. IsPermutation postings.now list.items) }
{
    let mut list = Vec::new(alloc);
    list.extend_from_slice(postings)?;
    list.sort_unstable_by_key(|p| (p.doc, p.span.from));
    Ok(list)
}

/// Whether the postings are a list. One pass over them.
fn is_list(postings: &[Posting]) -> bool
    ensures { IsTrue result → IsList postings.now }
{
    for i in 1..postings.len() {
        if !comes_before(&postings[i - 1], &postings[i]) {
            return false;
        }
    }
    true
}

/// Whether `p` may stand before `q` in a list. Constant cost.
fn comes_before(p: &Posting, q: &Posting) -> bool
    ensures { IsTrue result → ComesBefore p.now q.now }
{
    p.doc < q.doc || (p.doc == q.doc && p.span.to <= q.span.from)
}

/// All times that may be asked for.
fn all_times() -> Span
    ensures from { result.from ≡ 0 }
    ensures to { result.to ≡ 2 ^ 40 }
{
    Span { from: 0, to: NOW }
}
