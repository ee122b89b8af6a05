//! Answers to queries over any lists.
ghost use Rattle.std.specs.Prelude.{option_to_list, ◌++◌, OnOk, ◌≡◌, ◌<◌, ◌≤◌, true, filter, ℕ, Bool, List, [], Ok, length, map, Contains, IfOk};
ghost use Rattle.std.specs.List.{filter_map, slice_index_or};
ghost use Rattle.std.specs.List.Sorted.{IsNonDecreasingBy};
ghost use Rattle.query_lang.specs.Meaning.{words_of};
ghost use Rattle.query_eval.specs.Answers.{IsAnswer};
ghost use Rattle.query_eval.specs.Firsts.{AreInOrder, AreWantedOf};
ghost use Rattle.query_eval.specs.Found.{told, HasHit, read_of, AnswersAs, row_of};
ghost use Rattle.query_eval.specs.Hits.{found, Tell, AreMade};
ghost use Rattle.base_types.specs.declared.ids.DocId.{DocId as DocValue};

use crate::answer::{Answer, Row, Wanted};
use crate::hit::{Hit, count_words, end_of, group_of, hits_at};
use crate::part::Part;
use crate::ranking::{put, wanted_of};
use base_types::{DocId, Time};
use query_lang::{Pile, Query};
use std::alloc::{AllocError, Global};

/// The row of a document by its hits, where it matches. Costs the query's length, or nothing where
/// there is no hit.
pub(crate) fn row_by(
    query: &Query,
    doc: DocId,
    group: &[Hit],
    counts: &mut [u32],
    truths: &mut Pile<bool>,
) -> Result<Option<Row>, AllocError>
    requires { length counts.old ≡ length (words_of query.now) }
    ensures { IfOk result (λ row. (often : List ℕ → ℕ)
        → ((k : ℕ) → k < length (words_of query.now) → found group.now k ≡ often (slice_index_or (words_of query.now) k []))
        → row ≡ row_of query.now often doc) }
{
    if group.is_empty() {
        if query.matches_without_words() {
            return Ok(Some(Row { doc, score: 0 }));
        }
        return Ok(None);
    }
    count_words(counts, group);
    if query.matches(counts, truths)? {
        return Ok(Some(Row {
            doc,
            score: query.score(counts),
        }));
    }
    Ok(None)
}

/// The row of a document among hits that stand by document, where it matches.
fn row_among(
    query: &Query,
    doc: DocId,
    hits: &[Hit],
    counts: &mut [u32],
    truths: &mut Pile<bool>,
) -> Result<Option<Row>, AllocError>
    requires sorted { IsNonDecreasingBy (λ h. h.doc.0) hits.now }
    requires room { length counts.old ≡ length (words_of query.now) }
    ensures { IfOk result (λ row. (often : DocValue → List ℕ → ℕ) → Tell hits.now (words_of query.now) often
        → row ≡ row_of query.now (often doc) doc) }
{
    row_by(query, doc, group_of(hits, doc), counts, truths)
}

/// Puts a row behind others, if there is one and its document is alive.
fn put_living<F: Fn(DocId) -> bool>(
    rows: &mut Vec<Row>,
    row: Option<Row>,
    is_alive: &F,
) -> Result<(), AllocError>
    requires { F.IsAlwaysCallable is_alive.now }
    ensures { OnOk result ((alive : DocValue → Bool) → AnswersAs (F.post is_alive.now) alive
        → rows.new.items ≡ rows.old.items ++ filter (λ row. alive row.doc) (option_to_list row)) }
{
    if let Some(row) = row {
        if is_alive(row.doc) {
            rows.push(row)?;
        }
    }
    Ok(())
}

/// The rows of documents, in the order of these; `counts` is room for the words' frequencies.
fn rows_of(
    alloc: Global,
    query: &Query,
    hits: &[Hit],
    alive: &[DocId],
    counts: &mut [u32],
) -> Result<Vec<Row>, AllocError>
    requires sorted { IsNonDecreasingBy (λ h. h.doc.0) hits.now }
    requires room { length counts.old ≡ length (words_of query.now) }
    ensures { IfOk result (λ rows. (often : DocValue → List ℕ → ℕ) → Tell hits.now (words_of query.now) often
        → rows.items ≡ filter_map (λ doc. row_of query.now (often doc) doc) alive.now) }
{
    let mut truths = Pile::new(alloc);
    let mut rows = Vec::new(alloc);
    for i in 0..alive.len() {
        let row = row_among(query, alive[i], hits, counts, &mut truths)?;
        put(&mut rows, row)?;
    }
    Ok(rows)
}

/// The rows of the documents that have a hit and are alive, among hits that stand by document, in
/// their order. One pass over the hits, the query's length for each document, and a call of `is_alive`
/// for each that matches; `counts` is room for the words' frequencies.
fn rows_by_hits<F: Fn(DocId) -> bool>(
    alloc: Global,
    query: &Query,
    hits: &[Hit],
    counts: &mut [u32],
    is_alive: F,
) -> Result<Vec<Row>, AllocError>
    requires callable { F.IsAlwaysCallable is_alive }
    requires sorted { IsNonDecreasingBy (λ h. h.doc.0) hits.now }
    requires room { length counts.old ≡ length (words_of query.now) }
    ensures { IfOk result (λ rows. (alive : DocValue → Bool) → AnswersAs (F.post is_alive) alive
        → AreMade alive query.now hits.now hits.now rows.items) }
{
    let mut truths = Pile::new(alloc);
    let mut rows = Vec::new(alloc);
    let mut start = 0;
    while start < hits.len() {
        let end = end_of(hits, start);
        let row = row_by(
            query,
            hits[start].doc,
            &hits[start..end],
            counts,
            &mut truths,
        )?;
        put_living(&mut rows, row, &is_alive)?;
        start = end;
    }
    Ok(rows)
}

/// The sum of what was read for parts, of which there are few.
pub(crate) fn read_of(parts: &[Part]) -> u64
    requires { length parts.now ≤ 4096 }
    ensures { result ≡ read_of parts.now }
{
    let mut read = 0;
    for part in parts {
        read += part.read;
    }
    read
}

/// The rows that are asked for, with how many postings were read.
fn answer_of(
    alloc: Global,
    rows: Vec<Row>,
    parts: &[Part],
    wanted: Wanted,
) -> Result<Answer, AllocError>
    requires { length parts.now ≤ 4096 }
    ensures rows { IfOk result (λ a. AreWantedOf wanted (λ all. AreInOrder all rows.items) a.rows.items) }
    ensures read { IfOk result (λ a. a.read ≡ read_of parts.now) }
{
    let rows = wanted_of(alloc, rows, wanted)?;
    Ok(Answer {
        rows,
        read: read_of(parts),
    })
}

/// What the query finds by hits among these documents.
fn answer_among(
    alloc: Global,
    query: &Query,
    parts: &[Part],
    hits: &[Hit],
    alive: &[DocId],
    wanted: Wanted,
) -> Result<Answer, AllocError>
    requires many { length parts.now ≡ length (words_of query.now) }
    requires sorted { IsNonDecreasingBy (λ h. h.doc.0) hits.now }
    ensures rows { IfOk result (λ a. (often : DocValue → List ℕ → ℕ) → Tell hits.now (words_of query.now) often
        → AreWantedOf wanted (λ rows. IsAnswer (λ doc. Contains alive.now doc) often query.now rows) a.rows.items) }
    ensures read { IfOk result (λ a. a.read ≡ read_of parts.now) }
{
    let mut counts = vec![in alloc; 0; query.words().len()]?;
    let rows = rows_of(alloc, query, hits, alive, &mut counts)?;
    let answer = answer_of(alloc, rows, parts, wanted)?;
    Ok(answer)
}

/// What the query finds by hits among the documents that have one and are alive.
fn answer_over<F: Fn(DocId) -> bool>(
    alloc: Global,
    query: &Query,
    parts: &[Part],
    hits: &[Hit],
    is_alive: F,
    wanted: Wanted,
) -> Result<Answer, AllocError>
    requires callable { F.IsAlwaysCallable is_alive }
    requires many { length parts.now ≡ length (words_of query.now) }
    requires sorted { IsNonDecreasingBy (λ h. h.doc.0) hits.now }
    ensures rows { IfOk result (λ a. (alive : DocValue → Bool) → AnswersAs (F.post is_alive) alive
        → (often : DocValue → List ℕ → ℕ) → Tell hits.now (words_of query.now) often
        → AreWantedOf wanted (λ rows. IsAnswer (λ doc. Contains (map (λ h. h.doc) hits.now) doc × (alive doc ≡ true)) often query.now rows)
        a.rows.items) }
    ensures read { IfOk result (λ a. a.read ≡ read_of parts.now) }
{
    let mut counts = vec![in alloc; 0; query.words().len()]?;
    let rows = rows_by_hits(alloc, query, hits, &mut counts, is_alive)?;
    let answer = answer_of(alloc, rows, parts, wanted)?;
    Ok(answer)
}

/// What the query finds at a time among these documents, by the parts of the lists of its words, one
/// for each distinct word in order. A document has a word as often as the first posting of its part
/// says that holds the time. Costs the parts, a sort of their postings, for each document two searches,
/// and, where it has a hit, the query's length; and of the rows a sort, or, where the first few are asked
/// for, a pass that keeps at most twice as many and sorts these each time that they are so many.
pub fn answer_from(
    alloc: Global,
    query: &Query,
    t: Time,
    parts: &[Part],
    alive: &[DocId],
    wanted: Wanted,
) -> Result<Answer, AllocError>
    requires { length parts.now ≡ length (words_of query.now) }
    ensures rows { IfOk result (λ a. AreWantedOf wanted (λ rows. IsAnswer (λ doc. Contains alive.now doc)
        (λ doc. told (words_of query.now) parts.now t.seconds doc.0) query.now rows) a.rows.items) }
    ensures read { IfOk result (λ a. a.read ≡ read_of parts.now) }
{
    let hits = hits_at(alloc, parts, t)?;
    let answer = answer_among(alloc, query, parts, &hits, alive, wanted)?;
    Ok(answer)
}

/// What the query finds at a time among the documents that have one of its words then, by the parts
/// of the lists of its words as in `answer_from`. Where `Query::matches_without_words` is false and
/// whatever has a word is alive, no document is missed (`only_hits_matter`). Costs the parts, a sort of
/// their postings, for each document that has a hit the query's length, and of the rows what `answer_from`
/// does.
pub fn answer_by_hits(
    alloc: Global,
    query: &Query,
    t: Time,
    parts: &[Part],
    wanted: Wanted,
) -> Result<Answer, AllocError>
    requires { length parts.now ≡ length (words_of query.now) }
    ensures rows { IfOk result (λ a. AreWantedOf wanted (λ rows. IsAnswer (HasHit (words_of query.now) parts.now t.seconds)
        (λ doc. told (words_of query.now) parts.now t.seconds doc.0) query.now rows) a.rows.items) }
    ensures read { IfOk result (λ a. a.read ≡ read_of parts.now) }
{
    answer_by_living_hits(alloc, query, t, parts, |_| true, wanted)
}

/// What `answer_by_hits` finds of the documents that are alive by this test. Costs what `answer_by_hits`
/// does, and a call of the test for each document that matches, in the order of the documents.
pub fn answer_by_living_hits<F: Fn(DocId) -> bool>(
    alloc: Global,
    query: &Query,
    t: Time,
    parts: &[Part],
    is_alive: F,
    wanted: Wanted,
) -> Result<Answer, AllocError>
    requires callable { F.IsAlwaysCallable is_alive }
    requires many { length parts.now ≡ length (words_of query.now) }
    ensures rows { IfOk result (λ a. (alive : DocValue → Bool) → AnswersAs (F.post is_alive) alive
        → AreWantedOf wanted (λ rows. IsAnswer (λ doc. HasHit (words_of query.now) parts.now t.seconds doc × (alive doc ≡ true))
        (λ doc. told (words_of query.now) parts.now t.seconds doc.0) query.now rows) a.rows.items) }
    ensures read { IfOk result (λ a. a.read ≡ read_of parts.now) }
{
    let all = hits_at(alloc, parts, t)?;
    let hits = all.as_slice();
    let answer = answer_over(alloc, query, parts, hits, is_alive, wanted)?;
    Ok(answer)
}
