//! The first rows of random lists, beside a sort of all rows.
ghost use Rattle.std.specs.Prelude.{◌≡◌, length};
ghost use Rattle.query_lang.specs.Meaning.{words_of};

use super::given::{Numbers, Plain, expect_same_in, parts_of, read};
use base_types::{DocId, NOW, Time};
use query_eval::{Part, Wanted, answer_by_hits, answer_from};
use query_lang::Query;
use std::alloc::Global;
use std::cmp::Reverse;
use std::process::Abort;

/// A list of documents with the numbers below a bound, each with a frequency up to another one.
fn random_list(
    rt: &impl Abort,
    alloc: Global,
    numbers: &mut Numbers,
    docs: u32,
    most: u32,
) -> Vec<Plain> {
    let mut list = Vec::new(alloc);
    for doc in 0..docs {
        let tf = numbers.below(most).saturating_add(1);
        list.push((doc, 10, NOW, tf)).expect(rt, "memory");
    }
    list
}

/// So many of the documents below a bound, in no order and some more than once.
fn random_documents(
    rt: &impl Abort,
    alloc: Global,
    numbers: &mut Numbers,
    docs: u32,
    count: u32,
) -> Vec<DocId> {
    let mut some = Vec::new(alloc);
    for _ in 0..count {
        let doc = DocId(numbers.below(docs));
        some.push(doc).expect(rt, "memory");
    }
    some
}

/// The frequency in a list of a document that it has.
fn frequency_of(list: &[Plain], doc: DocId) -> u32 {
    match list.get(doc.0 as usize) {
        Some((_, _, _, tf)) => *tf,
        None => 0,
    }
}

/// The first documents and scores by a sort of all.
fn sorted(
    rt: &impl Abort,
    alloc: Global,
    list: &[Plain],
    docs: &[DocId],
    count: usize,
) -> Vec<(u64, u32)> {
    let mut all = Vec::new(alloc);
    for doc in docs {
        let score = u64::from(frequency_of(list, *doc));
        all.push((score, doc.0)).expect(rt, "memory");
    }
    all.sort_unstable_by_key(|(score, doc)| (Reverse(*score), *doc));
    all.dedup();
    all.truncate(count);
    all
}

/// The first rows that a query for red finds among these documents.
fn first_of(
    rt: &impl Abort,
    alloc: Global,
    query: &Query,
    parts: &[Part],
    docs: &[DocId],
    count: usize,
) -> Vec<(u64, u32)>
    requires { length parts.now ≡ length (words_of query.now) }
{
    let t = Time::new(20).expect(rt, "a time");
    let answer = answer_from(alloc, query, t, parts, docs, Wanted::First(count)).expect(
        rt, "memory",
    );
    let mut rows = Vec::new(alloc);
    for row in &answer.rows {
        rows.push((row.score, row.doc.0)).expect(rt, "memory");
    }
    rows
}

/// The first rows that a query for red finds by hits.
fn first_by_hits(
    rt: &impl Abort,
    alloc: Global,
    query: &Query,
    parts: &[Part],
    count: usize,
) -> Vec<(u64, u32)>
    requires { length parts.now ≡ length (words_of query.now) }
{
    let t = Time::new(20).expect(rt, "a time");
    let answer = answer_by_hits(alloc, query, t, parts, Wanted::First(count)).expect(rt, "memory");
    let mut rows = Vec::new(alloc);
    for row in &answer.rows {
        rows.push((row.score, row.doc.0)).expect(rt, "memory");
    }
    rows
}

/// The first rows are those of a sort of all, of the documents of a list and of some of them.
fn expect_first(rt: &impl Abort, alloc: Global, numbers: &mut Numbers, docs: u32, count: u32) {
    let most = if numbers.below(2) == 0 { 4 } else { 1_000_000 };
    let list = random_list(rt, alloc, numbers, docs, most);
    let some = random_documents(rt, alloc, numbers, docs, docs);
    let mut each = Vec::new(alloc);
    for doc in 0..docs {
        each.push(DocId(doc)).expect(rt, "memory");
    }
    let query = read(rt, alloc, "red");
    let parts = parts_of(rt, alloc, &query, (&list, &[]));
    let count = count as usize;
    let found = first_of(rt, alloc, &query, &parts, &some, count);
    let wanted = sorted(rt, alloc, &list, &some, count);
    expect_same_in(rt, (docs, count), found.as_slice(), wanted.as_slice());
    let found = first_by_hits(rt, alloc, &query, &parts, count);
    let wanted = sorted(rt, alloc, &list, &each, count);
    expect_same_in(rt, (docs, count), found.as_slice(), wanted.as_slice());
}

#[test]
fn the_first_rows_are_those_of_a_sort_of_all(rt: HostRuntime) {
    let alloc = rt.alloc();
    let mut numbers = Numbers { state: 458 };
    for _ in 0..290 {
        let docs = numbers.below(60).saturating_add(1);
        let count = numbers.below(70);
        expect_first(&rt, alloc, &mut numbers, docs, count);
    }
    // more rows than are kept at once
    for _ in 0..9 {
        let docs = numbers.below(200).saturating_add(1025);
        let count = numbers.below(512);
        expect_first(&rt, alloc, &mut numbers, docs, count);
    }
    expect_first(&rt, alloc, &mut numbers, 1300, 600);
}
