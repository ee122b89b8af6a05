//! The hits of documents.
ghost use Rattle.std.specs.Prelude.{◌≡◌, ◌<◌, ◌≤◌, ◌-◌, ◌++◌, true, false, ℕ, length, take, drop, get_or, slice_index, filter, IfOk, OnOk};
ghost use Rattle.std.specs.List.Sorted.{IsNonDecreasingBy, IsPartitionPoint};
ghost use Rattle.query_eval.specs.Hits.{hits_of, found, is_before, is_up_to, is_of, hits_in, gathered, IsCut};
ghost use Rattle.query_eval.specs.declared.hit.Hit.{Hit as HitValue};

use crate::part::Part;
use base_types::{DocId, Posting, Time};
use std::alloc::{AllocError, Global};

/// A word in a document.
#[derive(Clone, Copy, Debug, PartialEq, Eq)]
pub(crate) struct Hit {
    /// The document.
    pub(crate) doc: DocId,
    /// The word's place in the query.
    pub(crate) place: usize,
    /// How often the document has it.
    pub(crate) tf: u32,
}

/// The hits of the word at a place, by the postings of a list that hold the time.
fn note(hits: &mut Vec<Hit>, place: usize, list: &[Posting], t: Time) -> Result<(), AllocError>
    ensures { OnOk result (hits.new.items ≡ hits.old.items ++ hits_in t.seconds place list.now) }
{
    for p in list {
        if p.span.from <= t.seconds && t.seconds < p.span.to {
            hits.push(Hit {
                doc: p.doc,
                place,
                tf: p.tf,
            })?;
        }
    }
    Ok(())
}

/// The hits of all parts, word by word.
fn gather(alloc: Global, parts: &[Part], t: Time) -> Result<Vec<Hit>, AllocError>
    ensures { IfOk result (λ hits. hits.items ≡ gathered t.seconds 0 parts.now) }
{
    let mut hits = Vec::new(alloc);
    for (place, part) in parts.iter().enumerate() {
        note(&mut hits, place, &part.list, t)?;
    }
    Ok(hits)
}

/// Sorts hits by document, and keeps the order of each document's.
fn sort_by_doc(hits: &mut Vec<Hit>) -> Result<(), AllocError>
    ensures sorted { OnOk result (IsNonDecreasingBy (λ h. h.doc.0) hits.new.items) }
    ensures stable { (d : ℕ) → filter (is_of d) hits.new.items ≡ filter (is_of d) hits.old.items }
{
    hits.sort_by_key(|h| h.doc.0)?;
    Ok(())
}

/// The hits of parts at a time, by document, and each document's by the places of their words. Costs
/// the postings and a sort.
pub(crate) fn hits_at(alloc: Global, parts: &[Part], t: Time) -> Result<Vec<Hit>, AllocError>
    ensures sorted { IfOk result (λ hits. IsNonDecreasingBy (λ h. h.doc.0) hits.items) }
    ensures each { IfOk result (λ hits. (d : ℕ) → filter (is_of d) hits.items ≡ filter (is_of d) (gathered t.seconds 0 parts.now)) }
{
    let mut hits = gather(alloc, parts, t)?;
    sort_by_doc(&mut hits)?;
    Ok(hits)
}

/// How many hits are of documents before this one.
fn first_of(hits: &[Hit], doc: DocId) -> usize
    ensures inside { result ≤ length hits.now }
    ensures place { IsNonDecreasingBy (λ h. h.doc.0) hits.now
        → IsPartitionPoint (λ h. is_before doc.0 h ≡ true) (λ h. is_before doc.0 h ≡ false) hits.now result }
{
    hits.partition_point(|h| h.doc < doc)
}

/// How many hits are of documents up to this one.
fn behind(hits: &[Hit], doc: DocId) -> usize
    ensures inside { result ≤ length hits.now }
    ensures place { IsNonDecreasingBy (λ h. h.doc.0) hits.now
        → IsPartitionPoint (λ h. is_up_to doc.0 h ≡ true) (λ h. is_up_to doc.0 h ≡ false) hits.now result }
{
    hits.partition_point(|h| h.doc <= doc)
}

/// The hits of a document, among hits that stand by document. Costs two searches.
pub(crate) fn group_of(hits: &[Hit], doc: DocId) -> &[Hit]
    requires { IsNonDecreasingBy (λ h. h.doc.0) hits.now }
    ensures { result.now ≡ hits_of doc hits.now }
{
    let start = first_of(hits, doc);
    let late = &hits[start..];
    let count = behind(late, doc);
    &late[..count]
}

/// How often a document has the words by its hits, in the places of the words: as the first hit of a
/// word says.
pub(crate) fn count_words(counts: &mut [u32], group: &[Hit])
    ensures { (k : ℕ) → k < length counts.old → slice_index counts.new k ≡ found group.now k }
{
    counts.fill(0);
    let mut i = group.len();
    while i > 0 {
        i -= 1;
        let hit = group[i];
        if hit.place < counts.len() {
            counts[hit.place] = hit.tf;
        }
    }
}

/// Where the hits of a document end, of which the first stands at a place. Costs these hits.
pub(crate) fn end_of(hits: &[Hit], start: usize) -> usize
    requires sorted { IsNonDecreasingBy (λ h. h.doc.0) hits.now }
    requires there { start < length hits.now }
    requires first { IsCut hits.now start }
    ensures behind { start < result }
    ensures inside { result ≤ length hits.now }
    ensures next { IsCut hits.now result }
    ensures group { (h : HitValue) → take (result - start) (drop start hits.now) ≡ hits_of (get_or hits.now start h).doc hits.now }
{
    let doc = hits[start].doc;
    let mut end = start + 1;
    while end < hits.len() && hits[end].doc == doc {
        end += 1;
    }
    end
}
