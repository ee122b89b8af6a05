//! The first rows.
ghost use Rattle.std.specs.Prelude.{◌≡◌, ◌⊎◌, ◌+◌, ◌-◌, ◌^◌, ◌<◌, ◌≤◌, ℕ, true, false, List, [], ◌++◌, length, slice_index, All, IfOk, OnOk, IsErrOf};
ghost use Rattle.std.specs.List.{AllZip, slice_index_or};
ghost use Rattle.query_top.specs.Sheets.{IsSheet, score};
ghost use Rattle.query_top.specs.Firsts.{Each, AreRanked, AreFirst, below, shows, no_row};
ghost use Rattle.query_top.specs.Lanes.{AreAscending, HasCursor, IsPassed, given, weights_of, AreFit};
ghost use Rattle.query_top.specs.Opening.{Opened, Opens, HasOpened, OpensToFault};
ghost use Rattle.query_top.specs.Steps.{AreThrough};
ghost use Rattle.query_top.specs.declared.blocks.TopError.{TopError};

use crate::blocks::{Blocks, TopError};
use crate::lane::{END, Lane};
use crate::lanes::{add_all, lanes_of, next_of, open_all, survey};
use crate::ranking::{Row, offer};
use base_types::Time;
use std::alloc::{AllocError, Global};

/// How many documents are scored at once, at most. Where documents lie far apart, a window costs as many sums for one hit.
const WINDOW: u64 = 64;

/// Whether no document with at most this score can be among the first rows.
fn is_passed(rows: &[Row], count: usize, most: u64) -> bool
    requires { 1 ≤ count }
    ensures yes { result ≡ true → length rows.now ≤ count → AreRanked rows.now
        → (most ≡ 0) ⊎ ((length rows.now ≡ count) × Each (λ r. most ≤ r.score) rows.now) }
    ensures no { result ≡ false → (0 < most) × ((length rows.now < count) ⊎ ((slice_index_or rows.now (count - 1) no_row).score < most)) }
{
    if most == 0 {
        return true;
    }
    rows.len() >= count && rows[count - 1].score >= most
}

/// Offers the documents from one on with their scores.
fn offer_all(rows: &mut Vec<Row>, count: usize, from: u64, sums: &[u64]) -> Result<(), AllocError>
    requires some { 1 ≤ count }
    requires few { length rows.old.items ≤ count }
    requires near { from + length sums.now ≤ 2 ^ 32 }
    ensures few { OnOk result (length rows.new.items ≤ count) }
    ensures first { (of : ℕ → ℕ) → ((k : ℕ) → k < length sums.now → of (from + k) ≡ slice_index sums.now k)
        → AreFirst (below from of) count rows.old.items
        → OnOk result (AreFirst (below (from + length sums.now) of) count rows.new.items) }
    ensures shown { OnOk result ((x : ℕ) → shows rows.new.items x ≡ true → (shows rows.old.items x ≡ true)
        ⊎ ((from ≤ x) × (x < from + length sums.now))) }
{
    for k in 0..sums.len() {
        offer(rows, count, (from + k as u64) as u32, sums[k])?;
    }
    Ok(())
}

/// Scores the documents from one on, for each of which there is a sum, by what is left of the lanes' hits, and offers them. Costs the
/// sums and the hits of these documents.
fn score_all(
    at: Time,
    count: usize,
    from: u64,
    lanes: &mut [Lane],
    sums: &mut [u64],
    rows: &mut Vec<Row>,
) -> Result<(), AllocError>
    requires some { 1 ≤ count }
    requires few { length rows.old.items ≤ count }
    requires fit { Each HasCursor lanes.old }
    requires near { from + length sums.old ≤ 2 ^ 32 }
    ensures few { OnOk result (length rows.new.items ≤ count) }
    ensures passed { OnOk result (AllZip (IsPassed at.seconds (from + length sums.old)) lanes.old lanes.new) }
    ensures first { (of : ℕ → ℕ) → Each (λ l. AreAscending l.hits.items) lanes.old
        → ((k : ℕ) → k < length sums.old → (of (from + k) ≡ given at.seconds (from + k) lanes.old) × (of (from + k) < 2 ^ 64))
        → AreFirst (below from of) count rows.old.items
        → OnOk result (AreFirst (below (from + length sums.old) of) count rows.new.items) }
    ensures shown { OnOk result ((x : ℕ) → shows rows.new.items x ≡ true → (shows rows.old.items x ≡ true)
        ⊎ ((from ≤ x) × (x < from + length sums.old))) }
{
    sums.fill(0);
    add_all(lanes, at, from, sums);
    offer_all(rows, count, from, sums)
}

/// Goes on from a document: passes over those that can't be among the first rows by the tops of the blocks that cover them; or opens
/// these blocks, and scores the documents from the next hit on up to where the next block begins, at most a window. Tells the document
/// to go on from.
fn step<B: Blocks>(
    at: Time,
    count: usize,
    d: u64,
    lanes: &mut [Lane],
    sums: &mut [u64],
    rows: &mut Vec<Row>,
    blocks: &mut B,
) -> Result<u64, TopError<B::Fault>>
    requires some { 1 ≤ count }
    requires few { length rows.old.items ≤ count }
    requires fit { AreFit (B.sheets blocks.old) lanes.old }
    requires words { length lanes.old ≤ 4096 }
    requires near { d < 2 ^ 32 }
    requires window { length sums.old ≡ 64 }
    ensures sheets { B.sheets blocks.new ≡ B.sheets blocks.old }
    ensures fault { (e : _) → IsErrOf result (TopError.Blocks e) → OpensToFault B.opens blocks.old e blocks.new }
    ensures far { IfOk result (λ e. (d < e) × (e ≤ 2 ^ 32)) }
    ensures few { OnOk result (length rows.new.items ≤ count) }
    ensures fit { OnOk result (AreFit (B.sheets blocks.old) lanes.new) }
    ensures weights { OnOk result (weights_of lanes.new ≡ weights_of lanes.old) }
    ensures through { IfOk result (λ e. (more : List Opened) × Opens B.opens blocks.old more blocks.new
        × ((os : List Opened) → Each (IsSheet at.seconds) (B.sheets blocks.old)
        → AreThrough at.seconds (weights_of lanes.old) (B.sheets blocks.old) count d lanes.old rows.old.items os
        → AreThrough at.seconds (weights_of lanes.old) (B.sheets blocks.old) count e lanes.new rows.new.items (os ++ more))) }
{
    let view = survey(lanes, blocks, d);
    if is_passed(rows, count, view.top) {
        return Ok(view.border);
    }
    open_all(lanes, blocks)?;
    let from = next_of(lanes, view.start).max(d);
    let end = view.start.min(from + WINDOW);
    let len = (end - from) as usize;
    score_all(at, count, from, lanes, &mut sums[..len], rows)?;
    Ok(end)
}

/// Goes through all documents.
fn search<B: Blocks>(
    at: Time,
    count: usize,
    lanes: &mut [Lane],
    sums: &mut [u64],
    rows: &mut Vec<Row>,
    blocks: &mut B,
) -> Result<(), TopError<B::Fault>>
    requires some { 1 ≤ count }
    requires few { length rows.old.items ≤ count }
    requires fit { AreFit (B.sheets blocks.old) lanes.old }
    requires words { length lanes.old ≤ 4096 }
    requires window { length sums.old ≡ 64 }
    ensures sheets { B.sheets blocks.new ≡ B.sheets blocks.old }
    ensures fault { (e : _) → IsErrOf result (TopError.Blocks e) → OpensToFault B.opens blocks.old e blocks.new }
    ensures through { OnOk result ((os : List Opened) × Opens B.opens blocks.old os blocks.new
        × (Each (IsSheet at.seconds) (B.sheets blocks.old)
        → AreThrough at.seconds (weights_of lanes.old) (B.sheets blocks.old) count 0 lanes.old rows.old.items []
        → AreThrough at.seconds (weights_of lanes.old) (B.sheets blocks.old) count (2 ^ 32) lanes.new rows.new.items os)) }
{
    let mut d = 0;
    while d < END {
        d = step(at, count, d, lanes, sums, rows, blocks)?;
    }
    Ok(())
}

/// The first rows by score of the documents that have one of these words, each with its weight. Blocks
/// are gone through by document: where the tops of those that cover a document allow none of the first
/// rows, they are passed over.
pub fn top_rows<B: Blocks>(
    alloc: Global,
    weights: &[u32],
    at: Time,
    count: usize,
    blocks: &mut B,
) -> Result<Vec<Row>, TopError<B::Fault>>
    requires words { length weights.now ≡ length (B.sheets blocks.old) }
    requires few { length weights.now ≤ 4096 }
    requires weights { All (λ w. (1 ≤ w) × (w ≤ 1000)) weights.now }
    requires count { 1 ≤ count }
    ensures sheets { B.sheets blocks.new ≡ B.sheets blocks.old }
    // Where the headers are true: they are the first rows, and these blocks were opened.
    ensures first { Each (IsSheet at.seconds) (B.sheets blocks.old)
        → IfOk result (λ rows. AreFirst (score at.seconds weights.now (B.sheets blocks.old)) count rows.items) }
    ensures opened { Each (IsSheet at.seconds) (B.sheets blocks.old)
        → IfOk result (λ rows. HasOpened B.opens at.seconds weights.now (B.sheets blocks.old) count rows.items blocks.old blocks.new) }
    // And whatever they are: what the openings that were made lead to, one after another.
    ensures calls { OnOk result ((os : List Opened) × Opens B.opens blocks.old os blocks.new) }
    ensures fault { (e : _) → IsErrOf result (TopError.Blocks e) → OpensToFault B.opens blocks.old e blocks.new }
{
    let mut lanes = lanes_of(alloc, weights, blocks)?;
    let mut sums = vec![in alloc; 0u64; WINDOW as usize]?;
    let mut rows = Vec::new(alloc);
    search(at, count, &mut lanes, &mut sums, &mut rows, blocks)?;
    Ok(rows)
}
