//! The lanes of all words together.
ghost use Rattle.std.specs.Prelude.{◌≡◌, ℕ, ◌+◌, ◌*◌, ◌^◌, ◌<◌, ◌≤◌, min, length, slice_index, All, IfOk, OnOk, IsErrOf};
ghost use Rattle.std.specs.List.{AllZip};
ghost use Rattle.query_top.specs.Sheets.{Sheet, IsSheet, greatest};
ghost use Rattle.query_top.specs.Firsts.{Each};
ghost use Rattle.query_top.specs.Lanes.{AreAscending, HasCursor, given, weighted, weights_of, opened_at, AreFit, IsFit, Lie, Lies, IsOpened, IsPassed};
ghost use Rattle.query_top.specs.Opening.{Opens, OpensToFault};
ghost use Rattle.query_top.specs.Steps.{runs};
ghost use Rattle.query_top.specs.declared.blocks.TopError.{TopError};

use crate::blocks::{Blocks, TopError};
use crate::lane::{END, Lane};
use crate::opening::open_covering;
use base_types::{Posting, Time};
use std::alloc::{AllocError, Global};

/// What is so of a document and those behind it.
#[derive(Clone, Copy)]
pub(crate) struct View {
    /// The most that each document up to the border has.
    pub(crate) top: u64,
    /// Where other blocks cover the documents.
    pub(crate) border: u64,
    /// Where a block begins next.
    pub(crate) start: u64,
}

impl View {
    /// The same with one lane more.
    fn with(self, lane: &Lane) -> View
        requires light { lane.now.weight ≤ 1000 }
        requires room { self.top ≤ 2 ^ 63 }
        ensures top { result.top ≡ self.top + lane.now.weight * lane.now.top }
        ensures most { result.top ≤ self.top + 1000 * 2 ^ 32 }
        ensures border { result.border ≡ min self.border lane.now.border }
        ensures start { result.start ≡ min self.start lane.now.start }
    {
        View {
            top: self.top + lane.weight * u64::from(lane.top),
            border: self.border.min(lane.border),
            start: self.start.min(lane.start),
        }
    }
}

/// The documents of some postings, from one on and before another, and their greatest frequency.
#[derive(Clone, Copy)]
struct Range {
    from: u64,
    to: u64,
    top: u32,
}

/// The range of some postings. One pass over them.
fn range_of(list: &[Posting]) -> Range
    ensures docs { Each (λ p. (result.from ≤ p.doc.0) × (p.doc.0 < result.to)) list.now }
    ensures top { result.top ≡ greatest list.now }
    ensures ends { result.to ≤ 2 ^ 32 }
{
    let mut range = Range {
        from: END,
        to: 0,
        top: 0,
    };
    for p in list {
        let doc = u64::from(p.doc.0);
        range = Range {
            from: range.from.min(doc),
            to: range.to.max(doc + 1),
            top: range.top.max(p.tf),
        };
    }
    range
}

/// A word's lane before all documents.
fn lane_of(alloc: Global, weight: u32, flat: &[Posting]) -> Result<Lane, AllocError>
    requires { weight ≤ 1000 }
    ensures fit { (n : ℕ) → IfOk result (λ l. IsFit n l) }
    ensures weight { IfOk result (λ l. l.weight ≡ weight) }
    ensures opened { IfOk result (λ l. l.opened ≡ 0) }
    ensures lies { (at : ℕ) (s : Sheet) → flat.now ≡ s.flat → IsSheet at s → IfOk result (λ l. Lies at s 0 l) }
{
    let range = range_of(flat);
    let hits = Vec::from_slice(alloc, flat)?;
    Ok(Lane {
        weight: u64::from(weight),
        cover: 0,
        after: 0,
        opened: 0,
        top: 0,
        border: 0,
        start: 0,
        flat_from: range.from,
        flat_to: range.to,
        flat_top: range.top,
        hits,
        cursor: 0,
    })
}

/// A lane for each word, before all documents.
pub(crate) fn lanes_of<B: Blocks>(
    alloc: Global,
    weights: &[u32],
    blocks: &B,
) -> Result<Vec<Lane>, AllocError>
    requires words { length weights.now ≡ length (B.sheets blocks.now) }
    requires light { All (λ w. (1 ≤ w) × (w ≤ 1000)) weights.now }
    ensures fit { IfOk result (λ lanes. AreFit (B.sheets blocks.now) lanes.items) }
    ensures weights { IfOk result (λ lanes. weights_of lanes.items ≡ weights.now) }
    ensures opened { IfOk result (λ lanes. Each (λ l. l.opened ≡ 0) lanes.items) }
    ensures lies { (at : ℕ) → Each (IsSheet at) (B.sheets blocks.now) → IfOk result (λ lanes. Lie at 0 (B.sheets blocks.now) lanes.items) }
{
    let mut lanes = Vec::new(alloc);
    for word in 0..weights.len() {
        let lane = lane_of(alloc, weights[word], blocks.flat(word))?;
        lanes.push(lane)?;
    }
    Ok(lanes)
}

/// Goes on to a document with each lane, and says what is so of it.
pub(crate) fn survey<B: Blocks>(lanes: &mut [Lane], blocks: &B, d: u64) -> View
    requires fit { AreFit (B.sheets blocks.now) lanes.old }
    requires few { length lanes.old ≤ 4096 }
    requires near { d < 2 ^ 32 }
    ensures fit { AreFit (B.sheets blocks.now) lanes.new }
    ensures weights { weights_of lanes.new ≡ weights_of lanes.old }
    ensures opened { (word : ℕ) → opened_at lanes.new word ≡ opened_at lanes.old word }
    ensures lies { (at : ℕ) → Each (IsSheet at) (B.sheets blocks.now) → Lie at d (B.sheets blocks.now) lanes.old
        → Lie at d (B.sheets blocks.now) lanes.new }
    ensures top { result.top ≡ weighted (λ l. l.top) lanes.new }
    ensures border { Each (λ l. (result.border ≤ l.border) × (result.start ≤ l.start)) lanes.new }
    ensures far { (d < result.border) × (result.border ≤ result.start) × (result.start ≤ 2 ^ 32) }
{
    let mut view = View {
        top: 0,
        border: END,
        start: END,
    };
    let mut word = 0;
    for lane in lanes.iter_mut() {
        lane.move_to(blocks.heads(word), d);
        view = view.with(lane);
        word += 1;
    }
    view
}

/// Opens the blocks that cover the document in hand and aren't open.
pub(crate) fn open_all<B: Blocks>(
    lanes: &mut [Lane],
    blocks: &mut B,
) -> Result<(), TopError<B::Fault>>
    requires fit { AreFit (B.sheets blocks.old) lanes.old }
    ensures sheets { B.sheets blocks.new ≡ B.sheets blocks.old }
    ensures opens { OnOk result (Opens B.opens blocks.old (runs 0 lanes.old) blocks.new) }
    ensures fault { (e : _) → IsErrOf result (TopError.Blocks e) → OpensToFault B.opens blocks.old e blocks.new }
    ensures opened { OnOk result (AllZip IsOpened lanes.old lanes.new) }
    ensures lies { (at d : ℕ) → Each (IsSheet at) (B.sheets blocks.old) → Each (λ l. d < l.border) lanes.old
        → Lie at d (B.sheets blocks.old) lanes.old
        → OnOk result (Lie at d (B.sheets blocks.old) lanes.new) }
{
    let mut word = 0;
    for lane in lanes.iter_mut() {
        open_covering(blocks, word, lane)?;
        word += 1;
    }
    Ok(())
}

/// The first document of a hit that is left, or an end that comes before it. Costs the lanes.
pub(crate) fn next_of(lanes: &[Lane], end: u64) -> u64
    ensures until { result ≤ end }
    ensures none { Each (λ l. AreAscending l.hits.items) lanes.now → (at x : ℕ) → x < result → given at x lanes.now ≡ 0 }
{
    let mut next = end;
    for lane in lanes {
        next = next.min(lane.next_hit());
    }
    next
}

/// Adds what the hits of all lanes give the documents from one on to their sums, and passes them.
pub(crate) fn add_all(lanes: &mut [Lane], at: Time, from: u64, sums: &mut [u64])
    requires fit { Each HasCursor lanes.old }
    requires near { from + length sums.old < 2 ^ 63 }
    ensures sums { Each (λ l. AreAscending l.hits.items) lanes.old → (k : ℕ) → k < length sums.old
        → slice_index sums.old k + given at.seconds (from + k) lanes.old < 2 ^ 64
        → slice_index sums.new k ≡ slice_index sums.old k + given at.seconds (from + k) lanes.old }
    ensures passed { AllZip (IsPassed at.seconds (from + length sums.old)) lanes.old lanes.new }
{
    for lane in lanes.iter_mut() {
        lane.add(at, from, sums);
    }
}
