//! Going through a word's blocks by document.
ghost use Rattle.std.specs.Prelude.{◌≡◌, ◌⊎◌, ◌+◌, ◌-◌, ◌*◌, ◌<◌, ◌≤◌, ◌^◌, ℕ, [], ◌∷◌, length, drop, get_or, slice_index};
ghost use Rattle.query_top.specs.Sheets.{Sheet, IsSheet, no_head};
ghost use Rattle.query_top.specs.Lanes.{tally, AreAscending, IsFit, Lies};

use crate::lane::{END, Lane};
use base_types::{Posting, Time};
use pages_codec::BlockHead;

/// The blocks that cover a document: up to which block, and their greatest top.
struct Reach {
    after: usize,
    top: u32,
}

/// The first block from this one on that doesn't end before the document.
fn covering(heads: &[BlockHead], cover: usize, d: u64) -> usize
    requires { cover ≤ length heads.now }
    ensures behind { cover ≤ result }
    ensures within { result ≤ length heads.now }
    ensures passed { (i : ℕ) → cover ≤ i → i < result → (get_or heads.now i no_head).last.0 < d }
    ensures reached { result < length heads.now → d ≤ (get_or heads.now result no_head).last.0 }
{
    let mut i = cover;
    while i < heads.len() {
        if u64::from(heads[i].last.0) >= d {
            return i;
        }
        i += 1;
    }
    i
}

/// The blocks from this one on that begin up to the document.
fn begun_from(heads: &[BlockHead], cover: usize, d: u64) -> Reach
    requires { cover ≤ length heads.now }
    ensures behind { cover ≤ result.after }
    ensures within { result.after ≤ length heads.now }
    ensures begun { (i : ℕ) → cover ≤ i → i < result.after → (get_or heads.now i no_head).first.0 ≤ d }
    ensures later { result.after < length heads.now → d < (get_or heads.now result.after no_head).first.0 }
    ensures high { (i : ℕ) → cover ≤ i → i < result.after → (get_or heads.now i no_head).top ≤ result.top }
    ensures low { (result.top ≡ 0) ⊎ ((i : ℕ) × (cover ≤ i) × (i < result.after) × (result.top ≡ (get_or heads.now i no_head).top)) }
{
    let mut after = cover;
    let mut top = 0;
    while after < heads.len() {
        let head = heads[after];
        if u64::from(head.first.0) > d {
            return Reach { after, top };
        }
        if head.top > top {
            top = head.top;
        }
        after += 1;
    }
    Reach { after, top }
}

/// Where a block begins; behind all documents where there is none.
fn start_of(heads: &[BlockHead], block: usize) -> u64
    ensures some { block < length heads.now → result ≡ (get_or heads.now block no_head).first.0 }
    ensures none { length heads.now ≤ block → result ≡ 2 ^ 32 }
    ensures ends { result ≤ 2 ^ 32 }
{
    if block < heads.len() {
        u64::from(heads[block].first.0)
    } else {
        END
    }
}

/// Behind the first of some blocks; behind all documents where there is none.
fn end_of(heads: &[BlockHead], cover: usize, after: usize) -> u64
    requires { after ≤ length heads.now }
    ensures some { cover < after → result ≡ (get_or heads.now cover no_head).last.0 + 1 }
    ensures none { after ≤ cover → result ≡ 2 ^ 32 }
{
    if cover < after {
        u64::from(heads[cover].last.0) + 1
    } else {
        END
    }
}

/// Adds what a posting gives its document, which is one from `from` on, or a passed one.
fn put(weight: u64, p: &Posting, at: Time, from: u64, sums: &mut [u64])
    requires { p.now.doc.0 < from + length sums.old }
    ensures { (k : ℕ) → k < length sums.old → slice_index sums.old k + weight * tally at.seconds (from + k) (p.now ∷ []) < 2 ^ 64
        → slice_index sums.new k ≡ slice_index sums.old k + weight * tally at.seconds (from + k) (p.now ∷ []) }
{
    let doc = u64::from(p.doc.0);
    if doc < from {
        return;
    }
    if !p.span.holds(at) {
        return;
    }
    let place = (doc - from) as usize;
    sums[place] = sums[place].saturating_add(weight.saturating_mul(u64::from(p.tf)));
}

impl Lane {
    /// Goes on to a document. Constant cost where the same blocks cover it, otherwise at most the blocks
    /// that are passed.
    pub(crate) fn move_to(&mut self, heads: &[BlockHead], d: u64)
        requires { IsFit (length heads.now) self.old }
        ensures lies { (at : ℕ) (s : Sheet) → heads.now ≡ s.heads → IsSheet at s → d < 2 ^ 32 → Lies at s d self.old
            → Lies at s d self.new }
        ensures far { d < 2 ^ 32 → d < self.new.border }
        ensures fit { IsFit (length heads.now) self.new }
        ensures weight { self.new.weight ≡ self.old.weight }
        ensures opened { self.new.opened ≡ self.old.opened }
    {
        if d < self.border {
            return;
        }
        let cover = covering(heads, self.cover, d);
        let Reach { after, top } = begun_from(heads, cover, d);
        let start = start_of(heads, after);
        let end = end_of(heads, cover, after);
        let (flat_top, flat_end) = self.flat_at(d);
        self.cover = cover;
        self.after = after;
        self.start = start;
        self.top = top.max(flat_top);
        self.border = start.min(end).min(flat_end);
    }

    /// The most that a document has by the postings that were at hand, and up to where.
    fn flat_at(&self, d: u64) -> (u32, u64)
        requires { self.now.flat_to ≤ 2 ^ 32 }
        ensures far { d < 2 ^ 32 → d < result.1 }
        ensures most { result.0 ≤ self.now.flat_top }
        ensures none { (x : ℕ) → d ≤ x → x < result.1 → self.now.flat_from ≤ x → x < self.now.flat_to → result.0 ≡ self.now.flat_top }
    {
        if d < self.flat_from {
            return (0, self.flat_from.min(END));
        }
        if d < self.flat_to {
            return (self.flat_top, self.flat_to);
        }
        (0, END)
    }

    /// The document of the next hit that is left; behind all documents where there is none. Constant cost.
    pub(crate) fn next_hit(&self) -> u64
        ensures { AreAscending self.now.hits.items → (at x : ℕ) → x < result → tally at x (drop self.now.cursor self.now.hits.items) ≡ 0 }
    {
        if self.cursor < self.hits.len() {
            u64::from(self.hits[self.cursor].doc.0)
        } else {
            END
        }
    }

    /// Adds what the hits give the documents from one on to their sums, and passes them.
    pub(crate) fn add(&mut self, at: Time, from: u64, sums: &mut [u64])
        requires cursor { self.old.cursor ≤ length self.old.hits.items }
        requires near { from + length sums.old < 2 ^ 63 }
        ensures sums { AreAscending self.old.hits.items → (k : ℕ) → k < length sums.old
            → slice_index sums.old k + self.old.weight * tally at.seconds (from + k) (drop self.old.cursor self.old.hits.items) < 2 ^ 64
            → slice_index sums.new k
            ≡ slice_index sums.old k + self.old.weight * tally at.seconds (from + k) (drop self.old.cursor self.old.hits.items) }
        ensures left { AreAscending self.old.hits.items → (x : ℕ) → from + length sums.old ≤ x
            → tally at.seconds x (drop self.new.cursor self.old.hits.items)
            ≡ tally at.seconds x (drop self.old.cursor self.old.hits.items) }
        ensures cursor { self.new.cursor ≤ length self.old.hits.items }
        ensures same { self.new ≡ record self.old { cursor = self.new.cursor } }
    {
        let end = from + sums.len() as u64;
        while self.cursor < self.hits.len() {
            let p = self.hits[self.cursor];
            if u64::from(p.doc.0) >= end {
                return;
            }
            put(self.weight, &p, at, from, sums);
            self.cursor += 1;
        }
    }
}
