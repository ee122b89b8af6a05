//! The edges at which free and taken pages meet.
ghost use Rattle.std.specs.Prelude.{◌≡◌, ◌+◌, ◌/◌, ◌%◌, ◌<◌, ◌≤◌, ◌^◌, ℕ, true, false, length, slice_index, MatchResult, MatchOption, vec_len, vec_capacity};
ghost use Rattle.pages_area.specs.Runs.{IsPageOf, pages_for};
ghost use Rattle.pages_area.specs.Edges.{AreEdges, AreFree, IsFit, HasNoFit, IsTurned, edge, edges_to, step};

use base_types::{Extent, MOST_PAGES, PAGE_BYTES};

// Where an edge stands at a page; or, where none does, the place where it belongs.
fn place_of(edges: &[u32], page: u32) -> Result<usize, usize>
    requires { AreEdges edges.now }
    ensures { MatchResult result (λ i. (i < length edges.now) × (slice_index edges.now i ≡ page)) (λ i. (i ≤ length edges.now)
        × ((k : ℕ) → k < i → slice_index edges.now k < page) × ((k : ℕ) → i ≤ k → k < length edges.now → page < slice_index edges.now k)) }
{
    edges.binary_search(&page)
}

// Puts an edge at a page, or takes away the one that is there.
#[tactic(auto, using(crate::proofs::EdgeLemmas::order_stays))]
fn flip(edges: &mut Vec<u32>, page: u32)
    requires order { AreEdges edges.old.items }
    requires limit { page ≤ 2 ^ 28 }
    requires room { vec_len edges.old < vec_capacity edges.old }
    ensures order { AreEdges edges.new.items }
    ensures flips { (p : ℕ) → edges_to edges.new.items p % 2 ≡ (edges_to edges.old.items p + step p page) % 2 }
    ensures len { vec_len edges.new ≤ vec_len edges.old + 1 }
    ensures capacity { vec_capacity edges.old ≤ vec_capacity edges.new }
{
    match place_of(edges, page) {
        Ok(at) => {
            edges.remove(at);
        }
        Err(at) => {
            edges.insert(at, page).unwrap();
        }
    }
}

// The pages of an extent that were free are taken, and those that were taken are free.
#[tactic(auto, using(crate::proofs::EdgeLemmas::step_falls))]
pub(crate) fn turn(edges: &mut Vec<u32>, extent: Extent)
    requires order { AreEdges edges.old.items }
    requires room { vec_len edges.old + 2 ≤ vec_capacity edges.old }
    ensures order { AreEdges edges.new.items }
    ensures turned { IsTurned extent edges.old.items edges.new.items }
    ensures len { vec_len edges.new ≤ vec_len edges.old + 2 }
    ensures capacity { vec_capacity edges.old ≤ vec_capacity edges.new }
{
    flip(edges, extent.first);
    flip(edges, extent.first + extent.pages() as u32);
}

// How many edges lie at a page or before it.
fn up_to(edges: &[u32], page: u32) -> usize
    requires { AreEdges edges.now }
    ensures within { result ≤ length edges.now }
    ensures before { (k : ℕ) → k < result → slice_index edges.now k ≤ page }
    ensures behind { (k : ℕ) → result ≤ k → k < length edges.now → page < slice_index edges.now k }
{
    match place_of(edges, page) {
        Ok(at) => at + 1,
        Err(at) => at,
    }
}

// Whether all pages of an extent are free.
pub(crate) fn are_free(edges: &[u32], extent: Extent) -> bool
    requires order { AreEdges edges.now }
    requires some { 1 ≤ extent.bytes }
    ensures yes { result ≡ true → AreFree edges.now extent.first (pages_for extent.bytes) }
    ensures no { result ≡ false → (p : ℕ) × (IsPageOf extent p × (edges_to edges.now p % 2 ≡ 1)) }
{
    let at = up_to(edges, extent.first);
    if at % 2 == 1 {
        return false;
    }
    end_at(edges, at) >= extent.first + extent.pages() as u32
}

// So many bytes at the lowest free pages in a row that are enough.
pub(crate) fn first_fit(edges: &[u32], bytes: u64) -> Option<Extent>
    requires order { AreEdges edges.now }
    requires some { 1 ≤ bytes }
    ensures { MatchOption result (HasNoFit (pages_for bytes) edges.now) (λ e. (e.bytes ≡ bytes)
        × IsFit (pages_for bytes) edges.now e.first) }
{
    let pages = bytes.div_ceil(PAGE_BYTES);
    let mut first = 0;
    let mut at = 0;
    loop {
        if u64::from(end_at(edges, at).saturating_sub(first)) >= pages {
            return Some(extent_at(first, bytes));
        }
        if at + 1 >= edges.len() {
            return None;
        }
        first = edges[at + 1];
        at += 2;
    }
}

// So many bytes from a page on.
pub(crate) fn extent_at(first: u32, bytes: u64) -> Extent
    requires { first + (bytes + 4095) / 4096 ≤ 2 ^ 28 }
    ensures first { result.first ≡ first }
    ensures bytes { result.bytes ≡ bytes }
{
    Extent { first, bytes }
}

// The edge at a place, or the end of all pages.
fn end_at(edges: &[u32], at: usize) -> u32
    requires { AreEdges edges.now }
    ensures limit { result ≤ 2 ^ 28 }
    ensures edge { result ≡ edge edges.now at }
{
    if at < edges.len() {
        return edges[at];
    }
    MOST_PAGES as u32
}
