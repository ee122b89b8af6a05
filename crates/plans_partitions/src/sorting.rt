//! Numbers in order, and how many of them lie on one side of a number.
ghost use Rattle.std.specs.Prelude.{◌≡◌, ◌↔◌, ℕ, ◌<◌, ◌≤◌, List, ◌∷◌, ◌++◌, IfOk, IsTrue, nat_le, nat_lt, count_by, map, length, slice_index, Contains};
ghost use Rattle.std.specs.List.Sorted.{IsStrictlyIncreasing, IsSorted, IsPermutation};
ghost use Rattle.std.specs.Ordering.{nat_cmp};
ghost use Rattle.lists_postings.specs.Sizes.{begun, ended};
ghost use Rattle.base_types.specs.declared.posting.Posting.{Posting};

use base_types::Posting;
use std::alloc::{AllocError, Global};

/// When the postings begin.
pub(crate) fn starts_of(alloc: Global, list: &[Posting]) -> Result<Vec<u64>, AllocError>
    ensures { IfOk result (λ v. v.items ≡ map (λ p. p.span.from) list.now) }
{
    list.iter().map(|p| p.span.from).collect(alloc)
}

/// When the postings end.
pub(crate) fn stops_of(alloc: Global, list: &[Posting]) -> Result<Vec<u64>, AllocError>
    ensures { IfOk result (λ v. v.items ≡ map (λ p. p.span.to) list.now) }
{
    list.iter().map(|p| p.span.to).collect(alloc)
}

/// The numbers, ascending.
fn sorted(numbers: Vec<u64>) -> Vec<u64>
    ensures ascending { IsSorted nat_cmp result.items }
    ensures same { IsPermutation numbers.items result.items }
{
    let mut numbers = numbers;
    numbers.sort_unstable();
    numbers
}

/// How many of the ascending numbers are below `t`.
fn count_below(numbers: &[u64], t: u64) -> u64
    requires { IsSorted nat_cmp numbers.now }
    ensures { result ≡ count_by (λ x. nat_lt x t) numbers.now }
{
    numbers.partition_point(|x| *x < t) as u64
}

/// How many of the ascending numbers are at most `t`.
fn count_to(numbers: &[u64], t: u64) -> u64
    requires { IsSorted nat_cmp numbers.now }
    ensures { result ≡ count_by (λ x. nat_le x t) numbers.now }
{
    numbers.partition_point(|x| *x <= t) as u64
}

/// The place of the first of the ascending numbers that isn't below `t`, found from place `at` on, whose
/// number isn't above `t`. Costs time in the numbers between.
pub(crate) fn first_from(numbers: &[u64], at: usize, t: u64) -> usize
    requires ascending { IsStrictlyIncreasing numbers.now }
    requires on { at < length numbers.now }
    requires before { slice_index numbers.now at ≤ t }
    ensures inside { result ≤ length numbers.now }
    ensures below { (k : ℕ) → k < result → slice_index numbers.now k < t }
    ensures above { (k : ℕ) → result ≤ k → k < length numbers.now → t ≤ slice_index numbers.now k }
{
    let mut place = at;
    while place < numbers.len() && numbers[place] < t {
        place += 1;
    }
    place
}

/// Whether `t` stands at a place of the numbers.
pub(crate) fn is_at(numbers: &[u64], place: usize, t: u64) -> bool
    ensures { IsTrue result ↔ ((place < length numbers.now) × (slice_index numbers.now place ≡ t)) }
{
    if place >= numbers.len() {
        return false;
    }
    numbers[place] == t
}

/// For each time, how many of the ascending numbers are below it.
fn counts_below(alloc: Global, numbers: &[u64], times: &[u64]) -> Result<Vec<u64>, AllocError>
    requires { IsSorted nat_cmp numbers.now }
    ensures { IfOk result (λ v. v.items ≡ map (λ t. count_by (λ x. nat_lt x t) numbers.now) times.now) }
{
    times
        .iter()
        .map(|t| count_below(numbers, *t))
        .collect(alloc)
}

/// For each time, how many of the ascending numbers are at most it.
fn counts_to(alloc: Global, numbers: &[u64], times: &[u64]) -> Result<Vec<u64>, AllocError>
    requires { IsSorted nat_cmp numbers.now }
    ensures { IfOk result (λ v. v.items ≡ map (λ t. count_by (λ x. nat_le x t) numbers.now) times.now) }
{
    times.iter().map(|t| count_to(numbers, *t)).collect(alloc)
}

/// The boundaries in seconds, ascending, of a list whose postings begin and end at these times. Costs
/// time in `n log n` for `n` postings.
pub(crate) fn boundaries_of(
    alloc: Global,
    starts: &[u64],
    stops: &[u64],
    horizon: u64,
) -> Result<Vec<u64>, AllocError>
    ensures ascending { IfOk result (λ v. IsStrictlyIncreasing v.items) }
    ensures each { IfOk result (λ v. (t : ℕ) → Contains v.items t ↔ Contains (horizon ∷ (starts.now ++ stops.now)) t) }
{
    let mut times = Vec::new(alloc);
    times.push(horizon)?;
    times.extend_from_slice(starts)?;
    times.extend_from_slice(stops)?;
    let mut times = sorted(times);
    times.dedup();
    Ok(times)
}

/// For each time, how many postings begin before it, from when each begins. Costs time in `n log n` for
/// `n` postings and times.
pub(crate) fn begun_at(
    alloc: Global,
    starts: Vec<u64>,
    times: &[u64],
) -> Result<Vec<u64>, AllocError>
    ensures { (list : List Posting) → starts.items ≡ map (λ p. p.span.from) list
        → IfOk result (λ v. v.items ≡ map (λ t. begun t list) times.now) }
{
    counts_below(alloc, &sorted(starts), times)
}

/// For each time, how many postings have ended at it, from when each ends. Costs time in `n log n` for
/// `n` postings and times.
pub(crate) fn ended_at(
    alloc: Global,
    stops: Vec<u64>,
    times: &[u64],
) -> Result<Vec<u64>, AllocError>
    ensures { (list : List Posting) → stops.items ≡ map (λ p. p.span.to) list
        → IfOk result (λ v. v.items ≡ map (λ t. ended t list) times.now) }
{
    counts_to(alloc, &sorted(stops), times)
}
