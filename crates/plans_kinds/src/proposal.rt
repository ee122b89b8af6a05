//! A plan as it is shown.
ghost use Rattle.std.specs.Prelude.{◌≡◌, ℕ, ◌+◌, ◌<◌, ◌≤◌, ◌^◌, List, drop, map, length, slice_index, All, IfOk};
ghost use Rattle.std.specs.List.Sorted.{IsStrictlyIncreasing};
ghost use Rattle.base_types.specs.declared.posting.Posting.{Posting};
ghost use Rattle.plans_partitions.specs.Counts.{Tabulates};
ghost use Rattle.plans_partitions.specs.Partitions.{IsFitting, space};
ghost use Rattle.plans_kinds.specs.Proposals.{AreSegments, AreNodes, bare_segment, paired};

use base_types::Span;
use plans_partitions::{Partition, Table};
use std::alloc::{AllocError, Global};

/// A segment of a partition.
#[derive(Clone, Copy, Debug, PartialEq, Eq)]
pub struct Segment {
    /// Its times.
    pub span: Span,
    /// How many postings its sublist has.
    pub size: u64,
}

/// A boundary of a list.
#[derive(Clone, Copy, Debug, PartialEq, Eq)]
pub struct Node {
    /// Its time, in seconds since 1970-01-01 00:00 UTC.
    pub at: u64,
    /// The least space of a partition from the first boundary to this one, in postings.
    pub pi: u64,
}

/// A plan as it is shown.
#[derive(Debug, Drop)]
pub struct Proposal {
    /// Its segments, in order.
    pub segments: Vec<Segment>,
    /// The boundaries of the list, in order.
    pub nodes: Vec<Node>,
    /// How many postings the sublists have together.
    pub space: u64,
}

impl Proposal {
    /// A partition of the table's list, which fits the table and has at most 2^24 segments, as it is
    /// shown with a number for each boundary. Costs time and memory in the boundaries.
    pub fn of(
        alloc: Global,
        table: &Table,
        partition: &Partition,
        numbers: &[u64],
    ) -> Result<Proposal, AllocError>
        requires fits { IsFitting table.now.boundaries partition.now }
        requires few { length partition.now ≤ 2 ^ 24 + 1 }
        requires many { length numbers.now ≡ length table.now.boundaries }
        ensures segments { IfOk result (λ p. (list : List Posting) (horizon : ℕ) → Tabulates list horizon table.now
            → AreSegments list (slice_index partition.now 0) (drop 1 partition.now) p.segments.items) }
        ensures nodes { IfOk result (λ p. AreNodes table.now.boundaries numbers.now p.nodes.items) }
        ensures space { IfOk result (λ p. (list : List Posting) (horizon : ℕ) → Tabulates list horizon table.now
            → p.space ≡ space list (slice_index partition.now 0) (drop 1 partition.now)) }
    {
        let times = table.boundaries();
        let sizes = partition.sizes(alloc, table)?;
        let segments = segments_of(alloc, partition.cuts(), &sizes)?;
        let nodes = nodes_of(alloc, times, numbers)?;
        let space = partition.space(table);
        Ok(Proposal {
            segments,
            nodes,
            space,
        })
    }
}

/// The segments between cuts, of these sizes.
fn segments_of(alloc: Global, cuts: &[u64], sizes: &[u64]) -> Result<Vec<Segment>, AllocError>
    requires ascending { IsStrictlyIncreasing cuts.now }
    requires in_time { All (λ x. x < 2 ^ 40) cuts.now }
    requires many { length cuts.now ≡ length sizes.now + 1 }
    ensures { IfOk result (λ v. map bare_segment v.items ≡ paired (slice_index cuts.now 0) (drop 1 cuts.now) sizes.now) }
{
    let mut segments = Vec::with_capacity(alloc, sizes.len())?;
    for k in 0..sizes.len() {
        segments.push(Segment {
            span: Span {
                from: cuts[k],
                to: cuts[k + 1],
            },
            size: sizes[k],
        })?;
    }
    Ok(segments)
}

/// The boundaries, each with its number.
fn nodes_of(alloc: Global, times: &[u64], numbers: &[u64]) -> Result<Vec<Node>, AllocError>
    requires { length numbers.now ≡ length times.now }
    ensures { IfOk result (λ v. AreNodes times.now numbers.now v.items) }
{
    let mut nodes = Vec::with_capacity(alloc, times.len())?;
    for k in 0..times.len() {
        nodes.push(Node {
            at: times[k],
            pi: numbers[k],
        })?;
    }
    Ok(nodes)
}
