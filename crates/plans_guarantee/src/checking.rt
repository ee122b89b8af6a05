//! The check of a certificate.
ghost use Rattle.std.specs.Prelude.{◌≡◌, ◌↔◌, ℕ, ◌+◌, ◌<◌, ◌≤◌, List, drop, length, slice_index, IsTrue, IfOk};
ghost use Rattle.base_types.specs.declared.posting.Posting.{Posting};
ghost use Rattle.plans_partitions.specs.Counts.{Tabulates, size_between};
ghost use Rattle.plans_partitions.specs.Partitions.{IsLeast};
ghost use Rattle.plans_guarantee.specs.Certificates.{BestNumbersCertify, CertifiesCuts, CertificateProvesLeast};
ghost use Rattle.plans_guarantee.specs.Edges.{EdgesBelow};

use crate::certificate::Certificate;
use crate::lefts::cheapest_left;
use base_types::Fraction;
use plans_partitions::{Partition, Table, WindowMin, reaches};
use std::alloc::{AllocError, Global};

/// Whether the number at boundary `k` is at most the number at boundary `left` and the size of the
/// segment between them.
fn is_edge(table: &Table, pi: &[u64], left: usize, k: usize) -> bool
    requires order { left < k }
    requires inside { k < length table.now.boundaries }
    requires long { length pi.now ≡ length table.now.boundaries }
    ensures { IsTrue result ↔ (slice_index pi.now k ≤ slice_index pi.now left + size_between table.now left k) }
{
    u128::from(pi[k]) <= u128::from(pi[left]) + u128::from(table.size(left, k))
}

/// Whether the number at each boundary is at most the number at each earlier boundary and the size of
/// the segment between them, where that segment is admissible.
fn edges_hold(
    alloc: Global,
    table: &Table,
    factor: Fraction,
    pi: &[u64],
) -> Result<bool, AllocError>
    requires { length pi.now ≡ length table.now.boundaries }
    ensures { IfOk result (λ b. IsTrue b ↔ EdgesBelow table.now factor pi.now (length pi.now)) }
{
    let lows = reaches(alloc, table, factor)?;
    let mut window = WindowMin::new(alloc);
    for k in 1..pi.len() {
        let low = lows[k];
        let left = cheapest_left(table, pi, low, k, &mut window)?;
        if !is_edge(table, pi, left, k) {
            return Ok(false);
        }
    }
    Ok(true)
}

/// Whether the numbers certify the partition.
fn numbers_certify(
    alloc: Global,
    table: &Table,
    factor: Fraction,
    partition: &Partition,
    pi: &[u64],
) -> Result<bool, AllocError>
    ensures { IfOk result (λ b. (list : List Posting) (horizon : ℕ) → Tabulates list horizon table.now
        → (IsTrue b ↔ CertifiesCuts list factor table.now.boundaries pi.now partition.now horizon)) }
{
    if pi.len() != table.boundaries().len() {
        return Ok(false);
    }
    if !partition.fits(table) {
        return Ok(false);
    }
    if pi[0] != 0 {
        return Ok(false);
    }
    let holds = edges_hold(alloc, table, factor, pi)?;
    if !holds {
        return Ok(false);
    }
    if !partition.admissible(table, factor) {
        return Ok(false);
    }
    Ok(u128::from(pi[pi.len() - 1]) == partition.whole_space(table))
}

/// Whether the certificate shows that the partition is least for the factor, of the list that the table
/// is of. Costs time in the boundaries, and 8 bytes of memory for each of them and 32 for each place in the
/// queue of a moving minimum.
pub fn check(
    alloc: Global,
    table: &Table,
    factor: Fraction,
    partition: &Partition,
    certificate: &Certificate,
) -> Result<bool, AllocError>
    ensures exact { IfOk result (λ b. (list : List Posting) (horizon : ℕ) → Tabulates list horizon table.now
        → (IsTrue b ↔ CertifiesCuts list factor table.now.boundaries certificate.now partition.now horizon)) }
    ensures least { IfOk result (λ b. (list : List Posting) (horizon : ℕ) → Tabulates list horizon table.now → IsTrue b
        → IsLeast list factor (slice_index partition.now 0) (drop 1 partition.now) horizon) }
{
    numbers_certify(alloc, table, factor, partition, certificate.pi())
}

/// A certified partition takes the least space of all admissible ones, whatever their cut times. Does
/// nothing when it runs.
pub fn certificate_proves_least()
    ensures { CertificateProvesLeast }
{}

/// The least spaces up to the boundaries certify each least partition, so they pass `check`. Does
/// nothing when it runs.
pub fn best_numbers_certify()
    ensures { BestNumbersCertify }
{}
