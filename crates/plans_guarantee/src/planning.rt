//! The least plan of a table.
ghost use Rattle.std.specs.Prelude.{◌≡◌, ℕ, ◌≤◌, List, length, slice_index, drop, IfOk, IfErr};
ghost use Rattle.base_types.specs.declared.posting.Posting.{Posting};
ghost use Rattle.plans_partitions.specs.Counts.{Tabulates};
ghost use Rattle.plans_partitions.specs.Partitions.{widest, IsLeast, AreBest, IsFitting};
ghost use Rattle.plans_guarantee.specs.Certificates.{CertifiesCuts};
ghost use Rattle.plans_guarantee.specs.Refusals.{Explains};
ghost use Rattle.plans_guarantee.specs.declared.planning.PlanError.{PlanError};

use crate::Certificate;
use crate::steps::{Settled, cuts_back, settle};
use base_types::Fraction;
use plans_partitions::{Partition, Table};
use std::alloc::{AllocError, AllocFailed, Global};

/// The most boundaries that a plan may have.
pub const WIDEST: usize = 1_048_576;

/// Why there is no plan.
#[derive(Clone, Copy, Debug, PartialEq, Eq)]
pub enum PlanError {
    /// The table has more than `WIDEST` boundaries.
    TooWide {
        /// How many it has.
        boundaries: u64,
    },
    /// There was no memory for the plan.
    Memory,
}

impl From<AllocError> for PlanError {
    ghost from_gives = { λ _ e. e ≡ PlanError.Memory };

    fn from(_error: AllocError) -> PlanError {
        PlanError::Memory
    }
}

/// A partition that keeps the factor and takes the least space of all that do, wherever these cut, with
/// the least space up to each boundary as its certificate, which `check` accepts. Costs time in the
/// boundaries, and 16 bytes of memory for each of them, of which 8 stay, 8 for each cut, which stay, and
/// 32 for each place in the queue of a moving minimum.
pub fn plan(
    alloc: Global,
    table: &Table,
    factor: Fraction,
) -> Result<(Partition, Certificate), PlanError>
    ensures within { IfOk result (λ _. length table.now.boundaries ≤ widest) }
    ensures refused { IfErr result (Explains table.now.boundaries) }
    ensures fits { IfOk result (λ p. IsFitting table.now.boundaries p.0) }
    ensures least { IfOk result (λ p. (list : List Posting) (horizon : ℕ) → Tabulates list horizon table.now
        → IsLeast list factor (slice_index p.0 0) (drop 1 p.0) horizon) }
    ensures best { IfOk result (λ p. (list : List Posting) (horizon : ℕ) → Tabulates list horizon table.now
        → AreBest list factor horizon table.now.boundaries p.1) }
    ensures certified { IfOk result (λ p. (list : List Posting) (horizon : ℕ) → Tabulates list horizon table.now
        → CertifiesCuts list factor table.now.boundaries p.1 p.0 horizon) }
{
    let times = table.boundaries();
    if times.len() > WIDEST {
        return Err(PlanError::TooWide {
            boundaries: times.len() as u64,
        });
    }
    let Settled { pi, lefts } = settle(alloc, table, factor)?;
    let cuts = cuts_back(alloc, times, &lefts)?;
    let partition = Partition::new(cuts).unwrap();
    Ok((partition, Certificate::new(pi)))
}
