//! Plans with their places in the journal.
use journal_entries::PlanEntry;

/// A plan that is stored.
#[derive(Debug, Drop)]
pub struct StoredPlan {
    /// The place in the journal of its entry's gate, in bytes.
    pub gate: u64,
    /// The plan.
    pub plan: PlanEntry,
}
