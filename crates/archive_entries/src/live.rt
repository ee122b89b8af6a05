//! Live plans: of each word the one that was stored last.
ghost use Rattle.std.specs.Prelude.{◌≡◌, ◌<◌, ◌≤◌, ◌+◌, ◌-◌, ◌++◌, ◌∷◌, [], List, true, All, IfOk, MatchOption, fold, vec_len, vec_capacity};
ghost use Rattle.model_archive.specs.declared.stored.StoredPlan.{StoredPlan as PlainStored};
ghost use Rattle.model_archive.specs.Plans.{is_another, with_plan};
ghost use Rattle.archive_entries.specs.Live.{EachOnce, IsPlanAt};

use base_types::Key;
use model_archive::StoredPlan;
use std::alloc::{AllocError, Global};

/// Where a word's plan stands among plans. Costs the plans in front of it.
pub fn position_of(plans: &[StoredPlan], word: &Key) -> Option<usize>
    ensures { MatchOption result (All (λ s. is_another word.now s ≡ true) plans.now) (IsPlanAt plans.now word.now) }
{
    for at in 0..plans.len() {
        if plans[at].plan.word == *word {
            return Some(at);
        }
    }
    None
}

/// Of each word the last plan. For each plan it costs a look at the live ones in front of it.
pub(crate) fn live_of(alloc: Global, plans: Vec<StoredPlan>) -> Result<Vec<StoredPlan>, AllocError>
    ensures live { IfOk result (λ v. v.items ≡ fold with_plan [] plans.items) }
    ensures once { IfOk result (λ v. EachOnce v.items) }
{
    let mut live = Vec::new(alloc);
    for stored in plans {
        live.reserve(1)?;
        put_live(&mut live, stored);
    }
    Ok(live)
}

/// A plan takes the place of the one that its word had, which is given back. Takes no memory. Costs a
/// look at the plans in front of the old one, and a move of those behind it.
pub fn put_live(live: &mut Vec<StoredPlan>, stored: StoredPlan) -> Option<StoredPlan>
    requires room { vec_len live.old < vec_capacity live.old }
    requires once { EachOnce live.old.items }
    ensures live { live.new.items ≡ with_plan live.old.items stored }
    ensures once { EachOnce live.new.items }
    ensures room { vec_capacity live.old - vec_len live.old ≤ vec_capacity live.new - vec_len live.new + 1 }
    ensures old { MatchOption result (live.new.items ≡ live.old.items ++ stored ∷ []) (λ s. (front : List PlainStored)
        × (back : List PlainStored)
        × (live.old.items ≡ front ++ s ∷ back) × (live.new.items ≡ (front ++ back) ++ stored ∷ [])) }
{
    let old = match position_of(live, &stored.plan.word) {
        Some(at) => Some(live.remove(at)),
        None => None,
    };
    live.push_reserved(stored);
    old
}
