//! The order in which plans are checked.
ghost use Rattle.std.specs.Prelude.{◌≡◌, ◌==◌, ℕ, bytes_eq, filter, map, All, IfOk, OnOk};
ghost use Rattle.std.specs.List.{position_or_len};
ghost use Rattle.std.specs.List.Sorted.{IsNonDecreasingBy, IsPermutation};
ghost use Rattle.lists_index.specs.Indexes.{state_of};
ghost use Rattle.model_archive.specs.Orders.{place_of, AreByNumber};

use base_types::Key;
use lists_index::Index;
use model_archive::StoredPlan;
use std::alloc::{AllocError, Global};

/// A plan with the place of its word among those of the texts.
#[derive(Clone, Copy)]
pub(crate) struct Ranked<'a> {
    pub(crate) place: u32,
    pub(crate) stored: &'a StoredPlan,
}

/// The plans by the numbers of their words in the texts, and last those whose words have none. Costs a
/// look-up for each, and a stable sort.
pub(crate) fn by_number<'a>(
    alloc: Global,
    index: &Index,
    plans: &'a [StoredPlan],
) -> Result<Vec<Ranked<'a>>, AllocError>
    ensures ordered { IfOk result (λ v. AreByNumber (state_of index.now).words plans.now (map (λ t. t.stored.now) v.items)) }
{
    let mut ranked = placed(alloc, index, plans)?;
    sort_by_place(&mut ranked)?;
    Ok(ranked)
}

/// The plans with the places of their words.
fn placed<'a>(
    alloc: Global,
    index: &Index,
    plans: &'a [StoredPlan],
) -> Result<Vec<Ranked<'a>>, AllocError>
    ensures plans { IfOk result (λ v. map (λ t. t.stored.now) v.items ≡ plans.now) }
    ensures places { IfOk result (λ v. All (λ t. t.place ≡ place_of (state_of index.now).words t.stored.now) v.items) }
{
    let mut ranked = Vec::new(alloc);
    for stored in plans {
        let place = place_of(index, &stored.plan.word);
        ranked.push(Ranked { place, stored })?;
    }
    Ok(ranked)
}

/// The number of a word; how many words there are, where it has none.
fn place_of(index: &Index, word: &Key) -> u32
    ensures { result ≡ position_or_len (bytes_eq word.now) (state_of index.now).words }
{
    match index.number(word) {
        Some(id) => id.number,
        None => index.words(),
    }
}

/// Sorts ranked plans by place; those of one place keep their order.
fn sort_by_place(ranked: &mut Vec<Ranked>) -> Result<(), AllocError>
    ensures permutation { IsPermutation ranked.old.items ranked.new.items }
    ensures sorted { OnOk result (IsNonDecreasingBy (λ t. t.place) ranked.new.items) }
    ensures stable { (n : ℕ) → filter (λ t. t.place == n) ranked.new.items ≡ filter (λ t. t.place == n) ranked.old.items }
{
    ranked.sort_by_key(|one| one.place)?;
    Ok(())
}
