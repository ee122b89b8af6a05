//! Joining the lists that were fetched.
ghost use Rattle.std.specs.Prelude.{◌≡◌, ◌≤◌, ℕ, List, [], All, length, Ok, Err, IfOk, IfErr};
ghost use Rattle.lists_postings.specs.Lists.{IsList};
ghost use Rattle.lists_postings.specs.Unions.{IsUnion, IsClash};
ghost use Rattle.pages_sublists.specs.Fetching.{IfDamaged, IfFailed};
ghost use Rattle.pages_sublists.specs.Joining.{Paged, AreJoined, JoinInTurn};
ghost use Rattle.base_types.specs.declared.posting.Posting.{Posting as PlainPosting};
ghost use Rattle.pages_sublists.specs.declared.why.Why.TheVariants.{Clash};

use crate::why::{Damage, FetchError, Why};
use base_types::Posting;
use lists_postings::{MergeError, merge_distinct};
use std::alloc::{AllocError, Global};
use std::marker::Model;

/// The list of a segment, with the first page of its place.
#[derive(Drop)]
pub(crate) struct Sublist {
    page: u32,
    postings: Vec<Posting>,
}

impl Model for Sublist {
    ghost Value = { ℕ × List PlainPosting };

    ghost view = { λ s. (s.page, s.postings.items) };
}

impl Sublist {
    /// A list, and the first page of its place.
    pub(crate) fn new(page: u32, postings: Vec<Posting>) -> Sublist
        ensures { result ≡ (page, postings.items) }
    {
        Sublist { page, postings }
    }

    /// The first page of its place.
    fn page(&self) -> u32
        ensures { result ≡ self.now.0 }
    {
        self.page
    }

    /// The list.
    pub(crate) fn postings(&self) -> &[Posting]
        ensures { result.now ≡ self.now.1 }
    {
        &self.postings
    }

    /// The list alone.
    fn into_postings(self) -> Vec<Posting>
        ensures { result.items ≡ self.1 }
    {
        self.postings
    }
}

/// The union of the lists, or the first clash of one with those in front of it. It costs n log k for
/// n postings in k lists, where no two clash; else, and never for one list, a pass over the union so
/// far for each list.
pub(crate) fn join_all(alloc: Global, lists: Vec<Sublist>) -> Result<Vec<Posting>, FetchError>
    requires { All (λ (l : Paged). IsList l.1) lists.items }
    ensures list { IfOk result (λ v. IsList v.items) }
    ensures joined { IfOk result (λ v. JoinInTurn lists.items [] (Ok v.items)) }
    ensures failed { IfErr result (IfFailed ⊥) }
    ensures damaged { IfErr result (IfDamaged (λ d. JoinInTurn lists.items [] (Err d))) }
{
    if lists.len() > 1 {
        join_many(alloc, &lists)
    } else {
        Ok(only(alloc, lists))
    }
}

/// The list, where there is one; it isn't copied.
fn only(alloc: Global, lists: Vec<Sublist>) -> Vec<Posting>
    requires few { length lists.items ≤ 1 }
    requires lists { All (λ (l : Paged). IsList l.1) lists.items }
    ensures joined { AreJoined lists.items result.items }
{
    let mut lists = lists;
    match lists.pop() {
        Some(list) => list.into_postings(),
        None => Vec::new(alloc),
    }
}

/// The same for any number of lists.
fn join_many(alloc: Global, lists: &[Sublist]) -> Result<Vec<Posting>, FetchError>
    requires { All (λ (l : Paged). IsList l.1) lists.now }
    ensures list { IfOk result (λ v. IsList v.items) }
    ensures joined { IfOk result (λ v. JoinInTurn lists.now [] (Ok v.items)) }
    ensures failed { IfErr result (IfFailed ⊥) }
    ensures damaged { IfErr result (IfDamaged (λ d. JoinInTurn lists.now [] (Err d))) }
{
    match join_halves(alloc, lists) {
        Ok(union) => Ok(union),
        Err(MergeError::Memory) => Err(FetchError::Memory),
        Err(MergeError::Clash { .. }) => join_in_turn(alloc, lists),
    }
}

/// The union of the lists, by halves; or an error that tells of some clash, and not which is first.
fn join_halves(alloc: Global, lists: &[Sublist]) -> Result<Vec<Posting>, MergeError>
    requires { All (λ (l : Paged). IsList l.1) lists.now }
    ensures { IfOk result (λ v. AreJoined lists.now v.items) }
{
    let half = lists.len() / 2;
    if half == 0 {
        return Ok(copied(alloc, lists)?);
    }
    let (front, back) = lists.split_at(half);
    let one = join_halves(alloc, front)?;
    let other = join_halves(alloc, back)?;
    merge_distinct(alloc, &one, &other)
}

/// A copy of the list, where there is one.
fn copied(alloc: Global, lists: &[Sublist]) -> Result<Vec<Posting>, AllocError>
    requires few { length lists.now ≤ 1 }
    requires lists { All (λ (l : Paged). IsList l.1) lists.now }
    ensures { IfOk result (λ v. AreJoined lists.now v.items) }
{
    match lists.first() {
        Some(list) => Vec::from_slice(alloc, list.postings()),
        None => Ok(Vec::new(alloc)),
    }
}

/// The union of the lists, one joined after the other; or the first clash.
fn join_in_turn(alloc: Global, lists: &[Sublist]) -> Result<Vec<Posting>, FetchError>
    requires { All (λ (l : Paged). IsList l.1) lists.now }
    ensures list { IfOk result (λ v. IsList v.items) }
    ensures joined { IfOk result (λ v. JoinInTurn lists.now [] (Ok v.items)) }
    ensures failed { IfErr result (IfFailed ⊥) }
    ensures damaged { IfErr result (IfDamaged (λ d. JoinInTurn lists.now [] (Err d))) }
{
    let mut union = Vec::new(alloc);
    for list in lists {
        union = match union_of(alloc, list.page(), &union, list.postings()) {
            Ok(both) => both,
            Err(error) => return Err(error),
        };
    }
    Ok(union)
}

/// The union so far with a list whose place begins at this page.
fn union_of(
    alloc: Global,
    page: u32,
    union: &[Posting],
    list: &[Posting],
) -> Result<Vec<Posting>, FetchError>
    requires union { IsList union.now }
    requires list { IsList list.now }
    ensures joined { IfOk result (λ v. IsUnion union.now list.now v.items) }
    ensures failed { IfErr result (IfFailed ⊥) }
    ensures damaged { IfErr result
        (IfDamaged (λ d. (d.page ≡ page)
        × ((one : PlainPosting) × ((other : PlainPosting) × (IsClash union.now list.now one other × (d.why ≡ Clash one other)))))) }
{
    match merge_distinct(alloc, union, list) {
        Ok(both) => Ok(both),
        Err(MergeError::Clash { one, other }) => {
            let why = Why::Clash { one, other };
            Err(FetchError::Damaged(Damage { page, why }))
        }
        Err(MergeError::Memory) => Err(FetchError::Memory),
    }
}
