//! The bytes of the segments' sublists.
ghost use Rattle.std.specs.Prelude.{◌≡◌, [], ◌∷◌, ◌++◌, length, IfOk, OnOk};
ghost use Rattle.lists_postings.specs.Lists.{IsList};
ghost use Rattle.pages_area.specs.Runs.{pages_for};
ghost use Rattle.pages_sublists.specs.Segments.{seconds};
ghost use Rattle.pages_sublists.specs.Preparing.{spellings};

use crate::parts::{narrowed, sublist_bytes};
use base_types::{PAGE_BYTES, Posting, Time};
use journal_entries::Layout;
use std::alloc::{AllocError, Global};
use std::marker::Model;

/// The bytes of a list.
#[derive(Drop)]
pub(crate) struct Spelling {
    bytes: Vec<u8>,
}

impl Model for Spelling {
    ghost use Rattle.std.specs.Prelude.{ℕ, List};

    ghost Value = { List ℕ };

    ghost view = { λ s. s.bytes.items };
}

impl Spelling {
    /// The bytes.
    pub(crate) fn bytes(&self) -> &[u8]
        ensures { result.now ≡ self.now }
    {
        &self.bytes
    }

    /// How many pages the bytes take, the last one in part.
    pub(crate) fn pages(&self) -> u64
        ensures { result ≡ pages_for (length self.now) }
    {
        (self.bytes.len() as u64).div_ceil(PAGE_BYTES)
    }
}

/// The bytes of each segment's sublist, in the order of the segments. It costs, for each halving of the
/// segments, passes over the postings that overlap each part; the lists of parts that are held at one
/// time have no more postings than the list.
pub(crate) fn spell_all(
    alloc: Global,
    layout: Layout,
    list: &[Posting],
    cuts: &[Time],
    horizon: Time,
) -> Result<Vec<Spelling>, AllocError>
    requires { IsList list.now }
    ensures { IfOk result (λ v. v.items ≡ spellings layout list.now (seconds cuts.now) horizon.seconds) }
{
    let mut spelled = Vec::new(alloc);
    spell_halves(alloc, layout, list, cuts, horizon, &mut spelled)?;
    Ok(spelled)
}

/// Spells the segments that begin at the cuts, the last of which ends at `end`: one half of them and
/// then the other, each from the postings that overlap them.
fn spell_halves(
    alloc: Global,
    layout: Layout,
    list: &[Posting],
    cuts: &[Time],
    end: Time,
    spelled: &mut Vec<Spelling>,
) -> Result<(), AllocError>
    requires { IsList list.now }
    ensures { OnOk result (spelled.new.items ≡ spelled.old.items ++ spellings layout list.now (seconds cuts.now) end.seconds) }
{
    let half = cuts.len() / 2;
    if half == 0 {
        return match cuts.split_first() {
            Some((cut, _)) => spell_one(alloc, layout, list, *cut, end, spelled),
            None => Ok(()),
        };
    }
    let part = narrowed(alloc, list, cuts, end)?;
    let list = part.as_deref().unwrap_or(list);
    let (left, right) = cuts.split_at(half);
    spell_halves(alloc, layout, list, left, cuts[half], spelled)?;
    spell_halves(alloc, layout, list, right, end, spelled)
}

/// Spells one segment, with a pass over the list.
fn spell_one(
    alloc: Global,
    layout: Layout,
    list: &[Posting],
    from: Time,
    to: Time,
    spelled: &mut Vec<Spelling>,
) -> Result<(), AllocError>
    requires { IsList list.now }
    ensures { OnOk result (spelled.new.items ≡ spelled.old.items ++ spellings layout list.now (from.seconds ∷ []) to.seconds) }
{
    let bytes = sublist_bytes(alloc, layout, list, from.seconds, to.seconds)?;
    spelled.push(Spelling { bytes })?;
    Ok(())
}
