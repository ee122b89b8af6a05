//! Which pages are free.
ghost use Rattle.std.specs.Prelude.{◌≡◌, ◌≤◌, [], ◌∷◌, ◌++◌, List, ℕ, IfOk, OnOk, OnErr, IsErrOf};
ghost use Rattle.pages_area.specs.declared.pages.TakeError.{TakeError};
ghost use Rattle.pages_area.specs.declared.pages.AtError.{AtError};
ghost use Rattle.base_types.specs.declared.extent.Extent.{Extent as PlainExtent};
ghost use Rattle.pages_area.specs.Runs.{IsFreeRun, IsLowestRun, IsPageOf, IsTaken, pages_for};
ghost use Rattle.pages_area.specs.Edges.{AreFree};
ghost use Rattle.pages_area.specs.Taken.{HasTaken};

use crate::edges::{extent_at, first_fit, turn};
use base_types::Extent;
use std::alloc::{AllocError, Global};
use std::marker::Model;

/// Why no pages were taken.
#[derive(Clone, Copy, Debug, PartialEq, Eq, Drop)]
pub enum TakeError {
    /// No run of free pages is long enough.
    Full,
    /// There was no memory.
    Memory,
}

impl From<AllocError> for TakeError {
    ghost from_gives = { λ _ e. e ≡ TakeError.Memory };

    fn from(_: AllocError) -> TakeError {
        TakeError::Memory
    }
}

/// Why the pages of an extent were not taken.
#[derive(Clone, Copy, Debug, PartialEq, Eq, Drop)]
pub enum AtError {
    /// The extent shares a page with one that is taken.
    Taken,
    /// There was no memory.
    Memory,
}

impl From<AllocError> for AtError {
    ghost from_gives = { λ _ e. e ≡ AtError.Memory };

    fn from(_: AllocError) -> AtError {
        AtError::Memory
    }
}

/// The pages at which what is taken begins and ends, in order: in a plan's segments, which lie one behind
/// the other, there are few of them, however many extents are taken. Room for the pages of each extent taken
/// to come back is kept.
#[derive(Drop)]
pub struct Pages {
    pub(crate) edges: Vec<u32>,
    pub(crate) taken: usize,
}

impl Model for Pages {
    ghost use Rattle.std.specs.Prelude.{◌+◌, ◌*◌, ◌≤◌, vec_len, vec_capacity};
    ghost use Rattle.pages_area.specs.Edges.{AreEdges};
    ghost use Rattle.pages_area.specs.Taken.{PagesState};

    ghost Value = { PagesState };

    ghost view = { λ p. record { edges = p.edges.items; taken = p.taken } };

    // The edges are in order, no two at one page; and there is room for two more for each extent taken.
    ghost invariant = { λ p. AreEdges p.edges.items × (vec_len p.edges + 2 * p.taken ≤ vec_capacity p.edges) };
}

impl Pages {
    /// All pages free.
    pub(crate) fn whole(alloc: Global) -> Pages
        ensures { HasTaken result [] }
    {
        Pages {
            edges: Vec::new(alloc),
            taken: 0,
        }
    }

    /// Takes the lowest run of free pages that is long enough for so many bytes, and makes the room
    /// for giving it back. It costs a look at each free run before that one.
    pub fn take(&mut self, bytes: u64) -> Result<Extent, TakeError>
        ensures bytes { IfOk result (λ e. e.bytes ≡ bytes) }
        ensures lowest { (extents : List PlainExtent) → HasTaken self.old extents
            → IfOk result (λ e. IsLowestRun extents (pages_for bytes) e.first) }
        ensures taken { (extents : List PlainExtent) → HasTaken self.old extents → IfOk result (λ e. HasTaken self.new (e ∷ extents)) }
        ensures full { (extents : List PlainExtent) → HasTaken self.old extents → IsErrOf result TakeError.Full → (first : ℕ)
            → IsFreeRun extents (pages_for bytes) first → ⊥ }
        ensures same { OnErr result (self.new ≡ self.old) }
    {
        if bytes == 0 {
            return Ok(extent_at(0, 0));
        }
        let Some(extent) = first_fit(&self.edges, bytes) else {
            return Err(TakeError::Full);
        };
        self.hold(extent)?;
        Ok(extent)
    }

    /// Takes the pages of an extent, wherever it lies, and makes the room for giving it back. With no
    /// bytes it has no page. It costs the logarithm of the number of free runs, and a move of those
    /// behind it.
    pub fn take_at(&mut self, extent: Extent) -> Result<(), AtError>
        ensures taken { OnOk result ((extents : List PlainExtent) → HasTaken self.old extents → HasTaken self.new (extent ∷ extents)) }
        ensures refused { IsErrOf result AtError.Taken → (extents : List PlainExtent) → HasTaken self.old extents
            → (p : ℕ) × (IsPageOf extent p × IsTaken extents p) }
        ensures same { OnErr result (self.new ≡ self.old) }
    {
        if !self.claim(extent)? {
            return Err(AtError::Taken);
        }
        Ok(())
    }

    // Takes an extent whose pages are free, and makes the room for giving them back.
    pub(crate) fn hold(&mut self, extent: Extent) -> Result<(), AllocError>
        requires { 1 ≤ extent.bytes }
        ensures held { OnOk result ((extents : List PlainExtent) → HasTaken self.old extents
            → AreFree self.old.edges extent.first (pages_for extent.bytes) → HasTaken self.new (extent ∷ extents)) }
        ensures same { OnErr result (self.new ≡ self.old) }
    {
        self.edges.reserve(2 * self.taken + 4)?;
        turn(&mut self.edges, extent);
        self.taken += 1;
        Ok(())
    }

    /// Gives the pages of an extent back. Takes no memory. It costs the logarithm of the number of
    /// free runs, and a move of those behind.
    pub fn give_back(&mut self, extent: Extent)
        requires taken { (before : List PlainExtent) × ((after : List PlainExtent) × HasTaken self.old (before ++ extent ∷ after)) }
        ensures freed { (before after : List PlainExtent) → HasTaken self.old (before ++ extent ∷ after)
            → HasTaken self.new (before ++ after) }
    {
        if extent.bytes == 0 {
            return;
        }
        turn(&mut self.edges, extent);
        self.taken -= 1;
    }
}
