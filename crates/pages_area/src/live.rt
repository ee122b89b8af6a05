//! The pages that extents leave free which are taken already.
ghost use Rattle.std.specs.Prelude.{◌≡◌, ◌∷◌, true, false, ℕ, List, IfOk, OnErr, IfErr};
ghost use Rattle.pages_area.specs.declared.live.LiveError.{LiveError};
ghost use Rattle.base_types.specs.declared.extent.Extent.{Extent as PlainExtent};
ghost use Rattle.pages_area.specs.Runs.{IsPageOf, IsTaken};
ghost use Rattle.pages_area.specs.Taken.{HasTaken};
ghost use Rattle.pages_area.specs.Live.{AreLive, IsRefused};

use crate::edges::are_free;
use crate::extents::end;
use crate::pages::Pages;
use base_types::Extent;
use std::alloc::{AllocError, Global};

/// Why extents cannot be taken together.
#[derive(Clone, Copy, Debug, PartialEq, Eq, Drop)]
pub enum LiveError {
    /// The extent of this index reaches behind the bytes that Pages has.
    Outside {
        /// Its index among all.
        index: usize,
    },
    /// The extent of this index shares a page with an earlier one.
    Clash {
        /// Its index among all.
        index: usize,
    },
    /// There was no memory.
    Memory,
}

impl From<AllocError> for LiveError {
    ghost from_gives = { λ _ e. e ≡ LiveError.Memory };

    fn from(_: AllocError) -> LiveError {
        LiveError::Memory
    }
}

impl Pages {
    /// The pages that are free where these extents are taken, of Pages that have `reach` bytes. For
    /// each extent it costs the logarithm of the number of free runs, and a move of those behind it.
    pub fn from_live(alloc: Global, live: &[Extent], reach: u64) -> Result<Pages, LiveError>
        ensures taken { IfOk result (λ p. HasTaken p live.now × AreLive live.now reach) }
        // An extent is refused exactly where it is the first that doesn't pass.
        ensures refused { IfErr result (IsRefused live.now reach) }
    {
        let mut pages = Pages::whole(alloc);
        for index in 0..live.len() {
            let extent = live[index];
            if end(extent) > reach {
                return Err(LiveError::Outside { index });
            }
            if !pages.claim(extent)? {
                return Err(LiveError::Clash { index });
            }
        }
        Ok(pages)
    }

    /// Takes the pages of an extent; false, and no page is taken, where one of them is.
    pub(crate) fn claim(&mut self, extent: Extent) -> Result<bool, AllocError>
        ensures yes { IfOk result (λ free. free ≡ true → (extents : List PlainExtent) → HasTaken self.old extents
            → HasTaken self.new (extent ∷ extents)) }
        ensures no { IfOk result (λ free. free ≡ false → (extents : List PlainExtent) → HasTaken self.old extents
            → (p : ℕ) × (IsPageOf extent p × IsTaken extents p)) }
        ensures unclaimed { IfOk result (λ free. free ≡ false → self.new ≡ self.old) }
        ensures same { OnErr result (self.new ≡ self.old) }
    {
        if extent.bytes == 0 {
            return Ok(true);
        }
        if !are_free(&self.edges, extent) {
            return Ok(false);
        }
        self.hold(extent)?;
        Ok(true)
    }
}
