//! The boundaries at which a plan may cut.
ghost use Rattle.std.specs.Prelude.{◌+◌, ◌<◌, ◌≤◌, ◌^◌, IfOk};
ghost use Rattle.plans_space.specs.Steps.{AreStops};

use std::alloc::{AllocError, Global};

/// The most gaps between candidates.
const MOST_GAPS: usize = 127;

/// The places of the candidates among so many boundaries, from the last to the first.
pub(crate) fn stops(alloc: Global, boundaries: usize) -> Result<Vec<usize>, AllocError>
    requires some { 2 ≤ boundaries }
    requires few { boundaries ≤ 2 ^ 41 }
    ensures { IfOk result (λ v. AreStops boundaries v.items) }
{
    let last = boundaries - 1;
    let stride = last.div_ceil(MOST_GAPS);
    let gaps = last.div_ceil(stride);
    let mut places = Vec::new(alloc);
    for i in 0..gaps + 1 {
        places.push(last.min((gaps - i) * stride))?;
    }
    Ok(places)
}
