//! What holds of plans under a space bound by the definitions, for whoever proves something over them.
//! The functions do nothing when they run.
ghost use Rattle.plans_space.specs.Laws.{EligibleIsCapped, EachListHasABest, EachListHasAFront, EligibleIsShort, WeightsOfAFunction};

use crate::load::Load;
use base_types::Span;

/// A partition that may be chosen takes at most the cap.
pub fn eligible_is_capped()
    ensures { EligibleIsCapped }
{}

/// There is a best partition from each time to each later one, for any weights.
pub fn each_list_has_a_best()
    ensures { EachListHasABest }
{}

/// There is a front between any two times, for any weights.
pub fn each_list_has_a_front()
    ensures { EachListHasAFront }
{}

/// A partition that may be chosen has at most 127 segments, whatever the number of boundaries.
pub fn eligible_is_short()
    ensures { EligibleIsShort }
{}

/// Where the load answers by a function of a span's two ends, the weights are that function's.
pub fn weights_of_a_function<F: Fn(Span) -> u64>(load: &Load<F>)
    ensures { WeightsOfAFunction (F.post load.now) }
{}
