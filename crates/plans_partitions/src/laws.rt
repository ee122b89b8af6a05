//! What holds of each list by the definitions, for whoever proves something over them: what a plan
//! looks for is there. The functions do nothing when they run.
ghost use Rattle.plans_partitions.specs.Laws.{EachListHasBoundaries, OneListOfBoundaries, EachListHasBest, OneListOfBest, EachListHasALeast, EachListHasALeastPlan, PartitionsAreNarrow};

/// Each list has boundaries, at each horizon.
#[tactic(auto, using(crate::proofs::Ordering::each_has_boundaries))]
pub fn each_list_has_boundaries()
    ensures { EachListHasBoundaries }
{}

/// The boundaries of a list at a horizon are one list of times.
pub fn one_list_of_boundaries()
    ensures { OneListOfBoundaries }
{}

/// A list whose spans end at or before the horizon has a least space up to each boundary, for each
/// factor.
#[tactic(auto, using(crate::proofs::Bests::each_has_best))]
pub fn each_list_has_best()
    ensures { EachListHasBest }
{}

/// The least spaces up to the boundaries are one list of numbers.
#[tactic(auto, using(crate::proofs::Bests::one_list_of_best))]
pub fn one_list_of_best()
    ensures { OneListOfBest }
{}

/// A list whose spans end at or before the horizon has a least partition, for each factor.
#[tactic(auto, using(crate::proofs::Bests::each_has_a_least))]
pub fn each_list_has_a_least()
    ensures { EachListHasALeast }
{}

/// A list that isn't empty, and whose spans end at or before the horizon, has a least partition whose
/// cuts are times, and whose end is the horizon.
#[tactic(auto, using(crate::proofs::Bests::each_has_a_least_plan))]
pub fn each_list_has_a_least_plan()
    ensures { EachListHasALeastPlan }
{}

/// A partition at boundaries has ascending cuts, and no more of them than there are boundaries.
pub fn partitions_are_narrow()
    ensures { PartitionsAreNarrow }
{}
