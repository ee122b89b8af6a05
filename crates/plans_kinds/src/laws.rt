//! What holds of stored plans by their definitions. The functions do nothing when they run.
ghost use Rattle.plans_kinds.specs.Laws.{GoodPlansAreFit, EachListHasAGoodPlan, EachGoodPlanHasACost, GoodPlansCostTheSame, GoodPlansAreShort, FitPlansAreWellCut};

/// A plan that is what its kind promises may be loaded.
#[tactic(auto, using(crate::proofs::GoodLemmas::good_is_fit))]
pub fn good_plans_are_fit()
    ensures { GoodPlansAreFit }
{}

/// A list that isn't empty, and whose spans end at or before the horizon, has a plan that is what its
/// kind promises, for each factor. (For a guarantee it has to have few enough boundaries.)
#[tactic(auto, using(crate::proofs::GoodLemmas::each_has_a_good_plan))]
pub fn each_list_has_a_good_plan()
    ensures { EachListHasAGoodPlan }
{}

/// A plan that is what its kind promises has an expected cost, where its kind has one.
#[tactic(auto, using(crate::proofs::GoodLemmas::each_has_a_cost))]
pub fn each_good_plan_has_a_cost()
    ensures { EachGoodPlanHasACost }
{}

/// Two plans of a list that are both what their kind promises have the same expected cost, where their
/// kind has one.
#[tactic(auto, using(crate::proofs::GoodLemmas::cost_the_same))]
pub fn good_plans_cost_the_same()
    ensures { GoodPlansCostTheSame }
{}

/// A plan that is what its kind promises has at most 1,048,575 cuts.
#[tactic(auto, using(crate::proofs::GoodLemmas::good_are_short))]
pub fn good_plans_are_short()
    ensures { GoodPlansAreShort }
{}

/// A plan that may be loaded has a first cut, at the first boundary; the cuts ascend, up to the
/// horizon.
#[tactic(auto, using(crate::proofs::GoodLemmas::fit_well_cut))]
pub fn fit_plans_are_well_cut()
    ensures { FitPlansAreWellCut }
{}
