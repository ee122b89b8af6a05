//! What holds of expected costs, offers and choices by their definitions. The functions do nothing when they run.
ghost use Rattle.plans_share.specs.Laws.{CountedCostsAreSmall, EachHaveABestChoice, EachListHasAnOffer};

/// Costs by counts of what was asked are below the bound that a choice asks for.
pub fn counted_costs_are_small()
    ensures { CountedCostsAreSmall }
{}

/// There is an offer for each list, and a best choice among any offers.
pub fn there_is_a_best_choice()
    ensures offer { EachListHasAnOffer }
    ensures choice { EachHaveABestChoice }
{}
