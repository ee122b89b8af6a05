//! What holds of proposals by their definition. The functions do nothing when they run.
ghost use Rattle.plans_kinds.specs.ProposalLaws.{EachListHasAProposal, EachPartitionIsShown, PartitionsAreShownOnce, ProposalsDifferInSegments};

/// A list whose spans end at or before the horizon has a proposal, for each factor.
pub fn each_list_has_a_proposal()
    ensures { EachListHasAProposal }
{}

/// Two proposals for a list have the same nodes and the same space.
pub fn proposals_differ_in_segments()
    ensures { ProposalsDifferInSegments }
{}

/// Each admissible partition of a list can be shown.
pub fn each_partition_is_shown()
    ensures { EachPartitionIsShown }
{}

/// A partition is shown in one way.
pub fn partitions_are_shown_once()
    ensures { PartitionsAreShownOnce }
{}
