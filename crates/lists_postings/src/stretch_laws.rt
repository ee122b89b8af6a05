//! What holds of longest stretches by their definition, for whoever proves something over them. The
//! functions do nothing when they run.
ghost use Rattle.lists_postings.specs.StretchLaws.{ExactlyTheLongest, StretchesAreOne, EachHasStretches};

/// A list of longest stretches has each of them, and no other.
pub fn exactly_the_longest<R, V>()
    ensures { ExactlyTheLongest R V }
{}

/// There is at most one list of the longest stretches.
pub fn stretches_are_one<R, V>()
    ensures { StretchesAreOne R V }
{}

/// Where nothing is said from some document on, there is a list of the longest stretches.
pub fn each_has_stretches<R, V>()
    ensures { EachHasStretches R V }
{}
