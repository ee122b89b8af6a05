//! What holds of approximations by their definitions. The functions do nothing when they run.
ghost use Rattle.lists_approx.specs.Laws.{OneLongestFirst, EachHasALongestFirst, LongestFirstIsOfRows, LongestFirstIsFewest, NearIsThere, NearOfSums};

/// A list has at most one longest-first approximation.
pub fn one_longest_first()
    ensures { OneLongestFirst }
{}

/// Each list has a longest-first approximation.
pub fn each_has_a_longest_first()
    ensures { EachHasALongestFirst }
{}

/// The longest-first approximation depends on the rows at each time alone.
pub fn longest_first_is_of_rows()
    ensures { LongestFirstIsOfRows }
{}

/// No list that approximates a list is shorter than its longest-first approximation.
pub fn longest_first_is_fewest()
    ensures { LongestFirstIsFewest }
{}

/// A frequency that is near another is 0 exactly where that is.
pub fn near_is_there()
    ensures { NearIsThere }
{}

/// Weighted sums of frequencies that are near others, one by one, are near.
pub fn near_of_sums()
    ensures { NearOfSums }
{}
