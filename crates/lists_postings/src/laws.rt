//! What holds of lists by their definitions, for whoever proves something over them. The functions
//! do nothing when they run.
ghost use Rattle.lists_postings.specs.Laws.{OneCoalesced, CoalescedIsShortest, OneListOf, ClipOfListOf, LongestSpans, FrequencyOfUnion, JoinOfListsOf, SizeIsBegunLessEnded, EachFrequencyHasAList};

/// Coalesced lists with the same rows at each time are one list.
pub fn one_coalesced()
    ensures { OneCoalesced }
{}

/// No list with the same rows at each time is shorter than a coalesced one.
pub fn coalesced_is_shortest()
    ensures { CoalescedIsShortest }
{}

/// There is at most one list of a frequency over an interval.
pub fn one_list_of()
    ensures { OneListOf }
{}

/// The clip of a frequency's list to a part of its interval is the list over that part.
pub fn clip_of_list_of()
    ensures { ClipOfListOf }
{}

/// A frequency's list has exactly the longest spans of one frequency.
pub fn longest_spans()
    ensures { LongestSpans }
{}

/// The frequency that a union gives is that of the list which has one.
pub fn frequency_of_union()
    ensures { FrequencyOfUnion }
{}

/// A frequency's lists over two intervals that touch make its list over both.
pub fn join_of_lists_of()
    ensures { JoinOfListsOf }
{}

/// The size of a sublist is a difference of two counts.
pub fn size_is_begun_less_ended()
    ensures { SizeIsBegunLessEnded }
{}

/// Each frequency below 2^32 of documents below 2^32 has a list over each interval that ends at 2^40
/// at most; and by `one_list_of` no more than one.
pub fn each_frequency_has_a_list()
    ensures { EachFrequencyHasAList }
{}
