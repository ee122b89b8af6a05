//! What holds of sublists in places, whatever is written or read. The functions do nothing when they
//! run.
ghost use Rattle.pages_sublists.specs.Preparing.{PiecesHoldSublists, PlacesAreForSublists};
ghost use Rattle.pages_sublists.specs.Laws.{OneCause, NoCauseAgainstFetched, OneFetched, OneGathering, HeldIsGathered};

/// Pages that hold the pieces of a list's segments hold their sublists.
pub fn pieces_hold_sublists()
    ensures { PiecesHoldSublists }
{}

/// Places that are for a list's spellings are for its segments' sublists.
pub fn places_are_for_sublists()
    ensures { PlacesAreForSublists }
{}

/// Of the causes against a fetch one holds at most, and none against what is fetched, which is one
/// list.
pub fn one_answer_of_bytes()
    ensures cause { OneCause }
    ensures none { NoCauseAgainstFetched }
    ensures list { OneFetched }
{}

/// Gathering tells one thing, but that which two postings of a clash are named is free.
pub fn one_gathering()
    ensures { OneGathering }
{}

/// Where the places of a list's segments hold its sublists, nothing is damaged, and what is gathered
/// for a window says of each time in it what the list says. As many postings are read as the segments
/// have that overlap the window.
pub fn held_sublists_are_gathered()
    ensures { HeldIsGathered }
{}
