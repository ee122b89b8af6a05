//! What holds of caches, whatever is asked. The functions do nothing when they run.
ghost use Rattle.pages_area.specs.CacheLaws.{AskedIsFirst, AskedTwiceMissesOnce, FewAreKept, AskingsJoin, MissesAreBySizes, AskingStands, WritesApartStand, GivenBackLeave, AskedLieInTaken, LeftLieInRest};

/// The page that was asked for is first.
pub fn asked_is_first()
    ensures { AskedIsFirst }
{}

/// Asking for a page twice in a row misses once at most.
pub fn asked_twice_misses_once()
    ensures { AskedTwiceMissesOnce }
{}

/// No page is kept twice, and 1,024 at most.
pub fn few_are_kept()
    ensures { FewAreKept }
{}

/// Asking for some pages and then for others is asking for all of them.
pub fn askings_join()
    ensures { AskingsJoin }
{}

/// How many bytes are missed is so by pages and the lengths of pieces alone.
pub fn misses_are_by_sizes()
    ensures { MissesAreBySizes }
{}

/// A cache that stands for Pages gives what Pages holds, and goes on standing for it.
pub fn asking_stands()
    ensures { AskingStands }
{}

/// A cache goes on standing for Pages while only extents are written that have none of its pages.
pub fn writes_apart_stand()
    ensures { WritesApartStand }
{}

/// Pages that are given back are kept no longer, and the others stand as they did.
pub fn given_back_leave()
    ensures { GivenBackLeave }
{}

/// What is kept lies in the extents that are taken, while only their pages are asked for.
pub fn asked_lie_in_taken()
    ensures { AskedLieInTaken }
{}

/// And it lies in the others once the pages of one of them are given back.
pub fn left_lie_in_rest()
    ensures { LeftLieInRest }
{}
