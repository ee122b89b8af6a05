//! What holds of places and of writes to pages, whatever is taken or written. The functions do
//! nothing when they run.
ghost use Rattle.std.specs.Prelude.{◌++◌, List};
ghost use Rattle.machine_model.specs.States.{DiskState};
ghost use Rattle.machine_model.specs.declared.range.Range.{Range};
ghost use Rattle.pages_area.specs.Crash.{ChangesOnly};
ghost use Rattle.pages_area.specs.Taken.{TakenInAnyOrder};
ghost use Rattle.pages_area.specs.Wrote.{ExtentsApartStay, GoodWritesJoin};
ghost use Rattle.pages_area.specs.Placing.{EachIsPlacedOrNot, NoneIsPlacedAndNot, OneListOfPlaces};

/// Writes in a row change only what each of them may.
pub fn page_writes_join()
    ensures { (a b c : DiskState) (xs ys : List Range) → ChangesOnly xs a b → ChangesOnly ys b c → ChangesOnly (xs ++ ys) a c }
{}

/// The bytes of an extent stay where only extents that share no page with it are written.
pub fn extents_apart_stay()
    ensures { ExtentsApartStay }
{}

/// After good writes to extents that share no page all of their bytes stand there.
#[tactic(auto, using(crate::proofs::WroteLemmas::wrote_join))]
pub fn good_writes_join()
    ensures { GoodWritesJoin }
{}

/// Whatever is taken, parts of so many bytes each are placed, or there is no room for them.
#[tactic(auto, using(crate::proofs::PlacingLemmas::placed_or_not))]
pub fn each_is_placed_or_not()
    ensures { EachIsPlacedOrNot }
{}

/// Parts that are placed have room.
#[tactic(auto, using(crate::proofs::PlacingLemmas::none_is_placed_and_not))]
pub fn none_is_placed_and_not()
    ensures { NoneIsPlacedAndNot }
{}

/// Parts of so many bytes each are placed in one way.
#[tactic(auto, using(crate::proofs::PlacingLemmas::one_list_of_places))]
pub fn one_list_of_places()
    ensures { OneListOfPlaces }
{}

/// Extents that are taken may be named in any order: two stretches of them change places.
pub fn taken_in_any_order()
    ensures { TakenInAnyOrder }
{}
