//! Taking the pages of places, and giving them back.
ghost use Rattle.std.specs.Prelude.{◌≡◌, ◌∷◌, ◌++◌, ℕ, List, length, All, IfOk, IfErr, OnOk, OnErr, IsErrOf};
ghost use Rattle.std.specs.List.{AllZip};
ghost use Rattle.base_types.specs.declared.extent.Extent.{Extent};
ghost use Rattle.pages_area.specs.Runs.{IsFreeRun, pages_for};
ghost use Rattle.pages_area.specs.Taken.{HasTaken};
ghost use Rattle.pages_area.specs.Placing.{ArePlaced, HaveNoRoom};
ghost use Rattle.pages_sublists.specs.Caching.{without_all};
ghost use Rattle.journal_entries.specs.declared.place.Place.{Place as PlainPlace};
ghost use Rattle.pages_sublists.specs.Preparing.{Adds, IsFor, extents, sizes};
ghost use Rattle.pages_sublists.specs.PlacedAt.{IsPlaceFault, IsFaultOf};

use crate::spelled::Spelling;
use crate::why::PlaceError;
use journal_entries::Place;
use pages_area::{AtError, PageCache, Pages, TakeError};
use pages_checked::Checker;
use sha2::{Digest, Sha256};
use std::alloc::Global;

/// Takes the pages of places for these bytes, each the lowest run; none, where one finds none.
pub(crate) fn place_all(
    pages: &mut Pages,
    alloc: Global,
    spellings: &[Spelling],
) -> Result<Vec<Place>, TakeError>
    requires taken { (taken : List Extent) × HasTaken pages.old taken }
    ensures each { IfOk result (λ v. AllZip IsFor v.items spellings.now) }
    ensures placed { (taken : List Extent) → HasTaken pages.old taken
        → IfOk result (λ v. ArePlaced taken (sizes spellings.now) (extents v.items)) }
    ensures taken { (taken : List Extent) → HasTaken pages.old taken → IfOk result (λ v. HasTaken pages.new (extents v.items ++ taken)) }
    ensures full { (taken : List Extent) → HasTaken pages.old taken → IsErrOf result TakeError.Full
        → HaveNoRoom taken (sizes spellings.now) }
    ensures none { (taken : List Extent) → HasTaken pages.old taken → OnErr result (HasTaken pages.new taken) }
{
    let mut places = Vec::new(alloc);
    for spelling in spellings {
        match add_place(pages, &mut places, spelling) {
            Ok(()) => {}
            Err(error) => {
                release(pages, &places);
                return Err(error);
            }
        }
    }
    Ok(places)
}

/// Takes the pages of these places, which are for these bytes; none, where one of them fails.
pub(crate) fn take_all(
    pages: &mut Pages,
    places: &[Place],
    spellings: &[Spelling],
) -> Result<(), PlaceError>
    requires as_many { length places.now ≡ length spellings.now }
    requires empty { All (λ (p : PlainPlace). p.extent.bytes ≡ 0 → p.extent.first ≡ 0) places.now }
    requires taken { (taken : List Extent) × HasTaken pages.old taken }
    ensures each { OnOk result (AllZip IsFor places.now spellings.now) }
    ensures taken { (taken : List Extent) → HasTaken pages.old taken → OnOk result (HasTaken pages.new (extents places.now ++ taken)) }
    ensures refused { (taken : List Extent) → HasTaken pages.old taken → IfErr result (IsPlaceFault taken places.now spellings.now) }
    ensures none { (taken : List Extent) → HasTaken pages.old taken → OnErr result (HasTaken pages.new taken) }
{
    for k in 0..places.len() {
        match take_place(pages, k as u64, places[k], &spellings[k]) {
            Ok(()) => {}
            Err(error) => {
                release(pages, &places[..k]);
                return Err(error);
            }
        }
    }
    Ok(())
}

/// Takes the pages of a segment's place, which is for these bytes.
fn take_place(
    pages: &mut Pages,
    segment: u64,
    place: Place,
    spelling: &Spelling,
) -> Result<(), PlaceError>
    requires empty { place.extent.bytes ≡ 0 → place.extent.first ≡ 0 }
    ensures suits { OnOk result (IsFor place spelling.now) }
    ensures taken { OnOk result ((taken : List Extent) → HasTaken pages.old taken → HasTaken pages.new (place.extent ∷ taken)) }
    ensures refused { IfErr result (IsFaultOf pages.old segment place spelling.now) }
    ensures pages { OnErr result (pages.new ≡ pages.old) }
{
    let bytes = spelling.bytes();
    if place.extent.bytes != bytes.len() as u64 {
        return Err(PlaceError::Differs { segment });
    }
    let digest: [u8; 32] = Sha256::digest(bytes);
    if digest != place.digest {
        return Err(PlaceError::Differs { segment });
    }
    match pages.take_at(place.extent) {
        Ok(()) => Ok(()),
        Err(AtError::Taken) => Err(PlaceError::Taken { segment }),
        Err(AtError::Memory) => Err(PlaceError::Memory),
    }
}

/// Takes the pages of a place for these bytes.
fn add_place(
    pages: &mut Pages,
    places: &mut Vec<Place>,
    spelling: &Spelling,
) -> Result<(), TakeError>
    ensures added { OnOk result (Adds spelling.now pages.old pages.new places.old.items places.new.items) }
    ensures full { (taken : List Extent) → HasTaken pages.old taken → IsErrOf result TakeError.Full → (first : ℕ)
        → IsFreeRun taken (pages_for (length spelling.now)) first → ⊥ }
    ensures pages { OnErr result (pages.new ≡ pages.old) }
    ensures places { OnErr result (places.new.items ≡ places.old.items) }
{
    places.reserve(1)?;
    let bytes = spelling.bytes();
    let extent = match pages.take(bytes.len() as u64) {
        Ok(extent) => extent,
        Err(error) => return Err(error),
    };
    let digest = Sha256::digest(bytes);
    places.push(Place { extent, digest }).unwrap();
    Ok(())
}

/// Gives the pages of places back.
pub(crate) fn release(pages: &mut Pages, places: &[Place])
    requires taken { (before : List Extent) × ((after : List Extent) × HasTaken pages.old (before ++ (extents places.now ++ after))) }
    ensures freed { (before : List Extent) (after : List Extent) → HasTaken pages.old (before ++ (extents places.now ++ after))
        → HasTaken pages.new (before ++ after) }
{
    for place in places {
        pages.give_back(place.extent);
    }
}

/// Keeps no page of places any longer, and forgets that their bytes were checked.
pub(crate) fn let_go(cache: &mut PageCache, checker: &mut Checker, places: &[Place])
    ensures { cache.new ≡ without_all (extents places.now) cache.old }
{
    for place in places {
        cache.give_back(place.extent);
        checker.let_go(place.extent);
    }
}
