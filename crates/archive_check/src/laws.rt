//! What holds of verdicts by their definitions, for whoever proves something over them. Nothing here
//! runs.
ghost use Rattle.archive_check.specs.Laws.{ANewArchiveIsSound, LoadedChangesAreInOrder, OneFinding, OneVerdict, SoundWithDigestsIsHeld, WhatIsHeldHasItsDigests, WhatStandsIsFoundSound, WhatStandsIsSound, WhatStandsIsVerified};

/// The changes of a history that loads come in the order that a check asks for. Does nothing.
pub fn loaded_changes_are_in_order()
    ensures { LoadedChangesAreInOrder }
{}

/// Of some plans there is one verdict at most. Does nothing.
pub fn one_verdict()
    ensures { OneVerdict }
{}

/// The verdict on an image that stands for a history is the history's; where each plan is what its kind
/// promises, that all is sound: as many words as there are live plans, and all their segments. Does nothing.
pub fn what_stands_is_sound()
    ensures verified { WhatStandsIsVerified }
    ensures sound { WhatStandsIsSound }
{}

/// Of a new archive all is sound, and nothing else is told. Does nothing.
pub fn a_new_archive_is_sound()
    ensures { ANewArchiveIsSound }
{}

/// Of some plans there is one finding at most, where digests are asked. Does nothing.
pub fn one_finding()
    ensures { OneFinding }
{}

/// An image that stands for a history in which each plan is what its kind promises has one finding, that
/// all is sound. Does nothing.
pub fn what_stands_is_found_sound()
    ensures { WhatStandsIsFoundSound }
{}

/// What a check finds sound, with right digests, is held: the pages have each live plan's sublists with
/// their digests. Does nothing.
pub fn sound_with_digests_is_held()
    ensures { SoundWithDigestsIsHeld }
{}

/// Pages that hold the live plans' sublists have their digests. Does nothing.
pub fn what_is_held_has_its_digests()
    ensures { WhatIsHeldHasItsDigests }
{}
