//! What holds by the definitions, for whoever proves something over them. Nothing here runs.
ghost use Rattle.run_audit.specs.Laws.{OneFindingOnAnImage, SoundImagesAreWhole};

/// Of an image one thing is found at most: so an audit's status is 0 exactly where that is that all is
/// sound, and a digest is told exactly where it is the first that is wrong and all else is sound. Does
/// nothing.
pub fn an_image_has_one_finding()
    ensures { OneFindingOnAnImage }
{}

/// An image of which all is found sound has all that an archive answers from: a history that loads, and
/// the sublists of its live plans with their digests. Does nothing.
pub fn a_sound_image_is_whole()
    ensures { SoundImagesAreWhole }
{}
