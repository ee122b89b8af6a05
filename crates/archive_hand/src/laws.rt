//! What holds of archives whatever is called.
ghost use Rattle.machine_model.specs.States.{DiskState};
ghost use Rattle.model_archive.specs.Stands.{EachStands};
ghost use Rattle.model_archive.specs.Worlds.{World};
ghost use Rattle.archive_hand.specs.States.{ArchiveState, AreInStep};

/// A law of the definitions: where an archive is in step with its disk, each image that a stop may
/// leave stands for its state. Does nothing.
pub fn an_archive_in_step_stands()
    ensures { (d : DiskState) (a : ArchiveState) (w : World) → AreInStep d a w → EachStands d w.history }
{}
