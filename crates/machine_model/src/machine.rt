//! A source, a sink and a disk in one.
ghost use Rattle.std.specs.Prelude.{◌≡◌, ℕ, List, Result};
ghost use Rattle.machine_model.specs.Laws.{AskedLaws};
ghost use Rattle.machine_model.specs.Pulls.{Pull};
ghost use Rattle.machine_model.specs.Pushes.{IsSameBeside, OnlyShows, IsShownByPiece, taken};

use crate::{Disk, Sink, Source};

/// A source, a sink and a disk in one, none of whose calls touches the others; but what is shown
/// stands beside the disk's images, so that each push makes moments of the disk.
pub trait Machine: Source + Sink + Disk {
    ghost use Rattle.machine_model.specs.declared.area.Failed.{Failed};

    /// The machine came from the first state to the second by calls of any trait, these pulls among
    /// them, the first first.
    ghost asked: { Self → List Pull → Self → Type 0 };

    ghost source_alone: { (x y : Self) → Self.Source.only x y → (Self.sink y ≡ Self.sink x) × (Self.disk y ≡ Self.disk x) };

    ghost disk_alone: { (x y : Self) → Self.Disk.only x y → (Self.source y ≡ Self.source x) × (Self.sink y ≡ Self.sink x) };

    ghost sink_alone: { (x y : Self) → Self.Sink.only x y → (Self.source y ≡ Self.source x) × IsSameBeside (Self.disk x) (Self.disk y) };
    // the calls of the other traits heal no disk
    ghost source_keeps_lost: { (x y : Self) → Self.Source.only x y → Self.has_lost x → Self.has_lost y };

    ghost sink_keeps_lost: { (x y : Self) → Self.Sink.only x y → Self.has_lost x → Self.has_lost y };
    // beside the images stand the bytes shown
    ghost beside_shown: { (x : Self) → Self.sink_tells → Self.disk_tells → (Self.disk x).now.beside ≡ (Self.sink x).shown };
    // any pushes
    ghost shows: { (x y : Self) → Self.sink_tells → Self.disk_tells → Self.Sink.only x y
        → OnlyShows (Self.disk x) (Self.disk y) (Self.sink x).shown (Self.sink y).shown };
    // one push, exactly
    ghost shows_piece: { (x y : Self) (piece : List ℕ) (answer : Result ℕ Failed) → Self.sink_tells → Self.disk_tells
        → Self.pushed x piece answer y → IsShownByPiece (Self.sink x).shown piece (taken answer) (Self.disk x) (Self.disk y) };
    /// The laws of these pulls.
    ghost asked_laws: { AskedLaws Self.source Self.sink Self.pulled Self.Sink.only Self.Disk.only asked };
}
