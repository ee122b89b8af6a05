//! Showing bytes on a sink.
ghost use Rattle.std.specs.Prelude.{◌≡◌, ◌+◌, ◌<◌, ◌++◌, length, OnOk, OnErr};
ghost use Rattle.machine_model.specs.Causes.{HasCause};
ghost use Rattle.machine_model.specs.Pushes.{IsPrefix};

use machine_model::{Failed, Sink};

/// Shows a piece whole: pushes go on with what is left of it. `Failed` has shown a front of it, and
/// not all.
pub fn show<K: Sink>(sink: &mut K, piece: &[u8]) -> Result<(), Failed>
    ensures only { K.Sink.only sink.old sink.new }
    ensures cause { HasCause (K.sink sink.old).faults (K.sink sink.new).faults result }
    ensures front { K.sink_tells → IsPrefix (K.sink sink.new).shown ((K.sink sink.old).shown ++ piece.now) }
    ensures short { K.sink_tells → OnErr result (length (K.sink sink.new).shown < length (K.sink sink.old).shown + length piece.now) }
    ensures whole { K.sink_tells → OnOk result ((K.sink sink.new).shown ≡ (K.sink sink.old).shown ++ piece.now) }
{
    let mut rest = piece;
    while !rest.is_empty() {
        let count = sink.push(rest)?;
        rest = &rest[count..];
    }
    Ok(())
}
