//! A record as it stands in a journal.
ghost use Rattle.std.specs.Prelude.{◌≡◌, ◌+◌, ◌<◌, ◌^◌, ◌∷◌, [], List, ℕ, length, IfOk};

use crate::gate::{CLOSED_GATE, OPEN_GATE};
use std::alloc::{AllocError, Global};
use std::marker::Model;

/// A record in memory, as it stands in a journal: an open gate, the length of the body, the body, and the
/// next gate, closed. To contracts it is the body.
#[derive(Debug, Drop)]
pub struct Frame {
    bytes: Vec<u8>,
}

impl Model for Frame {
    ghost use Rattle.std.specs.Prelude.{◌≡◌, ◌<◌, ◌^◌, List, ℕ, length};
    ghost use Rattle.journal_gates.specs.Framed.{body_of, IsFrame};

    ghost Value = { List ℕ };

    ghost view = { λ f. body_of f.bytes.items };

    ghost invariant = { λ f. IsFrame f.bytes.items };
}

impl Frame {
    ghost use Rattle.journal_gates.specs.Records.{open_gate, behind_gate};

    /// Makes the record of a body, with all the memory that `append` needs: the length of the body and 6 bytes.
    pub fn new(alloc: Global, body: &[u8]) -> Result<Frame, AllocError>
        requires { length body.now < 2 ^ 32 }
        ensures body { IfOk result (λ frame. frame ≡ body.now) }
    {
        let mut bytes = Vec::with_capacity(alloc, body.len() + 6)?;
        bytes.push(OPEN_GATE)?;
        bytes.extend_from_slice(&(body.len() as u32).to_be_bytes())?;
        bytes.extend_from_slice(body)?;
        bytes.push(CLOSED_GATE)?;
        Ok(Frame { bytes })
    }

    pub(crate) fn as_bytes(&self) -> &[u8]
        ensures bytes { result.now ≡ open_gate ∷ behind_gate self.now }
        ensures fit { length self.now < 2 ^ 32 }
    {
        &self.bytes
    }

    // The gate, and what stands behind it.
    pub(crate) fn parts(&self) -> (&[u8], &[u8])
        ensures gate { result.0.now ≡ open_gate ∷ [] }
        ensures behind { result.1.now ≡ behind_gate self.now }
        ensures fit { length self.now < 2 ^ 32 }
    {
        self.as_bytes().split_at(1)
    }
}
