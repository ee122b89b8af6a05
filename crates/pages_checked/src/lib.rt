//! Lists that bytes spell, in one of two layouts, under the SHA-256 of the bytes.
//!
//! Bytes are checked before the list that they spell is given (`specs/Checking.antt`), and what is given
//! depends on them alone. Bytes that a `Checker` checked before are compared in place of being hashed and
//! decoded anew. What it remembers of them takes at most 64 MiB (`specs/Weights.antt`), beside the place
//! that was checked last.
#![tactic(auto)]

mod checked;
mod checker;
mod error;
mod known;
mod spelling;

pub use checker::Checker;
pub use error::{CheckError, DigestError};
pub use spelling::encoded;
