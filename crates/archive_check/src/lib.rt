//! The check of an archive: whether its sublists are those of its texts, and its plans least ones.
//!
//! `verify` reads all texts from the journal, makes the words' lists anew, and holds against them the
//! bytes that stand in Pages; plans that keep to a guarantee are judged by certificates. What it tells is
//! said by what reads give, on any disk that tells (`specs/Verdicts.antt`). Of what an archive keeps in
//! memory it uses only where texts and sublists lie, and it asks no digest. `verify_with_digests` asks
//! them too, last (`specs/Digests.antt`). Nothing here writes.
#![tactic(auto)]

mod bytes;
mod digests;
mod error;
mod finding;
mod laws;
mod least;
mod ordering;
mod segments;
mod texts;
mod verifying;

pub use error::VerifyError;
pub use finding::Finding;
pub use laws::{
    a_new_archive_is_sound, loaded_changes_are_in_order, one_finding, one_verdict,
    sound_with_digests_is_held, what_is_held_has_its_digests, what_stands_is_found_sound,
    what_stands_is_sound,
};
pub use verifying::{verify, verify_with_digests};
