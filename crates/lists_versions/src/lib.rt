//! The versions of documents: which text of a document was alive at a time, and what may come next.
//!
//! Its model is the list of changes in their order: each a new text of a document, or its deletion.
//! A change holds something of the text (its place in the journal, or in the definitions of a
//! history the text itself), so that one set of definitions serves both. A `Directory` keeps changes
//! with places. It promises the layer above the exact answer for every document and time, the first
//! cause of a refusal in a fixed order, and that a change for which room was made takes no memory.
#![tactic(auto)]

mod change;
mod coming;
mod directory;
mod last_life;
mod laws;
mod link;
mod lives;
mod newest;
mod refusal;
mod walk;

pub use change::Change;
pub use coming::Coming;
pub use directory::Directory;
pub use laws::{held_as_changes_come, lives_are_one, the_alive_hold_something};
pub use refusal::VersionRefusal;
