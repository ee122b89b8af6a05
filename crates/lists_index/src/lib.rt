//! The inverted index of all versions of documents, in memory: for each word the list of how often
//! each document has it at each time.
//!
//! Its model is the list of changes so far, each a new text of a document or its deletion. An
//! `Index` numbers the words, keeps each word's list, and for each document the weights of its
//! newest version. A change is prepared, which makes all room and changes no answer, and then
//! committed, which takes no memory and can't fail. `NewWords` prepares changes that are to come all
//! at once, each behind those before it. A `Loader` takes the changes of a whole history and makes
//! all lists at once. The crate knows nothing of entries, journals, places or disks.
#![tactic(auto)]

mod index;
mod loader;
mod measure;
mod new_words;
mod newest;
mod numbering;
mod part;
mod prepared;
mod weights;
mod word_tails;

pub use index::Index;
pub use loader::Loader;
pub use new_words::NewWords;
pub use part::ListPart;
pub use prepared::Prepared;
