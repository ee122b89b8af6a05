//! The history of an archive and the machine that an archive is, as definitions.
//!
//! A history is a list of entries, changes of documents and plans (`specs/Histories.antt`). It is legal
//! where each entry may come after those before it (`specs/Legal.antt`). Of each word the plan stored
//! last is live (`specs/Plans.antt`). An image of a disk stands for a legal history where its journal
//! spells the entries (`specs/Stands.antt`) and its pages hold what the live plans need
//! (`specs/Holding.antt`). An abstract archive, whose state has a history and what was asked (`specs/Worlds.antt`),
//! carries out commands, one step after another (`specs/Steps.antt`), and each reply has a text
//! (`specs/Replies.antt`). What a stopped run has acknowledged, and what the images that it left stand
//! for, is said of any such machine (`specs/Runs.antt`).
#![tactic(auto)]

mod laws;
mod refusal;
mod sharing;
mod stored;
mod summary;
mod verdict;

pub use laws::{
    a_history_is_legal_entry_by_entry, an_archive_is_refused_at_one_place,
    an_image_stands_for_one_history, each_item_has_one_outcome, each_stint_has_an_outcome,
    good_plans_are_least_and_sound, planned_reads_are_bounded, planned_space_is_capped,
    rough_answers_are_near, what_is_made_of_held_pages_stands,
};
pub use refusal::Refusal;
pub use sharing::{Share, Sharing};
pub use stored::StoredPlan;
pub use summary::Summary;
pub use verdict::Verdict;
