//! What holds of histories and of the bytes that stand for them, whatever is read or written.
ghost use Rattle.std.specs.Prelude.{◌≡◌, ◌+◌, ◌<◌, ◌++◌, true, [], ◌∷◌, ℕ, length};
ghost use Rattle.machine_model.specs.Areas.{Bytes};
ghost use Rattle.journal_gates.specs.Records.{front};
ghost use Rattle.journal_entries.specs.declared.entry.Entry.{Entry};
ghost use Rattle.model_archive.specs.Histories.{History, end_of};
ghost use Rattle.model_archive.specs.Legal.{IsFair, IsLegal, IsLegalEntry, IsLoadable};
ghost use Rattle.base_commands.specs.Documents.{HasDocument};
ghost use Rattle.base_commands.specs.declared.command.Item.{Item};
ghost use Rattle.model_archive.specs.Choices.{IsChoice, IsSharing, IsStoring, SameButChosen, SamePlanned};
ghost use Rattle.model_archive.specs.declared.summary.Summary.{Summary};
ghost use Rattle.model_archive.specs.Steps.{Reply, Planned, Silent, Step, Works, left_of};
ghost use Rattle.model_archive.specs.Runs.{Outcome};
ghost use Rattle.model_archive.specs.Stands.{Stands, IsNotArchive, bodies_of};
ghost use Rattle.model_archive.specs.Nearness.{NearByFrequencies, RoughIsNear, MadeRoughStands};
ghost use Rattle.model_archive.specs.Worlds.{World, at_work};
ghost use Rattle.model_archive.specs.Bounds.{HoldersAreDocuments, PlannedReadsAreBounded, PlannedSpaceIsCapped, MadeAtStands, MadeOverStands, HeldIsUndamaged, UnplannedHitsAreAlive, CertifiedPlansAreLeast, GoodPlansAreSound};

/// A history is legal exactly where each of its entries is legal after those before it, and a load
/// accepts each legal history. A history's journal ends with one byte behind its records, the closed
/// gate. Does nothing.
pub fn a_history_is_legal_entry_by_entry()
    ensures more { (h : History) (e : Entry) → IsLegal h → IsLegalEntry h e → IsLegal (h ++ e ∷ []) }
    ensures middle { (h : History) (e : Entry) (rest : History) → IsLegal (h ++ e ∷ rest) → IsLegal h × IsLegalEntry h e }
    ensures loads { (h : History) → IsLegal h → IsLoadable h }
    ensures end { (h : History) → end_of h ≡ length (front (bodies_of h)) + 1 }
{}

/// The abstract archive never gets stuck, and chooses nothing but which least plan it proposes, which
/// least or best plan it stores, at once or step by step, how many blocks it opens, and which best choice
/// it tells of words that share a budget. From a history that loads each item has an outcome. It is the
/// only one where neither a plan nor a share nor rows by blocks are asked for; two outcomes that propose a
/// plan differ in its segments alone, and two with first rows by blocks in how many were opened; and where
/// two outcomes of one item each store a plan, their replies are the same but for the number of segments
/// and, under a space bound, the space. (By its choice the one may find room in Pages where the other
/// is refused.) Where the item's document is in range, an outcome leads from a history that loads to one
/// that loads, and from a legal one to a legal one, behind which a plan that is being written could be
/// stored still. Does nothing.
pub fn each_item_has_one_outcome()
    ensures outcome { (w : World) (item : Item) → IsLoadable w.history
        → (outcome : Outcome Reply World) × Step w item outcome.reply outcome.next }
    ensures one { (w : World) (item : Item) (reply other : Reply) (next then : World) → (IsChoice item → ⊥) → Step w item reply next
        → Step w item other then → (reply ≡ other) × (next ≡ then) }
    ensures but_chosen { (w : World) (item : Item) (reply other : Reply) (next then : World) → (IsStoring item → ⊥)
        → (IsSharing item → ⊥) → Step w item reply next → Step w item other then → SameButChosen reply other × (next ≡ then) }
    ensures plans { (w : World) (item : Item) (one other : Summary) (next then : World) → Step w item (Planned one) next
        → Step w item (Planned other) then → SamePlanned one other }
    ensures loads { (w : World) (item : Item) (reply : Reply) (next : World) → IsFair IsLoadable w → HasDocument item
        → Step w item reply next → IsFair IsLoadable next }
    ensures legal { (w : World) (item : Item) (reply : Reply) (next : World) → IsFair IsLegal w → HasDocument item → Step w item reply next
        → IsFair IsLegal next }
{}

/// While a plan is being written, each stint of the work on it has an outcome, which leaves less to do. An
/// outcome leads from a history that loads to one that loads, and from a legal one to a legal one; and one
/// that says nothing keeps the history. Does nothing.
pub fn each_stint_has_an_outcome()
    ensures outcome { (w : World) → IsFair IsLoadable w → at_work w ≡ true → (reply : Reply)
        × ((next : World) × Works w reply next × IsFair IsLoadable next × (left_of next.job < left_of w.job)) }
    ensures loads { (w next : World) (reply : Reply) → IsFair IsLoadable w → Works w reply next → IsFair IsLoadable next }
    ensures legal { (w next : World) (reply : Reply) → IsFair IsLegal w → Works w reply next → IsFair IsLegal next }
    ensures silent { (w next : World) → Works w Silent next → next.history ≡ w.history }
{}

/// An image stands for one history at most, and one that stands for a history isn't refused at any
/// place. Does nothing.
pub fn an_image_stands_for_one_history()
    ensures one_history { (image : Bytes) (one other : History) → Stands one image → Stands other image → one ≡ other }
    ensures not_refused { (image : Bytes) (h : History) (at : ℕ) → Stands h image → IsNotArchive image at → ⊥ }
{}

/// Bytes that are refused as no archive's are refused at one place. Does nothing.
pub fn an_archive_is_refused_at_one_place()
    ensures one_place { (image : Bytes) (one other : ℕ) → IsNotArchive image one → IsNotArchive image other → one ≡ other }
{}

/// A question for a word whose plan keeps to a guarantee, for a time from the plan's first cut on and
/// before its horizon, reads at most the plan's factor times as many postings as hold the time; and as
/// many hold it as documents have the word in their text alive then. Does nothing.
pub fn planned_reads_are_bounded()
    ensures postings { PlannedReadsAreBounded }
    ensures documents { HoldersAreDocuments }
{}

/// A plan under a space bound takes at most its factor times as many postings as the word's list up to
/// its horizon, rounded down. Does nothing.
pub fn planned_space_is_capped()
    ensures { PlannedSpaceIsCapped }
{}

/// Where each plan is what its kind promises, as in each history that the machine leads to from none, what
/// is certified of a stored plan is that it is least, and a check tells that all is sound. Does nothing.
pub fn good_plans_are_least_and_sound()
    ensures certified { CertifiedPlansAreLeast }
    ensures sound { GoodPlansAreSound }
{}

/// In pages that hold the live plans nothing is damaged, and what is made from them is the answer
/// that the history gives, at its cost. What is told of words without plans, whatever the pages hold,
/// is told of documents that are alive. Does nothing.
pub fn what_is_made_of_held_pages_stands()
    ensures at { MadeAtStands }
    ensures over { MadeOverStands }
    ensures undamaged { HeldIsUndamaged }
    ensures alive { UnplannedHitsAreAlive }
{}

/// A rough answer has exactly the documents of the exact one, and each score is near the true one: they
/// differ by at most the tolerance's part of the true one. What is made approximately from pages that hold
/// the live plans is such an answer, and costs what it should. Does nothing.
pub fn rough_answers_are_near()
    ensures near { RoughIsNear }
    ensures frequencies { NearByFrequencies }
    ensures made { MadeRoughStands }
{}
