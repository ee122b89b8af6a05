//! What a directory and an index have of entries, whatever is read.
ghost use Rattle.std.specs.Prelude.{◌≡◌, ◌+◌, ◌++◌, [], ◌∷◌, ℕ, List, Option, map};
ghost use Rattle.base_types.specs.declared.posting.Posting.{Posting};
ghost use Rattle.base_types.specs.declared.text_place.TextPlace.{TextPlace};
ghost use Rattle.journal_gates.specs.Records.{first_gate, gate_bytes};
ghost use Rattle.journal_gates.specs.Spelled.{Spells};
ghost use Rattle.lists_versions.specs.declared.change.Change.{Change};
ghost use Rattle.lists_versions.specs.Changes.{mapped};
ghost use Rattle.lists_index.specs.Indexing.{ComesLater};
ghost use Rattle.lists_index.specs.Words as index;
ghost use Rattle.journal_entries.specs.declared.entry.Entry.{Entry};
ghost use Rattle.journal_entries.specs.declared.entry.Entry.TheVariants as entries;
ghost use Rattle.journal_entries.specs.declared.plan.PlanEntry.{PlanEntry};
ghost use Rattle.model_archive.specs.Answers.{IsWordList};
ghost use Rattle.model_archive.specs.Histories.{History, changes, end_of, entry_refusal, vocabulary};
ghost use Rattle.model_archive.specs.Legal.{IsLoadable};
ghost use Rattle.model_archive.specs.Plans.{IsNoPlan};
ghost use Rattle.model_archive.specs.Stands.{bodies_of};
ghost use Rattle.archive_entries.specs.Entries.{IsHeld, Makes, text_of};
ghost use Rattle.archive_entries.specs.Places.{text_offset, ArePlaced};
ghost use Rattle.archive_entries.specs.Texts.{bare, text_in};

/// The changes with places are the history's but for what they hold, and in a journal that spells the
/// history's entries each place has its text. With the change of one entry more behind them they are
/// those of the history with that entry; a plan and the mark make none. Does nothing.
pub fn places_follow_entries()
    ensures alike { (gate : ℕ) (h : History) (cs : List (Change TextPlace)) → ArePlaced gate h cs → map bare cs ≡ map bare (changes h) }
    ensures texts { (journal : List ℕ) (h : History) (cs : List (Change TextPlace)) → Spells journal (bodies_of h)
        → ArePlaced first_gate h cs → map (mapped (text_in journal)) cs ≡ changes h }
    ensures change { (h : History) (cs : List (Change TextPlace)) (e : Entry) (x : Change ℕ) (held : Option TextPlace) (gate : ℕ)
        → ArePlaced first_gate h cs → end_of h ≡ gate + 1 → Makes e x → IsHeld (gate + (gate_bytes + text_offset)) x.held held →
        ArePlaced first_gate (h ++ e ∷ []) (cs ++ record { doc = x.doc; at = x.at; held = held } ∷ []) }
    ensures plan { (h : History) (cs : List (Change TextPlace)) (plan : PlanEntry) → ArePlaced first_gate h cs
        → ArePlaced first_gate (h ++ entries.Planned plan ∷ []) cs }
    ensures mark { (h : History) (cs : List (Change TextPlace)) → ArePlaced first_gate h cs
        → ArePlaced first_gate (h ++ entries.Format ∷ []) cs }
{}

/// The changes of a history have its words, and its words' lists. An entry that is not refused behind a
/// history that loads, and makes a change, adds that, which comes later than its document's earlier
/// ones; a plan and the mark add none. Does nothing.
pub fn changes_follow_entries()
    ensures words { (h : History) → vocabulary h ≡ index.words_in (changes h) }
    ensures list { (h : History) (word : List ℕ) (list : List Posting) → index.IsWordList (changes h) word list → IsWordList h word list }
    ensures change { (h : History) (e : Entry) (x : Change ℕ) → IsLoadable h → entry_refusal h e ≡ None → Makes e x →
        IsNoPlan e × (changes (h ++ e ∷ []) ≡ changes h ++ record { doc = x.doc; at = x.at; held = text_of e } ∷ [])
        × ComesLater (changes h) (record { doc = x.doc; at = x.at; held = text_of e }) }
    ensures plan { (h : History) (plan : PlanEntry) → changes (h ++ entries.Planned plan ∷ []) ≡ changes h }
    ensures mark { (h : History) → changes (h ++ entries.Format ∷ []) ≡ changes h }
{}
