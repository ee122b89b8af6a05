//! What holds of spellings whatever is read or written.
ghost use Rattle.std.specs.Prelude.{◌≡◌, ◌≢◌, ℕ, ◌<◌, ◌≤◌, ◌^◌, List, ◌++◌, All, length};
ghost use Rattle.std.specs.List.{concat};
ghost use Rattle.base_types.specs.declared.ids.DocId.{DocId};
ghost use Rattle.base_types.specs.declared.time.Time.{Time};
ghost use Rattle.journal_entries.specs.declared.entry.Entry.{Entry};
ghost use Rattle.journal_entries.specs.declared.entry.Entry.TheVariants.{Arrive, Delete, Planned, Format};
ghost use Rattle.journal_entries.specs.Spelling.{spelling, IsEntry};
ghost use Rattle.journal_entries.specs.Faults.{fields, IsBegunPlan, IsFault};
ghost use Rattle.journal_entries.specs.declared.plan.PlanEntry.{PlanEntry};
ghost use Rattle.journal_entries.specs.PlanSpelling.{plan_spelling, IsPlanEntry};
ghost use Rattle.journal_entries.specs.PlanBytes.{plan_length};

/// Spellings and entries match one to one, and what is no spelling has one fault. Does nothing.
pub fn spelling_laws()
    // Two entries with one spelling are one.
    ensures one_entry { (a b : Entry) → IsEntry a → IsEntry b → spelling a ≡ spelling b → a ≡ b }
    // A spelling is no fault.
    ensures no_fault { (e : Entry) → IsEntry e → (at : ℕ) → ¬ (IsFault (spelling e) at) }
    // Bytes that spell no entry have a fault, which is in them or at their end.
    ensures a_fault { (bytes : List ℕ) → All (λ b. b < 256) bytes → ((e : Entry) → IsEntry e → bytes ≢ spelling e)
        → (at : ℕ) × IsFault bytes at }
    ensures one_fault { (bytes : List ℕ) (a b : ℕ) → IsFault bytes a → IsFault bytes b → a ≡ b }
    ensures in_body { (bytes : List ℕ) (at : ℕ) → IsFault bytes at → at ≤ length bytes }
    // The journal's length of a record holds a spelling's.
    ensures at_least { (e : Entry) → IsEntry e → 3 ≤ length (spelling e) }
    ensures at_most { (e : Entry) → IsEntry e → length (spelling e) < 2 ^ 32 }
{}

/// The fields of an entry are its spelling, up to an arrival's text. Does nothing.
pub fn field_laws()
    ensures arrived { (count : ℕ) (doc : DocId) (at : Time) (text : List ℕ)
        → spelling (Arrive doc at text) ≡ concat (fields count (Arrive doc at text)) ++ text }
    ensures deleted { (count : ℕ) (doc : DocId) (at : Time) → spelling (Delete doc at) ≡ concat (fields count (Delete doc at)) }
    ensures planned { (p : PlanEntry) → spelling (Planned p) ≡ concat (fields (length p.cuts) (Planned p)) }
    ensures marked { (count : ℕ) → spelling Format ≡ concat (fields count Format) }
    // A plan of which no segment is missing is begun.
    ensures begun { (p : PlanEntry) → IsPlanEntry p → IsBegunPlan (length p.cuts) p }
{}

/// How long the spellings of plans are. Does nothing.
pub fn plan_laws()
    ensures len { (p : PlanEntry) → IsPlanEntry p → length (plan_spelling p) ≡ plan_length p }
    ensures at_least { (p : PlanEntry) → IsPlanEntry p → 77 ≤ length (plan_spelling p) }
{}
