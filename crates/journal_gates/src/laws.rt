//! Laws of what bytes spell, and of disks in step.
ghost use Rattle.std.specs.Prelude.{◌≡◌, ◌+◌, ◌++◌, [], ◌∷◌, List, ℕ, length};
ghost use Rattle.machine_model.specs.Areas.{Bytes};
ghost use Rattle.machine_model.specs.States.{DiskState};
ghost use Rattle.machine_model.specs.Images.{MayLeave};
ghost use Rattle.journal_gates.specs.Records.{first_gate, gate_bytes, front};
ghost use Rattle.journal_gates.specs.Heads.{heads_of, AreBodies};
ghost use Rattle.journal_gates.specs.Spelled.{Spells, EachSpells};
ghost use Rattle.journal_gates.specs.Refused.{IsNotJournal};
ghost use Rattle.journal_gates.specs.InStep.{IsInStep};

/// A law of the definitions: bytes spell one list of bodies at most, and a disk in step spells its own.
pub fn a_journal_spells_one_list()
    ensures one_list { (bytes : List ℕ) (one other : List (List ℕ)) → Spells bytes one → Spells bytes other → one ≡ other }
    ensures in_step { (d : DiskState) (end : ℕ) (bodies : List (List ℕ)) → IsInStep d end bodies → EachSpells d bodies }
{}

/// A law of the definitions: bytes are refused at one place at most, and none that spell bodies are.
pub fn a_journal_is_refused_at_one_place()
    ensures one_place { (bytes : List ℕ) (one other : ℕ) → IsNotJournal bytes one → IsNotJournal bytes other → one ≡ other }
    ensures not_spelled { (bytes : List ℕ) (bodies : List (List ℕ)) (at : ℕ) → Spells bytes bodies → IsNotJournal bytes at → ⊥ }
{}

/// A law of the definitions: what leaves each image the journal of one that was allowed keeps a disk
/// in step, as writes to the pages do.
pub fn a_disk_stays_in_step()
    ensures { (old new : DiskState) (end : ℕ) (bodies : List (List ℕ)) → IsInStep old end bodies →
        ((image : Bytes) → MayLeave new.now image → (was : Bytes) × MayLeave old.now was × (image.journal ≡ was.journal)) →
        IsInStep new end bodies }
{}

/// A law of the definitions: in bytes that spell bodies the heads lead to them, so that a read of the bytes
/// that a head names gives its body; and a body more has its head behind the others.
pub fn heads_lead_to_bodies()
    ensures bodies { (bytes : List ℕ) (bodies : List (List ℕ)) → Spells bytes bodies → AreBodies bytes (heads_of first_gate bodies) bodies }
    ensures more { (bodies : List (List ℕ)) (body : List ℕ) → let gate = length (front bodies) in
        heads_of first_gate (bodies ++ body ∷ []) ≡ heads_of first_gate bodies ++ record {
          gate = gate;
          body = gate + gate_bytes;
          bytes = length body;
        } ∷ [] }
{}
