//! The bodies of a loaded journal, one after another.
ghost use Rattle.std.specs.Prelude.{◌≡◌, ◌≤◌, ◌++◌, [], ◌∷◌, List, ℕ, length, IfOk, IfSome, IsErrOf, MatchOption};
ghost use Rattle.machine_model.specs.Causes.{Rose};
ghost use Rattle.machine_model.specs.Calls.{OnlyReads};
ghost use Rattle.journal_gates.specs.Records.{first_gate, front};
ghost use Rattle.journal_gates.specs.Heads.{heads_of, AreInRow};
ghost use Rattle.journal_gates.specs.Spelled.{Spells};
ghost use Rattle.journal_gates.specs.Windows.{IsView, Covers};
ghost use Rattle.journal_gates.specs.Bodies.{body_at, IsNext, AreBehind, AreLeft};
ghost use Rattle.journal_gates.specs.declared.head.Head.{Head as PlainHead};

use crate::window::Window;
use crate::{Head, Journal, JournalError};
use machine_model::Disk;
use std::alloc::Global;
use std::marker::Model;

/// The bodies of a loaded journal that are left, in order, read in pieces of 64 KiB or a whole body.
#[derive(Drop)]
pub struct Bodies<'a> {
    left: &'a [Head],
    window: Window,
}

impl<'a> Model for Bodies<'a> {
    ghost use Rattle.std.specs.Prelude.{All};
    ghost use Rattle.journal_gates.specs.Heads.{LiesBefore};
    ghost use Rattle.journal_gates.specs.Bodies.{BodiesState};

    ghost Value = { BodiesState };

    ghost view = { λ b. record { left = b.left.now; window = b.window } };

    ghost invariant = { λ b. All (LiesBefore b.window.end) b.left.now };
}

impl Journal {
    /// No bytes of the journal in hand yet, of which any may be read. Costs nothing.
    pub fn window(&self, alloc: Global) -> Window
        ensures end { result.end ≡ self.now.end }
        ensures view { (journal : List ℕ) → IsView result journal }
    {
        Window::new(alloc, self.end())
    }

    /// All bodies, by the heads that a load answered. Costs nothing.
    pub fn bodies<'a>(&self, alloc: Global, heads: &'a [Head]) -> Bodies<'a>
        requires row { AreInRow first_gate heads.now self.now.end }
        ensures end { result.window.end ≡ self.now.end }
        ensures behind { AreBehind heads.now [] result }
        ensures left { (journal : List ℕ) (bodies : List (List ℕ)) → Spells journal bodies → heads.now ≡ heads_of first_gate bodies
            → AreLeft journal result bodies }
    {
        Bodies {
            left: heads,
            window: self.window(alloc),
        }
    }
}

impl<'a> Bodies<'a> {
    /// Takes the next body into hand, and answers its head; None where none is left.
    ///
    /// `Failed`: the disk failed. `Memory`: there was none for a body longer than those before it.
    /// Costs a read where the body isn't in hand, and memory of 64 KiB or of the longest body.
    pub fn next<D: Disk>(&mut self, disk: &mut D) -> Result<Option<Head>, JournalError>
        requires reached { self.old.window.end ≤ (D.disk disk.old).reach.journal }
        ensures only { D.Disk.only disk.old disk.new }
        ensures same { OnlyReads (D.disk disk.old) (D.disk disk.new) }
        ensures unread { D.disk_tells → (D.disk disk.new).bytes_read.pages ≡ (D.disk disk.old).bytes_read.pages }
        ensures failed { IsErrOf result JournalError.Failed → Rose (D.disk disk.old).faults (D.disk disk.new).faults }
        ensures fair { (at : ℕ) → IsErrOf result (JournalError.NotJournal at) → ⊥ }
        ensures end { self.new.window.end ≡ self.old.window.end }
        ensures next { IfOk result (λ o. MatchOption o (self.old.left ≡ []) (IsNext self.old self.new)) }
        // It gives the heads of a row one after another,
        ensures behind { (heads : List PlainHead) (bodies : List (List ℕ)) → AreBehind heads bodies self.old →
            IfOk result (λ o. IfSome o (λ head. (head.gate ≡ length (front bodies))
            × AreBehind heads (bodies ++ body_at self.new head ∷ []) self.new)) }
        // and the bodies of the journal.
        ensures left { D.disk_tells → (bodies : List (List ℕ)) → AreLeft (D.disk disk.old).holds.journal self.old bodies →
            IfOk result (λ o. MatchOption o (bodies ≡ []) (λ head. (rest : List (List ℕ)) × (bodies ≡ body_at self.new head ∷ rest)
            × AreLeft (D.disk disk.old).holds.journal self.new rest)) }
    {
        let Some((head, behind)) = self.left.split_first() else {
            return Ok(None);
        };
        self.window.cover(disk, head.body, head.bytes)?;
        self.left = behind;
        Ok(Some(*head))
    }

    /// The body in hand, by its head. Costs nothing.
    pub fn body(&self, head: &Head) -> &[u8]
        requires { Covers self.now.window head.now.body head.now.bytes }
        ensures body { result.now ≡ body_at self.now head.now }
        ensures len { length result.now ≡ head.now.bytes }
    {
        self.window.piece(head.body, head.bytes)
    }
}
