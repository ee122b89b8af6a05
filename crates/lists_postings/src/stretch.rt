//! Stretches that are laid one behind the other.
ghost use Rattle.std.specs.Prelude.{◌↔◌, ℕ, Option, IsTrue, OnOk};
ghost use Rattle.lists_postings.specs.Stretches.{Kind};
ghost use Rattle.lists_postings.specs.Laid.{AreLaid, with_row, IsBehind, Continues, IsJoined};

use std::alloc::AllocError;

/// An element of a list that says what is so of a document in a stretch of time.
pub trait Stretch: Sized + Drop {
    /// What it says.
    ghost value: { Type 0 };

    /// Its document, its times and what it says.
    ghost kind: { Kind Self value };

    /// Whether another one goes on where this one ends. Constant cost.
    fn goes_on(&self, next: &Self) -> bool
        ensures { IsTrue result ↔ Continues kind self.now next.now };

    /// This one and another one that goes on where it ends, in one. Constant cost.
    fn joined(&self, next: &Self) -> Self
        requires { Continues kind self.now next.now }
        ensures { IsJoined kind self.now next.now result };
}

/// Puts a stretch behind others, or joins it to the last one where it goes on there. Where there is
/// no memory the list is to be dropped: it may lack its last one. Constant cost on average.
pub fn note<R: Stretch>(rows: &mut Vec<R>, row: R) -> Result<(), AllocError>
    ensures { OnOk result ((f : ℕ → ℕ → Option R.Stretch.value) → AreLaid R.Stretch.kind f rows.old.items
        → IsBehind R.Stretch.kind f row → AreLaid R.Stretch.kind (with_row R.Stretch.kind f row) rows.new.items) }
{
    let Some(last) = rows.pop() else {
        rows.push(row)?;
        return Ok(());
    };
    if last.goes_on(&row) {
        rows.push(last.joined(&row))?;
        return Ok(());
    }
    rows.push(last)?;
    rows.push(row)?;
    Ok(())
}
