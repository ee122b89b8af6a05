//! The rows with the highest scores.
ghost use Rattle.std.specs.Prelude.{◌≡◌, ◌⊎◌, ◌+◌, ◌<◌, ◌≤◌, ℕ, true, false, length, take, drop, OnOk};
ghost use Rattle.query_top.specs.Firsts.{Each, AreRanked, AreFirst, below, shows, MakesRoom};

use base_types::DocId;
use std::alloc::AllocError;

/// A document and its score.
#[derive(Clone, Copy, Debug, PartialEq, Eq)]
pub struct Row {
    /// The document.
    pub doc: DocId,
    /// Its score.
    pub score: u64,
}

/// How many rows have at least this score, where they are in order: the place of a row of it behind
/// them. Costs the rows behind the place.
fn place_of(rows: &[Row], score: u64) -> usize
    ensures within { result ≤ length rows.now }
    ensures low { Each (λ r. r.score < score) (drop result rows.now) }
    ensures high { AreRanked rows.now → Each (λ r. score ≤ r.score) (take result rows.now) }
{
    let mut place = rows.len();
    while place > 0 {
        if rows[place - 1].score >= score {
            return place;
        }
        place -= 1;
    }
    0
}

/// Whether a row of this score has room among so many, or stands before the last one, which then goes.
fn makes_room(rows: &mut Vec<Row>, count: usize, score: u64) -> bool
    requires some { 1 ≤ count }
    requires few { length rows.old.items ≤ count }
    ensures yes { result ≡ true → MakesRoom count score rows.old.items rows.new.items }
    ensures no { result ≡ false → (rows.new.items ≡ rows.old.items) × (length rows.old.items ≡ count)
        × (AreRanked rows.old.items → Each (λ r. score ≤ r.score) rows.old.items) }
{
    if rows.len() < count {
        return true;
    }
    if score <= rows[count - 1].score {
        return false;
    }
    let _ = rows.pop();
    true
}

/// Puts a document among the first rows of those before it, where it is one. Constant cost where it is
/// none, otherwise at most the number of rows.
pub(crate) fn offer(
    rows: &mut Vec<Row>,
    count: usize,
    doc: u32,
    score: u64,
) -> Result<(), AllocError>
    requires some { 1 ≤ count }
    requires few { length rows.old.items ≤ count }
    ensures few { OnOk result (length rows.new.items ≤ count) }
    ensures first { (of : ℕ → ℕ) → of doc ≡ score → AreFirst (below doc of) count rows.old.items
        → OnOk result (AreFirst (below (doc + 1) of) count rows.new.items) }
    ensures shown { OnOk result ((x : ℕ) → shows rows.new.items x ≡ true → (shows rows.old.items x ≡ true) ⊎ (x ≡ doc)) }
{
    if score == 0 {
        return Ok(());
    }
    if !makes_room(rows, count, score) {
        return Ok(());
    }
    let place = place_of(rows, score);
    let doc = DocId(doc);
    rows.insert(place, Row { doc, score })?;
    Ok(())
}
