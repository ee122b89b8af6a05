//! Rows in their order, and the first of them.
ghost use Rattle.std.specs.Prelude.{option_to_list, ◌++◌, OnOk, ◌≡◌, ◌<◌, ◌≤◌, ◌+◌, ◌-◌, ◌∷◌, ◌↔◌, if◌then◌else◌, true, drop, List, [], length, IfOk, IfSome, IsSome, IsTrue};
ghost use Rattle.std.specs.List.{slice_index_or};
ghost use Rattle.query_eval.specs.Answers.{RanksBefore};
ghost use Rattle.query_eval.specs.Firsts.{AreInOrder, AreFirst, IsFront, AreWantedOf};
ghost use Rattle.query_eval.specs.Found.{once};
ghost use Rattle.query_eval.specs.declared.answer.Row.{Row as RowValue};

use crate::answer::{Row, Wanted};
use std::alloc::{AllocError, Global};
use std::cmp::Reverse;

/// Half the number of rows that are sorted at once, at least.
const FEW: usize = 512;

/// Whether the row at a place is the next one too.
fn is_repeated(rows: &[Row], i: usize) -> bool
    requires { i < length rows.now }
    ensures { (d : RowValue) → once (drop i rows.now) ≡ (if result then once (drop (i + 1) rows.now)
        else slice_index_or rows.now i d ∷ once (drop (i + 1) rows.now)) }
{
    if i + 1 == rows.len() {
        return false;
    }
    rows[i] == rows[i + 1]
}

/// The row at a place, if the next one isn't it too.
fn kept(rows: &[Row], i: usize) -> Option<Row>
    requires { i < length rows.now }
    ensures { once (drop i rows.now) ≡ option_to_list result ++ once (drop (i + 1) rows.now) }
{
    if is_repeated(rows, i) {
        None
    } else {
        Some(rows[i])
    }
}

/// Puts a row behind others, if there is one.
pub(crate) fn put(rows: &mut Vec<Row>, row: Option<Row>) -> Result<(), AllocError>
    ensures { OnOk result (rows.new.items ≡ rows.old.items ++ option_to_list row) }
{
    if let Some(row) = row {
        rows.push(row)?;
    }
    Ok(())
}

/// Rows without those that the next one repeats.
fn once(alloc: Global, rows: &[Row]) -> Result<Vec<Row>, AllocError>
    ensures { IfOk result (λ v. v.items ≡ once rows.now) }
{
    let mut all = Vec::new(alloc);
    for i in 0..rows.len() {
        put(&mut all, kept(rows, i))?;
    }
    Ok(all)
}

/// Puts rows into their order, each once. Costs a sort.
fn rank(alloc: Global, rows: &mut Vec<Row>) -> Result<(), AllocError>
    ensures { OnOk result (AreInOrder rows.new.items rows.old.items) }
{
    rows.sort_unstable_by_key(|row| (Reverse(row.score), row.doc));
    *rows = once(alloc, rows)?;
    Ok(())
}

/// Leaves the first rows. Costs a sort of all.
fn shorten(alloc: Global, rows: &mut Vec<Row>, count: usize) -> Result<(), AllocError>
    ensures { OnOk result (AreFirst count rows.old.items rows.new.items) }
{
    rank(alloc, rows)?;
    rows.truncate(count);
    Ok(())
}

/// Of some rows those among which the first so many are.
#[derive(Drop)]
struct Front {
    /// The rows.
    rows: Vec<Row>,
    /// A row up to which there are so many of them.
    last: Option<Row>,
}

/// Whether a row stands before another one.
fn is_before(a: Row, b: Row) -> bool
    ensures { IsTrue result ↔ RanksBefore a b }
{
    a.score > b.score || (a.score == b.score && a.doc < b.doc)
}

/// Whether there is a last row, before which this one doesn't stand.
fn is_passed(last: Option<Row>, row: Row) -> bool
    ensures { result ≡ true → IfSome last (λ x. RanksBefore row x → ⊥) × IsSome last }
{
    match last {
        Some(last) => !is_before(row, last),
        None => false,
    }
}

/// The row that is the last of so many, where there are.
fn last_of(rows: &[Row], count: usize) -> Option<Row>
    ensures { IfSome result (λ r. (0 < count) × (count ≤ length rows.now) × (r ≡ slice_index_or rows.now (count - 1) r)) }
{
    if count == 0 || rows.len() < count {
        return None;
    }
    Some(rows[count - 1])
}

/// Takes one more row in. Constant cost, and a sort whenever there are as many rows as there is room for.
fn take_in(
    alloc: Global,
    front: &mut Front,
    row: Row,
    count: usize,
    room: usize,
) -> Result<(), AllocError>
    ensures { OnOk result ((made : List RowValue) → IsFront count made front.old.rows.items front.old.last
        → IsFront count (made ++ row ∷ []) front.new.rows.items front.new.last) }
{
    if is_passed(front.last, row) {
        return Ok(());
    }
    front.rows.push(row)?;
    if front.rows.len() < room {
        return Ok(());
    }
    shorten(alloc, &mut front.rows, count)?;
    front.last = last_of(&front.rows, count);
    Ok(())
}

/// The first rows. One pass, which keeps at most twice as many as are asked for, or 1,024, and sorts these
/// each time that there are so many; where there are no more at all, a sort of them.
fn first_of(alloc: Global, rows: Vec<Row>, count: usize) -> Result<Vec<Row>, AllocError>
    ensures { IfOk result (λ v. AreFirst count rows.items v.items) }
{
    let room = count.max(FEW).saturating_mul(2);
    if rows.len() <= room {
        let mut rows = rows;
        shorten(alloc, &mut rows, count)?;
        return Ok(rows);
    }
    let mut front = Front {
        rows: Vec::new(alloc),
        last: None,
    };
    for row in &rows {
        take_in(alloc, &mut front, *row, count, room)?;
    }
    let mut first = front.rows;
    shorten(alloc, &mut first, count)?;
    Ok(first)
}

/// The rows that are asked for, in their order, each once. Costs a sort of all, or what `first_of` does.
pub(crate) fn wanted_of(
    alloc: Global,
    rows: Vec<Row>,
    wanted: Wanted,
) -> Result<Vec<Row>, AllocError>
    ensures { IfOk result (λ v. AreWantedOf wanted (λ all. AreInOrder all rows.items) v.items) }
{
    match wanted {
        Wanted::All => {
            let mut rows = rows;
            rank(alloc, &mut rows)?;
            Ok(rows)
        }
        Wanted::First(count) => first_of(alloc, rows, count),
    }
}
