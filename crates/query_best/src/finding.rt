//! The first rows.
ghost use Rattle.std.specs.Prelude.{◌≡◌, ◌≤◌, List, length, All, sum_by, IfOk, IfErr};
ghost use Rattle.std.specs.List.{AllZip};
ghost use Rattle.pages_sublists.specs.Fetching.{IfDamaged, IfFailed};
ghost use Rattle.query_top.specs.Firsts.{Each};
ghost use Rattle.query_top.specs.Sheets.{IsSheet, Sheet};
ghost use Rattle.query_best.specs.Held.{heads_in, AreFound, IsBadOf, IsHeldAs};

use crate::held::HeldWord;
use crate::shelf::{Shelf, blocks_of};
use base_types::Time;
use pages_sublists::FetchError;
use query_top::{Row, TopError, top_rows};
use std::alloc::Global;

/// First rows, and what was opened for them.
#[derive(Drop)]
pub struct BestRows {
    /// The rows.
    pub rows: Vec<Row>,
    /// How many blocks were opened.
    pub opened: u64,
    /// How many blocks there are.
    pub blocks: u64,
}

/// The first rows by score of the documents that have one of these words, each with its weight.
///
/// `Damaged`: a block that was opened spells no list, or one that doesn't belong to its segment. Never
/// `Failed`. Costs what `top_rows` does, and the bytes of the blocks that are opened.
pub fn best_rows(
    alloc: Global,
    weights: &[u32],
    at: Time,
    count: usize,
    words: Vec<HeldWord>,
) -> Result<BestRows, FetchError>
    requires many { length weights.now ≡ length words.items }
    requires few { length weights.now ≤ 4096 }
    requires weights { All (λ w. (1 ≤ w) × (w ≤ 1000)) weights.now }
    requires count { 1 ≤ count }
    ensures blocks { IfOk result (λ b. b.blocks ≡ sum_by (λ w. length (heads_in w.blocks)) words.items) }
    // Where the headers are those of lists that are held: they are the first rows, and so many blocks were opened for them.
    ensures found { (sheets : List Sheet) → AllZip IsHeldAs words.items sheets → Each (IsSheet at.seconds) sheets
        → IfOk result (λ b. AreFound at.seconds weights.now sheets count b.rows.items b.opened) }
    ensures failed { IfErr result (IfFailed ⊥) }
    ensures damaged { IfErr result (IfDamaged (IsBadOf words.items)) }
{
    let blocks = match blocks_of(&words) {
        Ok(blocks) => blocks,
        Err(_) => return Err(FetchError::Memory),
    };
    let mut shelf = Shelf {
        alloc,
        words,
        opened: 0,
    };
    match top_rows(alloc, weights, at, count, &mut shelf) {
        Ok(rows) => Ok(BestRows {
            rows,
            opened: shelf.opened,
            blocks,
        }),
        Err(TopError::Blocks(error)) => Err(error),
        Err(TopError::Memory) => Err(FetchError::Memory),
    }
}
