//! What an archive is asked: the first rows of what a query finds, by the tops of blocks.
ghost use Rattle.std.specs.Prelude.{◌≡◌, ◌≤◌, All, map, IfOk};
ghost use Rattle.query_lang.specs.Meaning.{weight, words_of};
ghost use Rattle.model_archive.specs.Bests.{weights_in};
ghost use Rattle.archive_hand.specs.States.{AreInStepBy, Reaches};
ghost use Rattle.archive_hand.specs.Stored.{Store};
ghost use Rattle.archive_hand.specs.Takes.{TakesBy};
ghost use Rattle.archive_questions.specs.After.{AfterFetching};
ghost use Rattle.archive_questions.specs.Bests.{AfterBest, AsksBest, eval_row};
ghost use Rattle.archive_questions.specs.Endings.{best_found};
ghost use Rattle.base_commands.specs.declared.command.Command.TheVariants as commands;
ghost use Rattle.base_commands.specs.declared.command.Item.TheVariants as items;

use crate::error::{AskError, asked};
use crate::holding::held_of_all;
use archive_hand::Archive;
use base_commands::{BestCount, Phrase};
use base_types::Time;
use machine_model::Disk;
use model_archive::Refusal;
use pages_sublists::FetchError;
use query_best::{BestRows, best_rows};
use query_eval::Row;
use query_lang::{Query, asks_for_any};
use std::alloc::{AllocError, Global};

/// The first rows of what a query finds, and how they were found.
#[derive(Drop)]
pub struct BestAnswer {
    /// The rows.
    pub rows: Vec<Row>,
    /// How many postings `find` reads for the query.
    pub read: u64,
    /// How many blocks were opened.
    pub opened: u64,
    /// How many blocks there are in the sublists that hold the time.
    pub blocks: u64,
}

/// The first rows of what a query finds as of a time, for a query that is one word or several joined by
/// `or`. Of a word whose plan has its sublists in blocks, the sublist that holds the time is read with the
/// headers of its blocks, and a block is decoded only where a document in it may stand among the first
/// rows. Nothing is changed but which pages are kept.
///
/// `Refused`: the text is no query, or asks for something else. `Damaged`: a sublist that was read hasn't
/// the digest that the entry of its plan says, or has no headers; or a block that was decoded is none of
/// its segment. `Failed`: the disk failed. Costs the pages that `find` asks for, their digests, a pass
/// over the lists in memory, and what `top_rows` does.
pub fn best<D: Disk>(
    alloc: Global,
    disk: &mut D,
    archive: &mut Archive,
    count: BestCount,
    at: Time,
    expr: &Phrase,
) -> Result<BestAnswer, AskError>
    requires within { Reaches (D.disk disk.old).reach archive.old }
    ensures only { D.Disk.only disk.old disk.new }
    ensures after { AfterBest D.disk_tells result (D.disk disk.old) (D.disk disk.new) archive.old archive.new }
    // In step by what reads give, whatever lies in Pages, it is a step.
    ensures by_reads { D.disk_tells → (s : Store) → AreInStepBy (D.disk disk.old) archive.old s →
        TakesBy s (items.Command (commands.Best count at expr.now)) (best_found result) (D.disk disk.old) (D.disk disk.new) archive.new }
{
    match Query::read(alloc, expr.as_str()) {
        Ok(query) => match asks_for_any(alloc, expr.as_str()) {
            Ok(true) => asked(best_of(alloc, disk, archive, &query, count, at)),
            Ok(false) => Err(AskError::Refused(Refusal::NotDisjunction)),
            Err(_) => Err(AskError::Memory),
        },
        Err(why) => Err(AskError::from(why)),
    }
}

/// The first rows for a query by what is held of its words.
fn best_of<D: Disk>(
    alloc: Global,
    disk: &mut D,
    archive: &mut Archive,
    query: &Query,
    count: BestCount,
    at: Time,
) -> Result<BestAnswer, FetchError>
    requires within { Reaches (D.disk disk.old).reach archive.old }
    requires weights { All (λ w. (1 ≤ weight query.now w) × (weight query.now w ≤ 1000)) (words_of query.now) }
    ensures only { D.Disk.only disk.old disk.new }
    ensures after { AfterFetching D.disk_tells result (D.disk disk.old) (D.disk disk.new) archive.old archive.new }
    ensures found { AsksBest D.disk_tells query.now count.number at.seconds result (D.disk disk.old) (D.disk disk.new) archive.old
        archive.new }
{
    let held = held_of_all(alloc, disk, archive, query.words(), at)?;
    let weights = weights_of(alloc, query)?;
    let found = best_rows(alloc, &weights, at, count.number() as usize, held.words)?;
    let rows = rows_of(alloc, &found)?;
    Ok(BestAnswer {
        rows,
        read: held.read,
        opened: found.opened,
        blocks: found.blocks,
    })
}

/// The weights of a query's words, in order.
fn weights_of(alloc: Global, query: &Query) -> Result<Vec<u32>, AllocError>
    ensures { IfOk result (λ v. v.items ≡ weights_in query.now) }
{
    let mut weights = Vec::new(alloc);
    for k in 0..query.words().len() {
        weights.push(query.weight(k))?;
    }
    Ok(weights)
}

/// The rows that were found, as rows of an answer.
fn rows_of(alloc: Global, found: &BestRows) -> Result<Vec<Row>, AllocError>
    ensures { IfOk result (λ v. v.items ≡ map eval_row found.now.rows.items) }
{
    let mut rows = Vec::new(alloc);
    for row in &found.rows {
        rows.push(Row {
            doc: row.doc,
            score: row.score,
        })?;
    }
    Ok(rows)
}
