//! What is held of words for the first rows of a query at a time.
ghost use Rattle.std.specs.Prelude.{◌≡◌, ◌+◌, List, Some, None, get_or, length, sum_by, IfOk, IfSome};
ghost use Rattle.archive_questions.specs.After.{AfterFetching};
ghost use Rattle.archive_questions.specs.Bests.{AreBlocksAt, HoldsFor, HoldsOne};
ghost use Rattle.base_types.specs.declared.posting.Posting.{Posting as PlainPosting};
ghost use Rattle.lists_postings.specs.Lists.{rows_at};
ghost use Rattle.journal_entries.specs.declared.place.Layout.TheVariants.{Blocks, Flat};
ghost use Rattle.journal_entries.specs.declared.plan.PlanEntry.{PlanEntry as PlainPlan};
ghost use Rattle.query_best.specs.Held.{heads_in};
ghost use Rattle.model_archive.specs.Chosen.{IsTailFor};
ghost use Rattle.model_archive.specs.Histories.{History};
ghost use Rattle.model_archive.specs.Plans.{plan_of};
ghost use Rattle.model_archive.specs.declared.stored.StoredPlan.{StoredPlan as PlainStored};
ghost use Rattle.archive_entries.specs.Live.{IsPlanAt};
ghost use Rattle.archive_hand.specs.States.{Reaches, StandsFor};

use crate::choosing::{moment, part_of, tail_of};
use archive_hand::Archive;
use archive_plans::SegmentFrames;
use base_types::{Key, Time};
use journal_entries::Layout;
use lists_postings::as_of;
use machine_model::Disk;
use pages_codec::BlockHead;
use pages_sublists::FetchError;
use query_best::{HeldBlocks, HeldWord};
use std::alloc::{AllocError, Global};

/// What is held of some words, and how many postings `find` reads for them.
#[derive(Drop)]
pub(crate) struct Held {
    pub(crate) words: Vec<HeldWord>,
    pub(crate) read: u64,
}

/// What is held of one word, and how many postings `find` reads for it.
#[derive(Drop)]
struct HeldOne {
    word: HeldWord,
    read: u64,
}

/// What there is of some words at a time, in order: of a word whose plan has its sublists in blocks the
/// blocks of the one that holds the time, by their headers, or from the horizon on its list in memory;
/// of another word its postings that hold the time. Costs what is read, and a pass over it.
pub(crate) fn held_of_all<D: Disk>(
    alloc: Global,
    disk: &mut D,
    archive: &mut Archive,
    words: &[Key],
    t: Time,
) -> Result<Held, FetchError>
    requires within { Reaches (D.disk disk.old).reach archive.old }
    ensures only { D.Disk.only disk.old disk.new }
    ensures after { AfterFetching D.disk_tells result (D.disk disk.old) (D.disk disk.new) archive.old archive.new }
    ensures many { IfOk result (λ held. length held.words.items ≡ length words.now) }
    ensures fetched { HoldsFor D.disk_tells t.seconds words.now result (D.disk disk.old) (D.disk disk.new) archive.old archive.new }
{
    let mut held = Vec::new(alloc);
    let mut read: u64 = 0;
    for word in words {
        let one = held_of(alloc, disk, archive, word, t)?;
        let Some(more) = read.checked_add(one.read) else {
            return Err(FetchError::Memory);
        };
        read = more;
        match held.push(one.word) {
            Ok(()) => {}
            Err(_) => return Err(FetchError::Memory),
        }
    }
    Ok(Held { words: held, read })
}

/// What there is of a word at a time.
fn held_of<D: Disk>(
    alloc: Global,
    disk: &mut D,
    archive: &mut Archive,
    word: &Key,
    t: Time,
) -> Result<HeldOne, FetchError>
    requires within { Reaches (D.disk disk.old).reach archive.old }
    ensures only { D.Disk.only disk.old disk.new }
    ensures after { AfterFetching D.disk_tells result (D.disk disk.old) (D.disk disk.new) archive.old archive.new }
    ensures fetched { HoldsOne D.disk_tells t.seconds word.now result (D.disk disk.old) (D.disk disk.new) archive.old archive.new }
{
    match blocks_of(archive, word) {
        Some(place) => held_in_blocks(alloc, disk, archive, word, place, t),
        None => held_at_hand(alloc, disk, archive, word, t),
    }
}

/// Where the plan of a word stands, if its sublists are in blocks. Costs a look-up.
fn blocks_of(archive: &Archive, word: &Key) -> Option<usize>
    ensures some { IfSome result (λ at. IsPlanAt archive.now.shelf.plans word.now at
        × ((s : PlainStored) → s ≡ get_or archive.now.shelf.plans at s → s.plan.layout ≡ Blocks)) }
    ensures none { result ≡ None → (h : History) → StandsFor archive.now h → (plan : PlainPlan) → plan_of h word.now ≡ Some plan
        → plan.layout ≡ Flat }
{
    let place = archive.shelf().position(word)?;
    let layout = archive.shelf().plans()[place].plan.layout;
    match layout {
        Layout::Blocks => Some(place),
        Layout::Flat => None,
    }
}

/// What there is of a word at a time that has no plan, or one whose sublists are flat.
fn held_at_hand<D: Disk>(
    alloc: Global,
    disk: &mut D,
    archive: &mut Archive,
    word: &Key,
    t: Time,
) -> Result<HeldOne, FetchError>
    requires within { Reaches (D.disk disk.old).reach archive.old }
    requires flat { (h : History) → StandsFor archive.old h → (plan : PlainPlan) → plan_of h word.now ≡ Some plan → plan.layout ≡ Flat }
    ensures only { D.Disk.only disk.old disk.new }
    ensures after { AfterFetching D.disk_tells result (D.disk disk.old) (D.disk disk.new) archive.old archive.new }
    ensures fetched { HoldsOne D.disk_tells t.seconds word.now result (D.disk disk.old) (D.disk disk.new) archive.old archive.new }
{
    let part = part_of(alloc, disk, archive, word, moment(t))?;
    match as_of(alloc, &part.list, t) {
        Ok(flat) => Ok(HeldOne {
            word: HeldWord { blocks: None, flat },
            read: part.read,
        }),
        Err(_) => Err(FetchError::Memory),
    }
}

/// What there is of a word at a time whose plan has its sublists in blocks.
fn held_in_blocks<D: Disk>(
    alloc: Global,
    disk: &mut D,
    archive: &mut Archive,
    word: &Key,
    place: usize,
    t: Time,
) -> Result<HeldOne, FetchError>
    requires within { Reaches (D.disk disk.old).reach archive.old }
    requires planned { IsPlanAt archive.old.shelf.plans word.now place }
    requires blocks { (s : PlainStored) → s ≡ get_or archive.old.shelf.plans place s → s.plan.layout ≡ Blocks }
    ensures only { D.Disk.only disk.old disk.new }
    ensures after { AfterFetching D.disk_tells result (D.disk disk.old) (D.disk disk.new) archive.old archive.new }
    ensures fetched { HoldsOne D.disk_tells t.seconds word.now result (D.disk disk.old) (D.disk disk.new) archive.old archive.new }
{
    let horizon = archive.shelf().plans()[place].plan.horizon;
    let stored = archive.frames_at(alloc, disk, place, t)?;
    match with_tail(alloc, archive, word, horizon, t, stored) {
        Ok(held) => Ok(held),
        Err(_) => Err(FetchError::Memory),
    }
}

/// What there is of a word at a time, by the headers that were read of the segment that has it, if there is
/// one, and the list in memory from the horizon on.
fn with_tail(
    alloc: Global,
    archive: &Archive,
    word: &Key,
    horizon: Time,
    t: Time,
    stored: Option<SegmentFrames>,
) -> Result<HeldOne, AllocError>
    ensures { IfOk result (λ x. (tail : List PlainPosting)
        × ((h : History) → StandsFor archive.now h → IsTailFor h word.now (t.seconds + 1) horizon.seconds tail)
        × AreBlocksAt horizon.seconds stored x.word.blocks × (x.word.flat.items ≡ rows_at t.seconds tail)
        × (x.read ≡ sum_by (λ h. h.count) (heads_in x.word.blocks) + length tail)) }
{
    let tail = tail_of(alloc, archive, word, horizon, moment(t))?;
    let flat = as_of(alloc, &tail, t)?;
    let blocks = blocks_in(stored, horizon);
    let read = postings_of(&blocks, tail.len() as u64)?;
    Ok(HeldOne {
        word: HeldWord { blocks, flat },
        read,
    })
}

/// The blocks of a segment, if there is one.
fn blocks_in(stored: Option<SegmentFrames>, horizon: Time) -> Option<HeldBlocks>
    ensures { AreBlocksAt horizon.seconds stored result }
{
    match stored {
        Some(SegmentFrames { frames, page, span }) => Some(HeldBlocks {
            frames,
            page,
            span,
            horizon,
        }),
        None => None,
    }
}

/// How many postings some blocks have by their headers, and so many more. Costs the number of blocks.
fn postings_of(blocks: &Option<HeldBlocks>, more: u64) -> Result<u64, AllocError>
    ensures { IfOk result (λ n. n ≡ sum_by (λ h. h.count) (heads_in blocks.now) + more) }
{
    match blocks {
        Some(held) => counted(held.frames.heads(), more),
        None => Ok(more),
    }
}

/// How many postings some headers say, and so many more.
fn counted(heads: &[BlockHead], more: u64) -> Result<u64, AllocError>
    ensures { IfOk result (λ n. n ≡ sum_by (λ h. h.count) heads.now + more) }
{
    let mut postings = more;
    for head in heads {
        let Some(sum) = postings.checked_add(u64::from(head.count)) else {
            return Err(AllocError);
        };
        postings = sum;
    }
    Ok(postings)
}
