//! Blocks of postings: the search for a document's block, and room in it.
ghost use Rattle.std.specs.Prelude.{◌≡◌, ◌≢◌, ◌⊎◌, ℕ, OnOk, ◌+◌, ◌<◌, ◌≤◌, ◌++◌, true, length, take, drop, get_or, vec_len, vec_capacity, Vec};
ghost use Rattle.std.specs.List.{insert};
ghost use Rattle.std.specs.declared.alloc.Global.{Global as Heap};
ghost use Rattle.lists_postings.specs.Lists.{IsList};
ghost use Rattle.base_types.specs.declared.posting.Posting.{Posting as Row};
ghost use Rattle.lists_tails.specs.Blocks.{joined, AreFilled, starts_up_to, IsBlockOf, IsDivided, IsAdded, spare_room};

use base_types::{DocId, Posting};
use std::alloc::AllocError;
use std::mem::{replace, swap};

/// How many postings a block has room for, where there is more than one block.
pub(crate) const BLOCK: usize = 512;

/// How many postings a full block gives to a new one; the last block gives one, where the next
/// posting comes behind it, so that a list that is appended to has full blocks.
const MOVED: usize = 256;

/// Whether the list's first posting is of a document up to this one.
fn starts(list: &[Posting], doc: DocId) -> bool
    ensures { result ≡ starts_up_to doc.0 list.now }
{
    match list.first() {
        Some(p) => p.doc <= doc,
        None => true,
    }
}

/// How many blocks begin with documents up to this one. By the logarithm of their number.
pub(crate) fn count_started(later: &[Vec<Posting>], doc: DocId) -> usize
    ensures inside { result ≤ length later.now }
    ensures placed { AreFilled later.now → IsList (joined later.now) → IsBlockOf doc.0 later.now result }
{
    later.partition_point(|b| starts(b.as_slice(), doc))
}

/// Lets a small block move into a spare one.
fn grow(block: &mut Vec<Posting>, spare: &mut Vec<Posting>)
    requires small { vec_len block.old < 512 }
    requires room { 512 ≤ vec_capacity spare.old }
    ensures same { block.new.items ≡ block.old.items }
    ensures roomy { vec_len block.new < vec_capacity block.new }
{
    spare.clear();
    spare.extend_from_slice(block.as_slice()).ok();
    swap(block, spare);
}

/// Moves the block's postings from that place on into a spare one, which is handed out.
fn cut(block: &mut Vec<Posting>, spare: &mut Vec<Posting>, place: usize) -> Vec<Posting>
    requires inside { place < vec_len block.old }
    requires few { vec_len block.old ≤ place + 256 }
    requires room { 512 ≤ vec_capacity spare.old }
    ensures kept { block.new.items ≡ take place block.old.items }
    ensures moved { result.items ≡ drop place block.old.items }
    ensures left { length block.new.items ≡ place }
    ensures filled { 0 < length result.items }
    ensures roomy { vec_len block.new < vec_capacity block.new }
    ensures roomy_too { vec_len result < vec_capacity result }
{
    let alloc = *spare.allocator();
    spare.clear();
    spare.extend_from_slice(&block[place..]).ok();
    block.truncate(place);
    replace(spare, Vec::new(alloc))
}

/// Puts the block at that place, for which there is room.
fn put_block(later: &mut Vec<Vec<Posting>>, place: usize, block: Vec<Posting>)
    requires inside { place ≤ vec_len later.old }
    requires room { vec_len later.old < vec_capacity later.old }
    ensures items { later.new.items ≡ insert later.old.items place block }
    ensures len { vec_len later.new ≡ vec_len later.old + 1 }
    ensures capacity { vec_capacity later.new ≡ vec_capacity later.old }
{
    later.insert(place, block).ok();
}

/// How many postings a full block gives away for a posting of that document; `behind` are the
/// blocks behind it.
fn count_moved(block: &[Posting], behind: &[Vec<Posting>], doc: DocId) -> usize
    ensures some { 1 ≤ result }
    ensures few { result ≤ 256 }
{
    match block.last() {
        Some(p) if p.doc <= doc && behind.is_empty() => 1,
        _ => MOVED,
    }
}

/// Divides the first block, which is full.
fn divide_first(
    first: &mut Vec<Posting>,
    later: &mut Vec<Vec<Posting>>,
    spare: &mut Vec<Posting>,
    moved: usize,
)
    requires long { 512 ≤ vec_len first.old }
    requires some { 1 ≤ moved }
    requires few { moved ≤ 256 }
    requires block { 512 ≤ vec_capacity spare.old }
    requires place { vec_len later.old < vec_capacity later.old }
    ensures same { first.new.items ++ joined later.new.items ≡ first.old.items ++ joined later.old.items }
    ensures added { IsAdded later.old.items later.new.items }
    ensures roomy { vec_len first.new < vec_capacity first.new }
{
    let place = first.len() - moved;
    let block = cut(first, spare, place);
    put_block(later, 0, block);
}

/// Divides a later block, which is full.
fn divide(later: &mut Vec<Vec<Posting>>, place: usize, spare: &mut Vec<Posting>, moved: usize)
    requires inside { place < vec_len later.old }
    requires long { (d : Vec Row Heap) → 512 ≤ vec_len (get_or later.old.items place d) }
    requires some { 1 ≤ moved }
    requires few { moved ≤ 256 }
    requires block { 512 ≤ vec_capacity spare.old }
    requires place { vec_len later.old < vec_capacity later.old }
    ensures divided { IsDivided later.old.items later.new.items place }
{
    let at = later[place].len() - moved;
    let block = cut(&mut later[place], spare, at);
    put_block(later, place + 1, block);
}

/// A block for a turn of the document that begins with the first one's postings: 0 where that is
/// the first block, and has room then, and otherwise one more than its place among the later ones.
pub(crate) fn roomy_first(
    first: &mut Vec<Posting>,
    later: &mut Vec<Vec<Posting>>,
    spare: &mut Vec<Posting>,
    doc: DocId,
) -> usize
    requires room { vec_len first.old < vec_capacity first.old ⊎ 1 ≤ spare_room later.old spare.old }
    ensures same { first.new.items ++ joined later.new.items ≡ first.old.items ++ joined later.old.items }
    ensures filled { AreFilled later.old.items → AreFilled later.new.items }
    ensures placed { IsBlockOf doc.0 later.old.items 0 → IsBlockOf doc.0 later.new.items result }
    ensures inside { result ≤ 1 }
    ensures there { result ≤ vec_len later.new }
    ensures roomy { result ≡ 0 → vec_len first.new < vec_capacity first.new }
    ensures roomy_later { (d : Vec Row Heap) → result ≡ 1
        → vec_len (get_or later.new.items 0 d) < vec_capacity (get_or later.new.items 0 d) }
    ensures kept { vec_len first.old < vec_capacity first.old → (first.new ≡ first.old) × (later.new ≡ later.old) × (spare.new ≡ spare.old)
        × (result ≡ 0) }
{
    if first.len() < first.capacity() {
        return 0;
    }
    if first.len() < BLOCK {
        grow(first, spare);
        return 0;
    }
    let moved = count_moved(first, later, doc);
    divide_first(first, later, spare, moved);
    if starts(&later[0], doc) {
        return 1;
    }
    0
}

/// A block for a turn of the document that begins with the postings of the later one at `place`:
/// its place among the later ones. It has room.
pub(crate) fn roomy_later(
    later: &mut Vec<Vec<Posting>>,
    spare: &mut Vec<Posting>,
    place: usize,
    doc: DocId,
) -> usize
    requires inside { place < vec_len later.old }
    requires room { 1 ≤ spare_room later.old spare.old }
    ensures same { joined later.new.items ≡ joined later.old.items }
    ensures filled { AreFilled later.old.items → AreFilled later.new.items }
    ensures placed { IsBlockOf doc.0 later.old.items (place + 1) → IsBlockOf doc.0 later.new.items (result + 1) }
    ensures there { result < vec_len later.new }
    ensures roomy { (d : Vec Row Heap) → vec_len (get_or later.new.items result d) < vec_capacity (get_or later.new.items result d) }
{
    if later[place].len() < later[place].capacity() {
        return place;
    }
    if later[place].len() < BLOCK {
        grow(&mut later[place], spare);
        return place;
    }
    let moved = count_moved(&later[place], &later[place + 1..], doc);
    divide(later, place, spare, moved);
    if starts(&later[place + 1], doc) {
        return place + 1;
    }
    place
}

/// Removes the later block at `place` where it is empty.
pub(crate) fn drop_empty(later: &mut Vec<Vec<Posting>>, place: usize)
    requires inside { place < vec_len later.old }
    ensures same { joined later.new.items ≡ joined later.old.items }
    ensures filled { ((k : ℕ) (d : Vec Row Heap) → k < length later.old.items → k ≢ place → 0 < length (get_or later.old.items k d).items)
        → AreFilled later.new.items }
    ensures len { vec_len later.new ≤ vec_len later.old }
    ensures capacity { vec_capacity later.new ≡ vec_capacity later.old }
{
    if later[place].is_empty() {
        later.remove(place);
    }
}

/// Makes room for one more posting in a block that grows; the first posting is given room for itself
/// alone.
pub(crate) fn reserve_one(block: &mut Vec<Posting>) -> Result<(), AllocError>
    ensures room { OnOk result (vec_len block.new < vec_capacity block.new) }
    ensures same { block.new.items ≡ block.old.items }
    ensures len { vec_len block.new ≡ vec_len block.old }
    ensures kept { vec_capacity block.old ≤ vec_capacity block.new }
{
    if block.is_empty() {
        return block.reserve_exact(1);
    }
    block.reserve(1)
}

/// Makes a spare block, and a place for it.
pub(crate) fn reserve_block(
    later: &mut Vec<Vec<Posting>>,
    spare: &mut Vec<Posting>,
) -> Result<(), AllocError>
    ensures room { OnOk result (1 ≤ spare_room later.new spare.new) }
    ensures same { later.new.items ≡ later.old.items }
    ensures len { vec_len later.new ≡ vec_len later.old }
    ensures kept { spare_room later.old spare.old ≤ spare_room later.new spare.new }
{
    spare.clear();
    spare.reserve_exact(BLOCK)?;
    later.reserve(1)
}
