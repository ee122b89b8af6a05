//! Turns of a document in one block of a word's tail.
ghost use Rattle.std.specs.Prelude.{◌≡◌, ◌≢◌, ◌↔◌, ◌+◌, ◌-◌, ◌<◌, ◌≤◌, ◌++◌, List, Vec, length, get_or, slice_set, vec_len, vec_capacity, IsNone, IfSome};
ghost use Rattle.std.specs.List.{insert};
ghost use Rattle.lists_postings.specs.Lists.{IsList};
ghost use Rattle.std.specs.declared.alloc.Global.{Global as Heap};
ghost use Rattle.base_types.specs.declared.posting.Posting.{Posting as Row};
ghost use Rattle.lists_tails.specs.Turns.{IsTurned};
ghost use Rattle.lists_tails.specs.Blocks.{joined, AreFilled, IsBlockOf, IsTurnedWithin, LeavesBlocks, room_in, spare_room};
ghost use Rattle.lists_tails.specs.Steps.{IsOpened, IsClosed, IsPlace};

use crate::blocks::{count_started, drop_empty, roomy_first, roomy_later};
use base_types::{DocId, NOW, Posting, Span, Time};

/// How many postings are of documents up to this one. By the logarithm of the list's length.
fn place_of(list: &[Posting], doc: DocId) -> usize
    ensures inside { result ≤ length list.now }
    ensures place { IsList list.now → IsPlace doc.0 list.now result }
{
    list.partition_point(|p| p.doc <= doc)
}

/// The document's posting from the turn on; None with the frequency 0.
fn opened(doc: DocId, at: Time, tf: u32) -> Option<Posting>
    ensures none { IsNone result ↔ (tf ≡ 0) }
    ensures some { IfSome result (IsOpened doc.0 at.seconds tf) }
{
    if tf == 0 {
        return None;
    }
    Some(Posting {
        doc,
        span: Span {
            from: at.seconds,
            to: NOW,
        },
        tf,
    })
}

/// The posting, over at the turn.
fn closed(x: &Posting, at: Time) -> Posting
    requires { x.now.span.from < at.seconds }
    ensures { IsClosed at.seconds x.now result }
{
    Posting {
        doc: x.doc,
        span: Span {
            from: x.span.from,
            to: at.seconds,
        },
        tf: x.tf,
    }
}

/// Puts the posting at that place, for which there is room. It moves the postings behind.
fn put(list: &mut Vec<Posting>, place: usize, q: Posting)
    requires inside { place ≤ vec_len list.old }
    requires room { vec_len list.old < vec_capacity list.old }
    ensures items { list.new.items ≡ insert list.old.items place q }
    ensures len { vec_len list.new ≡ vec_len list.old + 1 }
    ensures capacity { vec_capacity list.new ≡ vec_capacity list.old }
{
    list.insert(place, q).ok();
}

/// Writes the posting at that place.
fn write(list: &mut Vec<Posting>, place: usize, q: Posting)
    requires { place < vec_len list.old }
    ensures items { list.new.items ≡ slice_set list.old.items place q }
    ensures len { vec_len list.new ≡ vec_len list.old }
    ensures capacity { vec_capacity list.new ≡ vec_capacity list.old }
{
    list[place] = q;
}

/// A turn of a document that hasn't the word before it.
fn begin(list: &mut Vec<Posting>, doc: DocId, at: Time, new: u32)
    requires room { new ≢ 0 → vec_len list.old < vec_capacity list.old }
    ensures turned { IsTurnedWithin doc.0 at.seconds 0 new list.old.items list.new.items }
    ensures longer { vec_len list.new ≤ vec_len list.old + 1 }
    ensures none { new ≡ 0 → vec_len list.new ≤ vec_len list.old }
    ensures capacity { vec_capacity list.new ≡ vec_capacity list.old }
{
    let place = place_of(list.as_slice(), doc);
    let Some(q) = opened(doc, at, new) else {
        return;
    };
    put(list, place, q);
}

/// A turn of a document that has the word before it, with another frequency than after it.
fn pass(list: &mut Vec<Posting>, doc: DocId, at: Time, old: u32, new: u32)
    requires some { 0 < old }
    requires differ { old ≢ new }
    requires room { new ≢ 0 → vec_len list.old < vec_capacity list.old }
    ensures turned { IsTurnedWithin doc.0 at.seconds old new list.old.items list.new.items }
    ensures longer { vec_len list.new ≤ vec_len list.old + 1 }
    ensures none { new ≡ 0 → vec_len list.new ≤ vec_len list.old }
    ensures capacity { vec_capacity list.new ≡ vec_capacity list.old }
{
    let place = place_of(list.as_slice(), doc);
    if place == 0 {
        return;
    }
    let last = place - 1;
    let x = list[last];
    let Some(q) = opened(doc, at, new) else {
        if x.span.from < at.seconds {
            write(list, last, closed(&x, at));
            return;
        }
        list.remove(last);
        return;
    };
    if x.span.from < at.seconds {
        put(list, place, q);
        write(list, last, closed(&x, at));
        return;
    }
    write(list, last, q);
}

/// A turn of a document in a block that has room, where it has the word after the turn.
pub(crate) fn turn_within(list: &mut Vec<Posting>, doc: DocId, at: Time, old: u32, new: u32)
    requires differ { old ≢ new }
    requires room { new ≢ 0 → vec_len list.old < vec_capacity list.old }
    ensures turned { IsTurnedWithin doc.0 at.seconds old new list.old.items list.new.items }
    ensures longer { vec_len list.new ≤ vec_len list.old + 1 }
    ensures none { new ≡ 0 → vec_len list.new ≤ vec_len list.old }
    ensures capacity { vec_capacity list.new ≡ vec_capacity list.old }
{
    if old == 0 {
        begin(list, doc, at, new);
    } else {
        pass(list, doc, at, old, new);
    }
}

/// A turn of a document in the blocks of a word's tail.
pub(crate) fn turn_blocks(
    first: &mut Vec<Posting>,
    later: &mut Vec<Vec<Posting>>,
    spare: &mut Vec<Posting>,
    doc: DocId,
    at: Time,
    old: u32,
    new: u32,
)
    requires differ { old ≢ new }
    requires room { new ≢ 0 → 1 ≤ room_in first.old later.old spare.old }
    requires filled { AreFilled later.old.items }
    ensures turned { IsTurned doc.0 at.seconds old new (first.old.items ++ joined later.old.items)
        (first.new.items ++ joined later.new.items) }
    ensures leaves { LeavesBlocks new first.old later.old spare.old first.new later.new spare.new }
{
    let started = count_started(later.as_slice(), doc);
    if started > 0 {
        turn_started(later, spare, started - 1, doc, at, old, new);
        return;
    }
    if new == 0 {
        turn_within(first, doc, at, old, 0);
        return;
    }
    let block = roomy_first(first, later, spare, doc);
    if block == 0 {
        turn_within(first, doc, at, old, new);
    } else {
        turn_later(later, 0, doc, at, old, new);
    }
}

/// A turn of a document that begins with the postings of the later block at `place`.
fn turn_started(
    later: &mut Vec<Vec<Posting>>,
    spare: &mut Vec<Posting>,
    place: usize,
    doc: DocId,
    at: Time,
    old: u32,
    new: u32,
)
    requires differ { old ≢ new }
    requires inside { place < vec_len later.old }
    requires room { new ≢ 0 → 1 ≤ spare_room later.old spare.old }
    requires filled { AreFilled later.old.items }
    ensures turned { (front : List Row) → (IsList (front ++ joined later.old.items) → IsBlockOf doc.0 later.old.items (place + 1))
        → IsTurned doc.0 at.seconds old new (front ++ joined later.old.items) (front ++ joined later.new.items) }
    ensures filled { AreFilled later.new.items }
    ensures longer { length (joined later.new.items) ≤ length (joined later.old.items) + 1 }
    ensures shorter { new ≡ 0 → length (joined later.new.items) ≤ length (joined later.old.items) }
    ensures len { new ≡ 0 → vec_len later.new ≤ vec_len later.old }
    ensures capacity { new ≡ 0 → vec_capacity later.new ≡ vec_capacity later.old }
    ensures spare { new ≡ 0 → spare.new ≡ spare.old }
{
    if new == 0 {
        turn_later(later, place, doc, at, old, 0);
        return;
    }
    let block = roomy_later(later, spare, place, doc);
    turn_later(later, block, doc, at, old, new);
}

/// A turn of a document in the later block at `place`, which has room. A block that is empty then
/// is removed.
fn turn_later(later: &mut Vec<Vec<Posting>>, place: usize, doc: DocId, at: Time, old: u32, new: u32)
    requires differ { old ≢ new }
    requires inside { place < vec_len later.old }
    requires roomy { new ≢ 0 → (d : Vec Row Heap)
        → vec_len (get_or later.old.items place d) < vec_capacity (get_or later.old.items place d) }
    requires filled { AreFilled later.old.items }
    ensures turned { (front : List Row) → (IsList (front ++ joined later.old.items) → IsBlockOf doc.0 later.old.items (place + 1))
        → IsTurned doc.0 at.seconds old new (front ++ joined later.old.items) (front ++ joined later.new.items) }
    ensures filled { AreFilled later.new.items }
    ensures longer { length (joined later.new.items) ≤ length (joined later.old.items) + 1 }
    ensures shorter { new ≡ 0 → length (joined later.new.items) ≤ length (joined later.old.items) }
    ensures len { vec_len later.new ≤ vec_len later.old }
    ensures capacity { vec_capacity later.new ≡ vec_capacity later.old }
{
    turn_within(&mut later[place], doc, at, old, new);
    drop_empty(later, place);
}
