//! Lists as bytes in both layouts, and bytes that spell no list.
ghost use Rattle.lists_postings.specs.Lists.{IsList};

use crate::tests::given::{Row, bytes_of, expect_same, expect_same_in, listed, put_flat, told};
use base_types::Posting;
use pages_codec::{Frames, ListError, decode_blocks, decode_list, encode_blocks, encode_list};
use std::alloc::Global;
use std::process::Abort;

/// The place that an error names.
fn named_by(error: Option<ListError>) -> Option<u64> {
    match error {
        Some(ListError::Form { at }) => Some(at),
        _ => None,
    }
}

/// The place that a reading names.
fn place(read: Result<Vec<Posting>, ListError>) -> Option<u64> {
    named_by(read.err())
}

/// The flat bytes of document 1 from 10 to 40, and of document 2 from 20 to 30.
const BOTH: &str =
    "0000000100000001000000000000000a000000000000002800000002000000010000000000000014000000000000001e";

/// Lists: their flat bytes, their postings, and their bytes in blocks.
const LISTS: [(&str, &[Row], &str); 4] = [
    // the empty list has no bytes
    ("", &[], ""),
    // a block of one posting has eighteen bytes
    (
        "0000000100000001000000000000000a0000000000000028",
        &[(1, 10, 40, 1)],
        "010003000000010000000100000001010a1e",
    ),
    (
        "00000002000000010000000000000014000000000000001e",
        &[(2, 20, 30, 1)],
        "01000300000001000000020000000201140a",
    ),
    (
        BOTH,
        &[(1, 10, 40, 1), (2, 20, 30, 1)],
        "020007000000010000000100000002010a1e0101140a",
    ),
];

/// The bytes of a list in blocks, which spell it.
fn blocks_of(rt: &impl Abort, alloc: Global, list: &[Posting]) -> Vec<u8>
    requires { IsList list.now }
{
    let blocks = encode_blocks(alloc, list).expect(rt, "memory");
    let again = decode_blocks(alloc, &blocks).expect(rt, "a list");
    expect_same(rt, again.as_slice(), list);
    blocks
}

/// The list of the flat bytes has these postings, and in blocks these bytes; each spelling spells it.
fn expect_spelled(rt: &impl Abort, alloc: Global, (flat, postings, digits): (&str, &[Row], &str)) {
    let flat = bytes_of(rt, alloc, flat);
    let list = listed(rt, alloc, &flat);
    expect_same_in(rt, digits, told(rt, alloc, &list).as_slice(), postings);
    let again = encode_list(alloc, &list).expect(rt, "memory");
    expect_same_in(rt, digits, again.as_slice(), flat.as_slice());
    let wanted = bytes_of(rt, alloc, digits);
    expect_same_in(rt, digits, blocks_of(rt, alloc, &list), wanted);
}

#[test]
fn lists_in_both_layouts(rt: HostRuntime) {
    for row in &LISTS {
        expect_spelled(&rt, rt.alloc(), *row);
    }
}

/// The same bytes with another one at a place.
fn altered(rt: &impl Abort, alloc: Global, bytes: &[u8], at: usize, byte: u8) -> Vec<u8> {
    let mut changed = Vec::from_slice(alloc, bytes).expect(rt, "memory");
    if let Some(old) = changed.get_mut(at) {
        *old = byte;
    }
    changed
}

/// Places in the flat bytes of both, a byte put there, and the posting that is named.
const POSTING_FAULTS: [(usize, u8, u64); 5] = [
    // Document 0 behind document 1.
    (27, 0, 24),
    // A frequency of 0.
    (7, 0, 0),
    // An end at the start, and one behind the end of time.
    (23, 10, 0),
    (42, 2, 24),
    // The same document again, while the first posting lasts.
    (27, 1, 24),
];

/// A list with another byte at a place names this posting.
fn expect_fault(rt: &impl Abort, alloc: Global, list: &[u8], (at, byte, named): (usize, u8, u64)) {
    let changed = altered(rt, alloc, list, at, byte);
    let read = decode_list(alloc, &changed);
    expect_same_in(rt, (at, byte), place(read), Some(named));
}

#[test]
fn the_posting_at_fault_is_named(rt: HostRuntime) {
    let list = bytes_of(&rt, rt.alloc(), BOTH);
    for fault in &POSTING_FAULTS {
        expect_fault(&rt, rt.alloc(), &list, *fault);
    }
}

/// So many bytes of a list name this posting, which is cut short.
fn expect_cut_short(rt: &impl Abort, alloc: Global, list: &[u8], bytes: usize, named: u64) {
    let mut short = Vec::from_slice(alloc, list).expect(rt, "memory");
    short.truncate(bytes);
    expect_same_in(rt, bytes, place(decode_list(alloc, &short)), Some(named));
}

#[test]
fn the_posting_that_is_cut_short_is_named(rt: HostRuntime) {
    let list = bytes_of(&rt, rt.alloc(), BOTH);
    expect_cut_short(&rt, rt.alloc(), &list, 47, 24);
    expect_cut_short(&rt, rt.alloc(), &list, 1, 0);
}

/// Bytes that are no blocks, and the place that is named.
const FAULTS: [(&str, u64); 25] = [
    // The header is cut short.
    ("0100030000000100000001000000", 0),
    // No posting, and more than 128.
    ("000003000000010000000100000001010a1e", 0),
    ("810003000000010000000100000001010a1e", 0),
    // More bytes than there are, and a block behind one of fewer than 128.
    ("010004000000010000000100000001010a1e", 0),
    ("010003000000010000000100000001010a1e00", 0),
    // A frequency of 0, and one of 2^32.
    ("010003000000010000000100000001000a1e", 15),
    ("01000700000001000000010000000180808080100a1e", 15),
    // A number with a last byte of 0, and one of seven bytes.
    ("01000400000001000000010000000181000a1e", 15),
    ("01000900000001000000010000000101808080808080011e", 16),
    // A start at the end of time.
    ("010008000000010000000100000001018080808080201e", 16),
    // An empty span, and one that passes the end of time.
    ("010003000000010000000100000001010a00", 17),
    ("010008000000010000000100000001010af7ffffffff1f", 17),
    // No bytes for the last number, and not all of them.
    ("010002000000010000000100000001010a", 17),
    ("010003000000010000000100000001010a9e", 17),
    // A document above the last there is.
    ("02000700000001ffffffffffffffff010a1e0101140a", 18),
    // A posting of the document whose last one is open.
    ("02000c000000010000000100000001010af6ffffffff1f00010101", 25),
    // Fewer postings than the header says, and bytes behind them.
    ("020003000000010000000100000001010a1e", 18),
    ("010007000000010000000100000001010a1e0101140a", 0),
    // The greatest frequency, the last document and the first one of the header.
    ("010003000000020000000100000001010a1e", 0),
    ("010003000000010000000100000002010a1e", 0),
    ("010003000000010000000200000001010a1e", 0),
    ("020007000000020000000100000003010a1e0102140a", 0),
    ("020007000000010000000100000002010a1e0102140a", 0),
    // A frequency of 0 comes before the greatest frequency.
    ("010003000000020000000100000001000a1e", 15),
    ("00", 0),
];

/// These bytes are no blocks, and this place is named.
fn expect_place(rt: &impl Abort, alloc: Global, (digits, at): (&str, u64)) {
    let bytes = bytes_of(rt, alloc, digits);
    let read = decode_blocks(alloc, &bytes);
    expect_same_in(rt, digits, place(read), Some(at));
}

#[test]
fn the_place_at_fault_in_blocks_is_named(rt: HostRuntime) {
    for fault in &FAULTS {
        expect_place(&rt, rt.alloc(), *fault);
    }
}

/// So many postings from 10 to 20, one a document.
fn long(rt: &impl Abort, alloc: Global, count: u32) -> Vec<Posting>
    ensures { IsList result.items }
{
    let mut bytes = Vec::new(alloc);
    for doc in 0..count {
        put_flat(rt, &mut bytes, doc, 10, 20);
    }
    listed(rt, alloc, &bytes)
}

/// A list has so many bytes in blocks.
fn expect_size(rt: &impl Abort, alloc: Global, list: &[Posting], bytes: usize)
    requires { IsList list.now }
{
    expect_same(rt, blocks_of(rt, alloc, list).len(), bytes);
}

/// Numbers of postings, and how many bytes these have in blocks.
const SIZES: [(u32, usize); 6] = [
    (0, 0),
    (1, 18),
    (127, 522),
    (128, 526),
    (129, 544),
    (1000, 4112),
];

#[test]
fn a_block_has_128_postings(rt: HostRuntime) {
    for (count, bytes) in &SIZES {
        let list = long(&rt, rt.alloc(), *count);
        expect_size(&rt, rt.alloc(), &list, *bytes);
    }
}

/// Starts, and how many bytes a block of one posting with that start has: 17, and one to six for the start.
const STARTS: [(u64, usize); 12] = [
    (0, 18),
    (127, 18),
    (128, 19),
    (16_383, 19),
    (16_384, 20),
    (2_097_151, 20),
    (2_097_152, 21),
    (268_435_455, 21),
    (268_435_456, 22),
    (34_359_738_367, 22),
    (34_359_738_368, 23),
    (1_099_511_627_775, 23),
];

/// A posting that begins there has so many bytes in blocks.
fn expect_start(rt: &impl Abort, alloc: Global, from: u64, bytes: usize) {
    let mut flat = Vec::new(alloc);
    put_flat(rt, &mut flat, 1, from, from.saturating_add(1));
    let list = listed(rt, alloc, &flat);
    expect_size(rt, alloc, &list, bytes);
}

#[test]
fn a_number_has_one_to_six_bytes(rt: HostRuntime) {
    for (from, bytes) in &STARTS {
        expect_start(&rt, rt.alloc(), *from, *bytes);
    }
}

/// The blocks of 257 postings: three.
fn three_blocks(rt: &impl Abort, alloc: Global) -> Vec<u8> {
    let list = long(rt, alloc, 257);
    encode_blocks(alloc, &list).expect(rt, "memory")
}

/// Bits that are turned in each byte of three blocks in turn, how many of these altered bytes are a
/// list's, and the sum of the places that the others have: by a decoder in another language.
const ALTERED: [(u8, u64, u64); 2] = [(1, 514, 229_321), (128, 0, 834_031)];

/// The place that a reading of altered bytes names; none where they are those of another list.
fn place_or_list(rt: &impl Abort, alloc: Global, altered: &[u8]) -> Option<u64> {
    match decode_blocks(alloc, altered) {
        Ok(other) => {
            let again = encode_blocks(alloc, &other).expect(rt, "memory");
            expect_same(rt, again.as_slice(), altered);
            None
        }
        Err(error) => Some(named_by(Some(error)).expect(rt, "a place")),
    }
}

/// How many of the altered bytes are a list's where these bits are turned in each byte in turn, and the sum
/// of the places that the others have.
fn lists_and_places(rt: &impl Abort, alloc: Global, blocks: &[u8], bit: u8) -> (u64, u64) {
    let mut lists = 0u64;
    let mut places = 0u64;
    for (at, byte) in blocks.iter().enumerate() {
        let other = altered(rt, alloc, blocks, at, *byte ^ bit);
        match place_or_list(rt, alloc, &other) {
            None => lists = lists.saturating_add(1),
            Some(at) => places = places.saturating_add(at),
        }
    }
    (lists, places)
}

#[test]
fn an_altered_byte_is_refused_or_makes_another_list(rt: HostRuntime) {
    let blocks = three_blocks(&rt, rt.alloc());
    for (bit, lists, places) in &ALTERED {
        let found = lists_and_places(&rt, rt.alloc(), &blocks, *bit);
        expect_same_in(&rt, *bit, found, (*lists, *places));
    }
}

#[test]
fn a_block_whose_first_document_is_below_the_one_before_is_refused(rt: HostRuntime) {
    // The first block ends with document 127, and the second one's header, at 526, now says 126.
    let blocks = three_blocks(&rt, rt.alloc());
    let other = altered(&rt, rt.alloc(), &blocks, 536, 126);
    expect_same(&rt, place(decode_blocks(rt.alloc(), &other)), Some(526));
}

/// The blocks of 257 postings, opened.
fn opened(rt: &impl Abort, alloc: Global) -> Frames {
    Frames::read(alloc, three_blocks(rt, alloc)).expect(rt, "blocks")
}

/// Of each of the three blocks: how many postings and bytes, the greatest frequency, the first document and
/// the last.
const HEADS: [(u8, u16, u32, u32, u32); 3] = [
    (128, 511, 1, 0, 127),
    (128, 511, 1, 128, 255),
    (1, 3, 1, 256, 256),
];

#[test]
fn blocks_have_heads(rt: HostRuntime) {
    let frames = opened(&rt, rt.alloc());
    expect_same(&rt, frames.heads().len(), 3);
    for (head, row) in frames.heads().iter().zip(&HEADS) {
        let found = (head.count, head.size, head.top, head.first.0, head.last.0);
        expect_same(&rt, found, *row);
    }
}

#[test]
fn blocks_are_opened_one_by_one(rt: HostRuntime) {
    let frames = opened(&rt, rt.alloc());
    let mut together = Vec::new(rt.alloc());
    for block in 0..frames.heads().len() {
        let list = frames.open(rt.alloc(), block).expect(&rt, "a block");
        together.extend_from_slice(&list).expect(&rt, "memory");
    }
    let list = long(&rt, rt.alloc(), 257);
    expect_same(&rt, together.as_slice(), list.as_slice());
}

/// Places in three blocks, a byte put there, the place that the headers name, and the place that the
/// second block names.
const BLOCK_FAULTS: [(usize, u8, Option<u64>, Option<u64>); 6] = [
    // A second header of 0 and of 129 postings, and of more bytes than there are.
    (526, 0, Some(526), None),
    (526, 129, Some(526), None),
    (527, 255, Some(526), None),
    // A third header of no posting.
    (1052, 0, Some(1052), None),
    // Its greatest frequency, and the frequency of its first posting.
    (532, 9, None, Some(526)),
    (541, 0, None, Some(541)),
];

/// The place that the headers of three blocks name, or else that which the second block names.
fn faults_of(rt: &impl Abort, alloc: Global, blocks: Vec<u8>) -> (Option<u64>, Option<u64>) {
    match Frames::read(alloc, blocks) {
        Ok(frames) => {
            assert!(rt; frames.heads().len() == 3);
            (None, place(frames.open(alloc, 1)))
        }
        Err(error) => (named_by(Some(error)), None),
    }
}

/// Three blocks with another byte at a place name a place by their headers, or by the second block.
fn expect_block_fault(
    rt: &impl Abort,
    alloc: Global,
    blocks: &[u8],
    (at, byte, header, inner): (usize, u8, Option<u64>, Option<u64>),
) {
    let other = altered(rt, alloc, blocks, at, byte);
    let found = faults_of(rt, alloc, other);
    expect_same_in(rt, (at, byte), found, (header, inner));
}

#[test]
fn the_place_at_fault_is_counted_from_the_first_byte(rt: HostRuntime) {
    let blocks = three_blocks(&rt, rt.alloc());
    for fault in &BLOCK_FAULTS {
        expect_block_fault(&rt, rt.alloc(), &blocks, *fault);
    }
}
