//! What the tests share.
ghost use Rattle.lists_postings.specs.Lists.{IsList};

use base_types::Posting;
use pages_codec::decode_list;
use std::alloc::Global;
use std::fmt::Debug;
use std::process::Abort;

/// A posting in numbers: its document, its start and its end, and its frequency.
pub(crate) type Row = (u32, u64, u64, u32);

/// The postings of a list in numbers.
pub(crate) fn told(rt: &impl Abort, alloc: Global, list: &[Posting]) -> Vec<Row> {
    let mut told = Vec::new(alloc);
    for p in list {
        let row = (p.doc.0, p.span.from, p.span.to, p.tf);
        told.push(row).expect(rt, "memory");
    }
    told
}

/// What is found is what is wanted.
pub(crate) fn expect_same<T: PartialEq + Debug + Drop>(rt: &impl Abort, found: T, wanted: T) {
    assert_eq!(rt; found, wanted);
}

/// The same in a row, which is told where it isn't so.
pub(crate) fn expect_same_in<R: Debug + Drop, T: PartialEq + Debug + Drop>(
    rt: &impl Abort,
    row: R,
    found: T,
    wanted: T,
) {
    assert_eq!(rt; found, wanted, "in {row:?}");
}

/// The bytes that hexadecimal digits spell.
pub(crate) fn bytes_of(rt: &impl Abort, alloc: Global, digits: &str) -> Vec<u8> {
    hex::decode(alloc, digits).expect(rt, "bytes")
}

/// The list of flat bytes.
pub(crate) fn listed(rt: &impl Abort, alloc: Global, flat: &[u8]) -> Vec<Posting>
    ensures { IsList result.items }
{
    decode_list(alloc, flat).expect(rt, "a list")
}

/// Adds the flat bytes of a posting of frequency 1.
pub(crate) fn put_flat(rt: &impl Abort, bytes: &mut Vec<u8>, doc: u32, from: u64, to: u64) {
    for number in [doc, 1] {
        let spelled = number.to_be_bytes();
        bytes.extend_from_slice(&spelled).expect(rt, "memory");
    }
    for number in [from, to] {
        let spelled = number.to_be_bytes();
        bytes.extend_from_slice(&spelled).expect(rt, "memory");
    }
}
