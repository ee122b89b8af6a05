//! Journals with plans of one word or two, as the formats spell them.
use rows_rig::{FIRST_LIFE, Plan, plan_of_v, plan_record, segment_at};
use std::alloc::{AllocError, Global};

/// The journal's header.
pub(crate) const HEADER: &[u8] = b"TIMETRAVELTEXT\x00\x01";

/// An arrival of document 3 at 40, with the text `v`.
pub(crate) const THIRD_ARRIVES: &[u8] =
    b"\xa5\x00\x00\x00\x0e\x01\x00\x00\x00\x03\x00\x00\x00\x00\x00\x00\x00\x28v";

/// Its deletion at 60.
pub(crate) const THIRD_ENDS: &[u8] =
    b"\xa5\x00\x00\x00\x0d\x02\x00\x00\x00\x03\x00\x00\x00\x00\x00\x00\x00\x3c";

/// An arrival of document 4 at 70, with the text `v`.
pub(crate) const FOURTH_ARRIVES: &[u8] =
    b"\xa5\x00\x00\x00\x0e\x01\x00\x00\x00\x04\x00\x00\x00\x00\x00\x00\x00\x46v";

/// An arrival of document 1 at 10 with the text `v w`, and its deletion at 20, behind the header.
const TWO_WORDS: &[u8] = b"TIMETRAVELTEXT\x00\x01\
    \xa5\x00\x00\x00\x10\x01\x00\x00\x00\x01\x00\x00\x00\x00\x00\x00\x00\x0av w\
    \xa5\x00\x00\x00\x0d\x02\x00\x00\x00\x01\x00\x00\x00\x00\x00\x00\x00\x14";

/// The record of a plan of one of the two words, whose one sublist lies in a page.
fn record_of(alloc: Global, word: &[u8], first: u32) -> Result<Vec<u8>, AllocError> {
    let segments = [segment_at(10, first, FIRST_LIFE)];
    let plan = Plan {
        word,
        ..plan_of_v(20, &segments)
    };
    plan_record(alloc, &plan)
}

/// The journal of the two words' changes and of these plans, each of a word with one sublist in a page.
pub(crate) fn two_words_journal(
    alloc: Global,
    plans: &[(&[u8], u32)],
) -> Result<Vec<u8>, AllocError> {
    let mut journal = Vec::from_slice(alloc, TWO_WORDS)?;
    for (word, first) in plans {
        let record = record_of(alloc, word, *first)?;
        journal.extend_from_slice(&record)?;
    }
    journal.push(0)?;
    Ok(journal)
}
