//! Queries, postings and comparisons for the tests.
ghost use Rattle.std.specs.Prelude.{◌≡◌, length};
ghost use Rattle.query_lang.specs.Meaning.{words_of};

use base_types::{DocId, Posting, Span};
use query_eval::Part;
use query_lang::Query;
use std::alloc::Global;
use std::fmt::Debug;
use std::process::Abort;

/// Numbers that look random: a linear congruential generator (D. Knuth, The Art of Computer
/// Programming, 2, 3.3.4).
#[derive(Drop)]
pub(crate) struct Numbers {
    /// What the next number is made from.
    pub(crate) state: u64,
}

impl Numbers {
    /// The next number, below `bound`, or 0 where that is 0.
    pub(crate) fn below(&mut self, bound: u32) -> u32 {
        self.state = self
            .state
            .wrapping_mul(6364136223846793005)
            .wrapping_add(1442695040888963407);
        if bound == 0 {
            return 0;
        }
        u32::try_from(self.state >> 33).unwrap_or(0) % bound
    }
}

/// What is found is what is wanted.
pub(crate) fn expect_same<T: PartialEq + Debug + Drop>(rt: &impl Abort, found: T, wanted: T) {
    assert_eq!(rt; found, wanted);
}

/// The same in a row, which is told where it isn't so.
pub(crate) fn expect_same_in<R: Debug + Drop, T: PartialEq + Debug + Drop>(
    rt: &impl Abort,
    row: R,
    found: T,
    wanted: T,
) {
    assert_eq!(rt; found, wanted, "in {row:?}");
}

/// The query that a text spells, which has to be short.
pub(crate) fn read(rt: &impl Abort, alloc: Global, text: &str) -> Query {
    assert!(rt; text.len() <= 4096);
    Query::read(alloc, text).ok().expect(rt, "a query")
}

/// The posting of that document, start, end and frequency.
pub(crate) fn posting(rt: &impl Abort, doc: u32, from: u64, to: u64, tf: u32) -> Posting {
    assert!(rt; tf != 0);
    Posting {
        doc: DocId(doc),
        span: Span::new(from, to).expect(rt, "a span"),
        tf,
    }
}

/// A posting by its document, start, end and frequency.
pub(crate) type Plain = (u32, u64, u64, u32);

/// The list of these postings.
pub(crate) fn listed(rt: &impl Abort, alloc: Global, rows: &[Plain]) -> Vec<Posting> {
    let mut list = Vec::new(alloc);
    for (doc, from, to, tf) in rows {
        list.push(posting(rt, *doc, *from, *to, *tf))
            .expect(rt, "memory");
    }
    list
}

/// The lists of red and of blue.
pub(crate) type RedAndBlue<'a> = (&'a [Plain], &'a [Plain]);

/// The part that is all of a list.
pub(crate) fn part(rt: &impl Abort, alloc: Global, rows: &[Plain]) -> Part {
    Part {
        list: listed(rt, alloc, rows),
        read: 3,
    }
}

/// The parts of the lists of a query's words, which are red and blue.
pub(crate) fn parts_of(
    rt: &impl Abort,
    alloc: Global,
    query: &Query,
    lists: RedAndBlue<'_>,
) -> Vec<Part>
    ensures { length result.items ≡ length (words_of query.now) }
{
    let mut parts = Vec::new(alloc);
    for word in query.words() {
        let rows = if word.as_str() == "red" {
            lists.0
        } else {
            lists.1
        };
        parts.push(part(rt, alloc, rows)).expect(rt, "memory");
    }
    assert!(rt; parts.len() == query.words().len());
    parts
}
