//! Answers to queries.
use base_types::DocId;

/// A document that matches a query.
#[derive(Clone, Copy, Debug, PartialEq, Eq)]
pub struct Row {
    /// The document.
    pub doc: DocId,
    /// How often the query's words occur in its text, all in all.
    pub score: u64,
}

/// What a query finds.
#[derive(Debug, Drop)]
pub struct Answer {
    /// The documents that match: the highest score first, and of one score by document.
    pub rows: Vec<Row>,
    /// How many postings were read for them.
    pub read: u64,
}

/// How many of the rows that a query finds are asked for.
#[derive(Clone, Copy, Debug, PartialEq, Eq)]
pub enum Wanted {
    /// All of them.
    All,
    /// The first so many in their order.
    First(usize),
}
