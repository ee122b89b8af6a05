//! The items of a batch.
ghost use Rattle.std.specs.Prelude.{◌≡◌, ◌≤◌, length};
ghost use Rattle.base_commands.specs.Batches.{texts_bytes};

use crate::text::Text;
use base_types::{DocId, Time};
use std::marker::Model;

/// The most items of a batch.
pub const MOST_BATCH_ITEMS: u32 = 1_000;

/// The most bytes that the texts of a batch have together.
pub const MOST_BATCH_BYTES: u64 = 16_777_216;

/// An item of a batch.
#[derive(Debug, Drop)]
pub enum BatchItem {
    /// A new version of a document.
    Arrive {
        /// The document.
        doc: DocId,
        /// When the version is created.
        at: Time,
        /// Its text.
        text: Text,
    },
    /// The end of a document's newest version.
    Delete {
        /// The document.
        doc: DocId,
        /// When it ends.
        at: Time,
    },
    /// What a batch can't have: another command, the line of a batch, or a line that is no command.
    Other,
}

/// From 1 to `MOST_BATCH_ITEMS` items, whose texts have together at most `MOST_BATCH_BYTES`.
/// Contracts see the list of the items.
#[derive(Debug, Drop)]
pub struct BatchList {
    items: Vec<BatchItem>,
}

impl Model for BatchList {
    ghost use Rattle.std.specs.Prelude.{List, ◌≤◌, length};
    ghost use Rattle.base_commands.specs.declared.batch.BatchItem.{BatchItem};
    ghost use Rattle.base_commands.specs.Batches.{texts_bytes};

    ghost Value = { List BatchItem };

    ghost view = { λ b. b.items.items };

    ghost invariant = { λ b. (1 ≤ length b.items.items) × (length b.items.items ≤ 1000) × (texts_bytes b.items.items ≤ 16777216) };
}

impl BatchList {
    /// The items of a `Vec`, of which nothing is copied. Constant cost.
    pub fn new(items: Vec<BatchItem>) -> BatchList
        requires some { 1 ≤ length items.items }
        requires few { length items.items ≤ 1000 }
        requires short { texts_bytes items.items ≤ 16777216 }
        ensures { result ≡ items.items }
    {
        BatchList { items }
    }

    /// The items. Constant cost.
    pub fn as_slice(&self) -> &[BatchItem]
        ensures value { result.now ≡ self.now }
        ensures some { 1 ≤ length result.now }
        ensures few { length result.now ≤ 1000 }
        ensures short { texts_bytes result.now ≤ 16777216 }
    {
        self.items.as_slice()
    }
}

/// The items of a batch, if they are kept.
#[derive(Debug, Drop)]
pub enum BatchItems {
    /// The items.
    Items(BatchList),
    /// Items whose texts have together more than `MOST_BATCH_BYTES`, of which none were kept.
    TooLong {
        /// How many bytes the texts have together, below 2^40.
        bytes: u64,
    },
}
