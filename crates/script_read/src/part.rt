//! The parts of a script.
use base_commands::Item;

/// A part of a script: an item, or the line of a batch, to which the next parts belong.
#[derive(Debug, Drop)]
pub enum Part {
    /// An item.
    Item(Item),
    /// The line of a batch of so many items, from 1 to `MOST_BATCH_ITEMS`.
    Batch {
        /// How many items the batch has.
        count: u32,
    },
}
