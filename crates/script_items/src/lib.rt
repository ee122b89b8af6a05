//! The items of a script, by its parts: the line of a batch and the next parts, so many, are one
//! item.
//!
//! What a script is stands in `specs/Items.antt`, over the parts of `script_read`: which bytes are a
//! part is told there, and here no byte is looked at. What parts make, and the batch that is under
//! way behind them, is `makes` of `specs/Groups.antt`.
//!
//! To the layer above it promises the items of the bytes pulled, however the source cuts them, that
//! it says of a script that is broken exactly where, that nothing is pulled while an item waits, and
//! that a batch above the limit is passed over in bounded memory.
#![tactic(auto)]

mod gathering;
mod laws;
mod member;
mod putting;
mod reader;

pub use laws::items_are_in_range;
pub use reader::Reader;
pub use script_read::{BLOCK_BYTES, Item, MOST_INPUT_BYTES, ScriptError};
