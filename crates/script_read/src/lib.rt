//! The parts of a script, read from a source that gives its bytes in any pieces.
//!
//! A script is a list of pieces, each taken off the front of the bytes (`specs/Items.antt`): a line
//! by itself, or the line of an arrival with the text and the line end behind it. A piece is a part,
//! which is an item (a command or a line that is none) or the line of a batch, or it is a line that is
//! skipped. What a line says is a definition of its own (`specs/Lines.antt`), on which the cutting of
//! pieces does not rest. Where a definition or a clause here says item, it is a part.
//!
//! To the layer above it promises the parts of the bytes pulled, however the source cuts them, that
//! it says of bytes that are broken exactly where, and that nothing is pulled while a part waits.
#![tactic(auto)]

mod asking;
mod changing;
mod dates;
mod error;
mod first;
mod laws;
mod line;
mod part;
mod passing;
mod reader;
mod reporting;
mod shares;
mod values;
mod words;

pub use base_commands::{Command, Content, Item, Kind, Phrase, Text};
pub use error::ScriptError;
pub use laws::parts_are_in_range;
pub use part::Part;
pub use reader::{BLOCK_BYTES, MOST_INPUT_BYTES, Reader};
