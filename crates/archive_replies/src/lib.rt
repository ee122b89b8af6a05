//! The replies of the archive's commands as bytes.
//!
//! A `ReplyPage` takes the memory for short replies when it is made. Writing one takes none, so a
//! command that is on disk can always be answered; answers and texts may take more. Contracts see a
//! page as the bytes that are written on it and the room that is left. To the layer above it promises
//! that the bytes are exactly the text of the reply, as the history of an archive defines it, and
//! that no such text is empty. `show` shows bytes whole on a sink.
#![tactic(auto)]

mod laws;
mod page;
mod shares;
mod showing;
mod tally;
mod verdicts;

pub use laws::replies_have_bytes;
pub use page::{REPLY_ROOM, ReplyPage};
pub use showing::show;
pub use tally::Tally;
