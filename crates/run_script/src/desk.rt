//! What a run works with.
ghost use Rattle.std.specs.Prelude.{◌≡◌, IfOk};
ghost use Rattle.script_items.specs.Reading.{fresh};

use archive_replies::ReplyPage;
use script_items::Reader;
use std::alloc::{AllocError, Global};

/// The reader of the script and the page for the replies, whose memory is taken before anything else.
#[derive(Drop)]
pub(crate) struct Desk {
    pub(crate) reader: Reader,
    pub(crate) page: ReplyPage,
}

impl Desk {
    /// A reader that has taken nothing, and an empty page.
    pub(crate) fn new(alloc: Global) -> Result<Desk, AllocError>
        ensures { IfOk result (λ d. d.reader ≡ fresh) }
    {
        let reader = Reader::new(alloc)?;
        let page = ReplyPage::new(alloc)?;
        Ok(Desk { reader, page })
    }
}
