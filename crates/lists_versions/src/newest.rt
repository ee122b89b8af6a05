//! The latest changes of documents among changes that are to come.
ghost use Rattle.std.specs.Prelude.{◌≡◌, ◌==◌, None, Some, if◌then◌else◌, OnErr, OnOk};
ghost use Rattle.base_types.specs.declared.ids.DocId.{DocId as Document};
ghost use Rattle.lists_versions.specs.Newest.{newest_of};

use crate::change::Change;
use base_types::{DocId, TextPlace};
use std::alloc::{AllocError, Global};
use std::collections::HashMap;

/// The latest change of each document.
#[derive(Drop)]
pub(crate) struct Newest {
    by_document: HashMap<DocId, Change<TextPlace>>,
}

impl Newest {
    /// No document has one.
    pub(crate) fn new(alloc: Global) -> Newest
        ensures { (d : Document) → newest_of result d ≡ None }
    {
        Newest {
            by_document: HashMap::new(alloc),
        }
    }

    /// The document's latest change. One look-up.
    pub(crate) fn of(&self, doc: DocId) -> Option<Change<TextPlace>>
        ensures { result ≡ newest_of self.now doc }
    {
        match self.by_document.get(&doc) {
            Some(change) => Some(*change),
            None => None,
        }
    }

    /// This is its document's latest change from now on. An `Err` leaves them as they were.
    pub(crate) fn put(&mut self, change: Change<TextPlace>) -> Result<(), AllocError>
        ensures put { OnOk result ((d : Document)
            → newest_of self.new d ≡ (if change.doc.0 == d.0 then Some change else newest_of self.old d)) }
        ensures same { OnErr result ((d : Document) → newest_of self.new d ≡ newest_of self.old d) }
    {
        self.by_document.reserve(1)?;
        let put: Result<_, _> = self.by_document.insert(change.doc, change);
        put.unwrap();
        Ok(())
    }
}
