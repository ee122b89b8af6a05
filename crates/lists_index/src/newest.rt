//! The weights of the documents' newest versions.
ghost use Rattle.std.specs.Prelude.{◌≡◌, ◌≤◌, ◌==◌, ℕ, [], if◌then◌else◌, OnOk};
ghost use Rattle.lists_tails.specs.Weights.{AreWeights};
ghost use Rattle.lists_index.specs.Newest.{weights_of, room_of};

use crate::weights::Weights;
use base_types::DocId;
use lists_tails::Weight;
use std::alloc::{AllocError, Global};
use std::collections::HashMap;

/// For each document the weights of its newest version. A document without any, as one that never
/// came, has none.
#[derive(Drop)]
pub(crate) struct Newest {
    by_document: HashMap<DocId, Weights>,
}

impl Newest {
    /// No document has weights.
    pub(crate) fn new(alloc: Global) -> Newest
        ensures { (d : ℕ) → weights_of result d ≡ [] }
    {
        Newest {
            by_document: HashMap::new(alloc),
        }
    }

    /// The document's weights. One look-up.
    pub(crate) fn weights(&self, doc: DocId) -> &[Weight]
        ensures value { result.now ≡ weights_of self.now doc.0 }
        ensures ascending { AreWeights result.now }
    {
        match self.by_document.get(&doc) {
            Some(weights) => weights.as_slice(),
            None => &[],
        }
    }

    /// Makes room for one more document.
    pub(crate) fn reserve(&mut self) -> Result<(), AllocError>
        ensures room { OnOk result (1 ≤ room_of self.new) }
        ensures same { (d : ℕ) → weights_of self.new d ≡ weights_of self.old d }
    {
        self.by_document.reserve(1)
    }

    /// The document has these weights from now on. It takes no memory.
    pub(crate) fn put(&mut self, doc: DocId, weights: Weights)
        requires room { 1 ≤ room_of self.old }
        ensures put { (d : ℕ) → weights_of self.new d ≡ (if d == doc.0 then weights else weights_of self.old d) }
    {
        let put: Result<_, _> = self.by_document.insert(doc, weights);
        put.unwrap();
    }
}
