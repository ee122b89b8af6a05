//! Changes that are to come all at once.
ghost use Rattle.std.specs.Prelude.{◌≡◌, [], ◌∷◌, ◌++◌, List, Some, OnErr, OnOk, MatchResult};
ghost use Rattle.base_types.specs.declared.text_place.TextPlace.{TextPlace};
ghost use Rattle.lists_versions.specs.declared.change.Change.{Change as PlainChange};
ghost use Rattle.lists_versions.specs.Changes.{last_time, latest};
ghost use Rattle.lists_versions.specs.Refusals.{time_back, full_versions, arrive_refusal, delete_refusal, change_refusal};
ghost use Rattle.lists_versions.specs.Coming.{AreCounted};

use crate::change::Change;
use crate::directory::{Directory, full};
use crate::newest::Newest;
use crate::refusal::VersionRefusal;
use base_types::{DocId, TextPlace, Time, Which};
use std::alloc::{AllocError, Global};

/// Changes that are to come all at once behind those of a directory, each after the ones before it.
#[derive(Drop)]
pub struct Coming {
    /// The changes in their order.
    changes: Vec<Change<TextPlace>>,
    /// Each document's latest one.
    newest: Newest,
    /// How many documents come with them that the directory hasn't.
    fresh: usize,
}

impl Coming {
    /// No change yet. Constant cost.
    pub fn new(alloc: Global) -> Coming
        ensures changes { result.changes.items ≡ [] }
        ensures counted { (before : List (PlainChange TextPlace)) → AreCounted before result }
    {
        Coming {
            changes: Vec::new(alloc),
            newest: Newest::new(alloc),
            fresh: 0,
        }
    }

    /// The changes in their order. Constant cost.
    pub fn as_slice(&self) -> &[Change<TextPlace>]
        ensures { result.now ≡ self.now.changes.items }
    {
        self.changes.as_slice()
    }

    /// The time of the last change.
    fn last(&self, directory: &Directory) -> Option<Time>
        ensures { result ≡ last_time (directory.now.changes ++ self.now.changes.items) }
    {
        match self.changes.last() {
            Some(change) => Some(change.at),
            None => directory.last(),
        }
    }

    /// The document's latest version or tombstone. Two look-ups at most.
    fn latest(&self, directory: &Directory, doc: DocId) -> Option<Change<TextPlace>>
        requires { AreCounted directory.now.changes self.now }
        ensures { result ≡ latest doc (directory.now.changes ++ self.now.changes.items) }
    {
        match self.newest.of(doc) {
            Some(change) => Some(change),
            None => directory.latest(doc),
        }
    }

    /// The refusal of a time that lies before the last change's.
    fn time_back(&self, directory: &Directory, at: Time) -> Option<VersionRefusal>
        ensures { result ≡ time_back at (directory.now.changes ++ self.now.changes.items) }
    {
        match self.last(directory) {
            Some(last) if at.seconds < last.seconds => Some(VersionRefusal::TimeBack { last }),
            _ => None,
        }
    }

    /// The refusal of one change more than there may be.
    fn full_versions(&self, directory: &Directory) -> Option<VersionRefusal>
        ensures { result ≡ full_versions (directory.now.changes ++ self.now.changes.items) }
    {
        let left = Which::Versions
            .limit()
            .saturating_sub(directory.len() as u64);
        if left <= self.changes.len() as u64 {
            Some(full(Which::Versions))
        } else {
            None
        }
    }

    /// Whether a version of the document may come behind these changes, or the first cause why not.
    fn may_arrive(&self, directory: &Directory, doc: DocId, at: Time) -> Result<(), VersionRefusal>
        requires { AreCounted directory.now.changes self.now }
        ensures { MatchResult result
            (λ _. arrive_refusal doc at (directory.now.changes ++ self.now.changes.items) ≡ None)
            (λ e. arrive_refusal doc at (directory.now.changes ++ self.now.changes.items) ≡ Some e) }
    {
        if let Some(why) = self.time_back(directory, at) {
            return Err(why);
        }
        match self.latest(directory, doc) {
            Some(change) => {
                if change.at.seconds == at.seconds {
                    return Err(VersionRefusal::SameTime);
                }
            }
            None => {
                let left = Which::Documents
                    .limit()
                    .saturating_sub(directory.documents() as u64);
                if left <= self.fresh as u64 {
                    return Err(full(Which::Documents));
                }
            }
        }
        match self.full_versions(directory) {
            Some(why) => Err(why),
            None => Ok(()),
        }
    }

    /// Whether the document may be deleted behind these changes, or the first cause why not.
    fn may_delete(&self, directory: &Directory, doc: DocId, at: Time) -> Result<(), VersionRefusal>
        requires { AreCounted directory.now.changes self.now }
        ensures { MatchResult result
            (λ _. delete_refusal doc at (directory.now.changes ++ self.now.changes.items) ≡ None)
            (λ e. delete_refusal doc at (directory.now.changes ++ self.now.changes.items) ≡ Some e) }
    {
        if let Some(why) = self.time_back(directory, at) {
            return Err(why);
        }
        let since = match self.latest(directory, doc) {
            Some(change) if change.held.is_some() => change.at,
            _ => return Err(VersionRefusal::NoDocument),
        };
        if since.seconds == at.seconds {
            return Err(VersionRefusal::SameTime);
        }
        match self.full_versions(directory) {
            Some(why) => Err(why),
            None => Ok(()),
        }
    }

    /// Whether a change may come behind the directory's and these, or the first cause why not: those of
    /// `Directory::may_arrive` or `may_delete`. It costs two look-ups at most.
    pub fn may_come(
        &self,
        directory: &Directory,
        change: &Change<TextPlace>,
    ) -> Result<(), VersionRefusal>
        requires { AreCounted directory.now.changes self.now }
        ensures { MatchResult result
            (λ _. change_refusal change.now (directory.now.changes ++ self.now.changes.items) ≡ None)
            (λ e. change_refusal change.now (directory.now.changes ++ self.now.changes.items) ≡ Some e) }
    {
        match change.held {
            Some(_) => self.may_arrive(directory, change.doc, change.at),
            None => self.may_delete(directory, change.doc, change.at),
        }
    }

    /// Adds a change. An `Err` leaves them as they were. It costs three look-ups at most.
    pub fn add(
        &mut self,
        directory: &Directory,
        change: Change<TextPlace>,
    ) -> Result<(), AllocError>
        requires { AreCounted directory.now.changes self.old }
        ensures added { OnOk result (self.new.changes.items ≡ self.old.changes.items ++ change ∷ []) }
        ensures counted { OnOk result (AreCounted directory.now.changes self.new) }
        ensures same { OnErr result ((self.new.changes.items ≡ self.old.changes.items) × AreCounted directory.now.changes self.new) }
    {
        let before = self.latest(directory, change.doc);
        self.changes.reserve(1)?;
        self.newest.put(change)?;
        self.changes.push_reserved(change);
        match before {
            Some(_) => Ok(()),
            None => {
                self.fresh += 1;
                Ok(())
            }
        }
    }
}
