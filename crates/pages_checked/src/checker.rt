//! Bytes that are checked once.
ghost use Rattle.std.specs.Prelude.{◌≡◌, ◌<◌, [], nat_eq, Some, None, IsTrue, IsOk, IsSomeAnd, IfOk, IfErr, IfSome, OnOk};
ghost use Rattle.std.specs.Map.{lookup, remove_entry};
ghost use Rattle.pages_checked.specs.Checking.{IsChecked};
ghost use Rattle.pages_checked.specs.Unchecked.{HasOther, IsUnchecked};
ghost use Rattle.pages_checked.specs.Weights.{AreBytes, IsLight};
ghost use Rattle.sha2.specs.Sha256.{sha256};

use crate::checked::Checked;
use crate::error::{CheckError, DigestError};
use crate::known::Known;
use base_types::{Extent, Posting};
use journal_entries::Layout;
use pages_codec::ListError;
use std::alloc::{AllocError, Global};

/// What gives the lists of bytes: it checks them, and remembers those that it checked, by the first page
/// of their place. What it answers doesn't depend on what it remembers. What was checked last is remembered
/// until other bytes are checked, however much it takes; what was put away takes at most 64 MiB, and what
/// was used longest ago goes first.
#[derive(Drop)]
pub struct Checker {
    newest: Option<Checked>,
    known: Known,
}

impl Checker {
    /// One that remembers nothing.
    pub fn new(alloc: Global) -> Result<Checker, AllocError>
        ensures newest { IfOk result (λ c. c.newest ≡ None) }
        ensures known { IfOk result (λ c. c.known ≡ []) }
    {
        Ok(Checker {
            newest: None,
            known: Known::new(alloc)?,
        })
    }

    /// The list that the bytes of the place at a page spell, if they have the digest. Bytes that it
    /// remembers are compared, and no digest is computed; else it costs the digest and a pass over the bytes,
    /// and memory for them and for the list.
    pub fn check(
        &mut self,
        alloc: Global,
        page: u32,
        layout: Layout,
        digest: &[u8; 32],
        bytes: &[u8],
    ) -> Result<&[Posting], CheckError>
        ensures found { IfOk result (λ list. IsChecked layout digest.now bytes.now list.now) }
        ensures refused { IfErr result (IsUnchecked layout digest.now bytes.now) }
    {
        match self.check_digest(alloc, page, layout, digest, bytes) {
            Ok(()) => {}
            Err(DigestError::Other { got }) => return Err(CheckError::Digest { got }),
            Err(DigestError::Memory) => return Err(CheckError::Memory),
        }
        let Some(newest) = &mut self.newest else {
            return Err(CheckError::Memory);
        };
        match newest.read(alloc) {
            Ok(()) => {}
            Err(ListError::Form { .. }) => return Err(CheckError::Form),
            Err(ListError::Memory) => return Err(CheckError::Memory),
        }
        match newest.list() {
            Some(list) => Ok(list),
            None => Err(CheckError::Memory),
        }
    }

    /// Checks that the bytes of the place at a page have the digest. Bytes that it remembers are compared,
    /// and no digest is computed; else it costs the digest, and memory for them.
    pub fn check_digest(
        &mut self,
        alloc: Global,
        page: u32,
        layout: Layout,
        digest: &[u8; 32],
        bytes: &[u8],
    ) -> Result<(), DigestError>
        ensures found { IsOk result → digest.now ≡ sha256 bytes.now }
        ensures newest { IsOk result → IsSomeAnd self.new.newest (AreBytes layout digest.now bytes.now) }
        ensures other { IfErr result (HasOther digest.now bytes.now) }
    {
        if !self.recalls(page, layout, digest, bytes) {
            let checked = Checked::by_digest(alloc, page, layout, digest, bytes)?;
            self.newest = Some(checked);
        }
        Ok(())
    }

    /// Whether these bytes were checked last, or were put away under the page, from where they come again.
    fn recalls(&mut self, page: u32, layout: Layout, digest: &[u8; 32], bytes: &[u8]) -> bool
        ensures newest { IsTrue result → IsSomeAnd self.new.newest (AreBytes layout digest.now bytes.now) }
        ensures hashed { IsTrue result → digest.now ≡ sha256 bytes.now }
    {
        if self.is_newest(layout, digest, bytes) {
            return true;
        }
        // Without memory it is forgotten.
        let _ = self.put_away();
        let Some(known) = self.known.take(page) else {
            return false;
        };
        if !known.is(layout, digest, bytes) {
            return false;
        }
        self.newest = Some(known);
        true
    }

    /// Whether they were checked last.
    fn is_newest(&self, layout: Layout, digest: &[u8; 32], bytes: &[u8]) -> bool
        ensures newest { IsTrue result → IsSomeAnd self.now.newest (AreBytes layout digest.now bytes.now) }
        ensures hashed { IsTrue result → digest.now ≡ sha256 bytes.now }
    {
        match &self.newest {
            Some(newest) => newest.is(layout, digest, bytes),
            None => false,
        }
    }

    /// Puts what was checked last beside the others, if it is light enough; where there is no memory it is
    /// forgotten.
    fn put_away(&mut self) -> Result<(), AllocError>
        ensures newest { self.new.newest ≡ None }
        ensures same { self.old.newest ≡ None → self.new.known ≡ self.old.known }
        ensures known { OnOk result (IfSome self.old.newest (λ k. IsLight k → lookup (nat_eq k.page) self.new.known ≡ Some k)) }
    {
        match self.newest.take() {
            Some(newest) => self.known.put(newest),
            None => Ok(()),
        }
    }

    /// Forgets what stood in an extent, which no place has any longer. Takes no memory but to put away what
    /// was checked last.
    pub fn let_go(&mut self, extent: Extent)
        ensures newest { self.new.newest ≡ None }
        ensures known { self.old.newest ≡ None → 0 < extent.bytes → self.new.known ≡ remove_entry (nat_eq extent.first) self.old.known }
    {
        let _ = self.put_away();
        if extent.bytes != 0 {
            let _ = self.known.take(extent.first);
        }
    }
}
