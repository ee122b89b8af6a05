//! Bytes that were checked.
ghost use Rattle.std.specs.Prelude.{◌≡◌, ◌↔◌, ◌-◌, ◌^◌, min, None, IsTrue, IsSome, IfOk, IfErr, OnOk, OnErr, MatchOption};
ghost use Rattle.pages_codec.specs.Decoding.{OrMemory};
ghost use Rattle.pages_checked.specs.Layouts.{Spells, SpellsNone};
ghost use Rattle.sha2.specs.Sha256.{sha256};
ghost use Rattle.pages_checked.specs.Unchecked.{HasOther};
ghost use Rattle.pages_checked.specs.Weights.{AreBytes, IsLight, weight};

use crate::error::DigestError;
use crate::spelling::decoded;
use base_types::Posting;
use journal_entries::Layout;
use pages_codec::ListError;
use sha2::{Digest, Sha256};
use std::alloc::Global;
use std::marker::Model;

/// The most bytes that what is put away takes together: 64 MiB, which is more than places in 1,024 pages
/// take.
pub(crate) const MOST_BYTES: usize = 1 << 26;

/// The bytes of a posting in memory, and what a place takes beside its bytes and postings.
const POSTING_SIZE: usize = 32;

const PLACE_SIZE: usize = 256;

/// Bytes whose digest was computed, and the list that they spell once they were read as one: a fact about
/// values, whatever any disk holds.
#[derive(Drop)]
pub(crate) struct Checked {
    page: u32,
    layout: Layout,
    digest: [u8; 32],
    bytes: Vec<u8>,
    list: Option<Vec<Posting>>,
}

impl Model for Checked {
    ghost use Rattle.std.specs.Prelude.{◌≡◌, IfSome};
    ghost use Rattle.std.specs.Option.{option_map};
    ghost use Rattle.sha2.specs.Sha256.{sha256};
    ghost use Rattle.pages_checked.specs.Layouts.{Spells};
    ghost use Rattle.pages_checked.specs.Weights.{CheckedState};

    ghost Value = { CheckedState };

    ghost view = { λ k. record {
      page = k.page;
      layout = k.layout;
      digest = k.digest;
      bytes = k.bytes.items;
      list = option_map (λ v. v.items) k.list;
    } };

    ghost invariant = { λ k. (k.digest ≡ sha256 k.bytes.items) × IfSome k.list (λ v. Spells k.layout k.bytes.items v.items) };
}

impl Checked {
    /// The bytes of the place that begins at a page, if they have the digest. They aren't read as a list.
    pub(crate) fn by_digest(
        alloc: Global,
        page: u32,
        layout: Layout,
        digest: &[u8; 32],
        bytes: &[u8],
    ) -> Result<Checked, DigestError>
        ensures page { IfOk result (λ k. k.page ≡ page) }
        ensures layout { IfOk result (λ k. k.layout ≡ layout) }
        ensures digest { IfOk result (λ k. k.digest ≡ digest.now) }
        ensures bytes { IfOk result (λ k. k.bytes ≡ bytes.now) }
        ensures other { IfErr result (HasOther digest.now bytes.now) }
    {
        let got = Sha256::digest(bytes);
        if got != *digest {
            return Err(DigestError::Other { got });
        }
        let bytes = Vec::from_slice(alloc, bytes)?;
        Ok(Checked {
            page,
            layout,
            digest: *digest,
            bytes,
            list: None,
        })
    }

    /// Whether it is these bytes that were checked, in this layout and by this digest.
    pub(crate) fn is(&self, layout: Layout, digest: &[u8; 32], bytes: &[u8]) -> bool
        ensures same { IsTrue result → AreBytes layout digest.now bytes.now self.now }
        ensures hashed { IsTrue result → digest.now ≡ sha256 bytes.now }
    {
        self.layout == layout && self.digest == *digest && self.bytes.as_slice() == bytes
    }

    /// Reads them as a list, where they weren't yet. An `Err` leaves them as they were.
    pub(crate) fn read(&mut self, alloc: Global) -> Result<(), ListError>
        ensures read { OnOk result (IsSome self.new.list) }
        ensures nothing { IfErr result (OrMemory (λ _. SpellsNone self.old.layout self.old.bytes)) }
        ensures same { self.new ≡ record self.old { list = self.new.list } }
        ensures unread { OnErr result (self.new ≡ self.old) }
    {
        if self.list.is_none() {
            let list = decoded(alloc, self.layout, &self.bytes)?;
            self.list = Some(list);
        }
        Ok(())
    }

    /// The list that they spell, if they were read as one.
    pub(crate) fn list(&self) -> Option<&[Posting]>
        ensures { MatchOption result (self.now.list ≡ None) (λ list. Spells self.now.layout self.now.bytes list.now) }
    {
        match &self.list {
            Some(list) => Some(list),
            None => None,
        }
    }

    /// The first page of their place.
    pub(crate) fn page(&self) -> u32
        ensures { result ≡ self.now.page }
    {
        self.page
    }

    /// How many bytes it takes, about, or the most that a number can say.
    pub(crate) fn weight(&self) -> usize
        ensures { result ≡ min (weight self.now) (2 ^ 64 - 1) }
    {
        let postings = match &self.list {
            Some(list) => list.len(),
            None => 0,
        };
        self.bytes
            .len()
            .saturating_add(postings.saturating_mul(POSTING_SIZE))
            .saturating_add(PLACE_SIZE)
    }

    /// Lets go of it, and tells its weight.
    pub(crate) fn free(self) -> usize
        ensures { result ≡ min (weight self) (2 ^ 64 - 1) }
    {
        self.weight()
    }

    /// Whether it is put away once other bytes are checked.
    pub(crate) fn is_light(&self) -> bool
        ensures { IsTrue result ↔ IsLight self.now }
    {
        !self.bytes.is_empty() && self.weight() <= MOST_BYTES
    }
}
