//! One area of a disk: what reads give of it, and what a stop may leave.
ghost use Rattle.std.specs.Prelude.{◌≡◌, ◌+◌, ◌^◌, ◌≤◌, [], ◌∷◌, length, take, IfOk};
ghost use Rattle.machine_model.specs.Images.{IsAllowed};
ghost use Rattle.machine_model.specs.Calls.{written};
ghost use Rattle.machine_mem.specs.Stores.{IsSound};

use machine_model::Range;
use std::alloc::{AllocError, Global};

/// What a stop may leave of one area.
#[derive(Drop)]
pub struct Remains {
    /// The bytes at the last good sync.
    pub stable: Vec<u8>,
    /// The ranges written since, the newest first, failed writes' too.
    pub pending: Vec<Range>,
    /// The bytes that were there if each write since had been done whole, failed ones too.
    pub written: Vec<u8>,
    ghost sound: { IsSound stable.items pending.items written.items },
}

/// One area: what a stop may leave of it, and what reads give.
#[derive(Drop)]
pub struct Store {
    /// What a stop may leave.
    pub remains: Remains,
    /// The bytes that reads give.
    pub held: Vec<u8>,
    ghost allowed: { IsAllowed remains.stable.items remains.pending.items held.items },
    ghost limit: { length held.items ≤ 2 ^ 40 },
}

impl Remains {
    /// An area just after a sync. Cost: two copies of the bytes.
    pub fn new(alloc: Global, bytes: &[u8]) -> Result<Remains, AllocError>
        requires { length bytes.now ≤ 2 ^ 40 }
        ensures stable { IfOk result (λ r. r.stable.items ≡ bytes.now) }
        ensures pending { IfOk result (λ r. r.pending.items ≡ []) }
        ensures written { IfOk result (λ r. r.written.items ≡ bytes.now) }
    {
        let stable = Vec::from_slice(alloc, bytes)?;
        let written = Vec::from_slice(alloc, bytes)?;
        Ok(Remains {
            stable,
            pending: Vec::new(alloc),
            written,
        })
    }

    /// The same once more. Cost: a copy of all.
    pub fn copy(&self, alloc: Global) -> Result<Remains, AllocError>
        ensures stable { IfOk result (λ r. r.stable.items ≡ self.now.stable.items) }
        ensures pending { IfOk result (λ r. r.pending.items ≡ self.now.pending.items) }
        ensures written { IfOk result (λ r. r.written.items ≡ self.now.written.items) }
    {
        let stable = Vec::from_slice(alloc, &self.stable)?;
        let pending = Vec::from_slice(alloc, &self.pending)?;
        let written = Vec::from_slice(alloc, &self.written)?;
        Ok(Remains {
            stable,
            pending,
            written,
        })
    }

    /// The same with one write more. Cost: a copy of all.
    pub fn after_write(&self, alloc: Global, at: u64, bytes: &[u8]) -> Result<Remains, AllocError>
        requires { at + length bytes.now ≤ 2 ^ 40 }
        ensures stable { IfOk result (λ r. r.stable.items ≡ self.now.stable.items) }
        ensures pending { IfOk result (λ r. r.pending.items ≡ record { at = at; count = length bytes.now } ∷ self.now.pending.items) }
        ensures written { IfOk result (λ r. r.written.items ≡ written at bytes.now self.now.written.items) }
    {
        let stable = Vec::from_slice(alloc, &self.stable)?;
        let mut pending = Vec::with_capacity(alloc, 1)?;
        pending.push(Range {
            at,
            count: bytes.len() as u64,
        })?;
        pending.extend_from_slice(&self.pending)?;
        let written = overlaid(alloc, &self.written, at as usize, bytes)?;
        Ok(Remains {
            stable,
            pending,
            written,
        })
    }
}

impl Store {
    /// An area just after a sync. Cost: three copies of the bytes.
    pub fn new(alloc: Global, bytes: &[u8]) -> Result<Store, AllocError>
        requires { length bytes.now ≤ 2 ^ 40 }
        ensures stable { IfOk result (λ s. s.remains.stable.items ≡ bytes.now) }
        ensures pending { IfOk result (λ s. s.remains.pending.items ≡ []) }
        ensures written { IfOk result (λ s. s.remains.written.items ≡ bytes.now) }
        ensures held { IfOk result (λ s. s.held.items ≡ bytes.now) }
    {
        let remains = Remains::new(alloc, bytes)?;
        let held = Vec::from_slice(alloc, bytes)?;
        Ok(Store { remains, held })
    }

    /// The same once more. Cost: a copy of all.
    pub fn copy(&self, alloc: Global) -> Result<Store, AllocError>
        ensures stable { IfOk result (λ s. s.remains.stable.items ≡ self.now.remains.stable.items) }
        ensures pending { IfOk result (λ s. s.remains.pending.items ≡ self.now.remains.pending.items) }
        ensures written { IfOk result (λ s. s.remains.written.items ≡ self.now.remains.written.items) }
        ensures held { IfOk result (λ s. s.held.items ≡ self.now.held.items) }
    {
        let remains = self.remains.copy(alloc)?;
        let held = Vec::from_slice(alloc, &self.held)?;
        Ok(Store { remains, held })
    }

    /// The area after a write of which the first `landed` bytes landed. Cost: a copy of all.
    pub fn after_write(
        &self,
        alloc: Global,
        at: u64,
        bytes: &[u8],
        landed: usize,
    ) -> Result<Store, AllocError>
        requires fits { at + length bytes.now ≤ 2 ^ 40 }
        requires within { landed ≤ length bytes.now }
        ensures stable { IfOk result (λ s. s.remains.stable.items ≡ self.now.remains.stable.items) }
        ensures pending { IfOk result (λ s. s.remains.pending.items ≡ record { at = at; count = length bytes.now }
            ∷ self.now.remains.pending.items) }
        ensures written { IfOk result (λ s. s.remains.written.items ≡ written at bytes.now self.now.remains.written.items) }
        ensures held { IfOk result (λ s. s.held.items ≡ written at (take landed bytes.now) self.now.held.items) }
    {
        let remains = self.remains.after_write(alloc, at, bytes)?;
        let held = overlaid(alloc, &self.held, at as usize, &bytes[..landed])?;
        Ok(Store { remains, held })
    }

    /// The area after a good sync. Cost: three copies of what reads give.
    pub fn after_sync(&self, alloc: Global) -> Result<Store, AllocError>
        ensures stable { IfOk result (λ s. s.remains.stable.items ≡ self.now.held.items) }
        ensures pending { IfOk result (λ s. s.remains.pending.items ≡ []) }
        ensures written { IfOk result (λ s. s.remains.written.items ≡ self.now.held.items) }
        ensures held { IfOk result (λ s. s.held.items ≡ self.now.held.items) }
    {
        Store::new(alloc, &self.held)
    }
}

/// Bytes with a piece laid over them from the place `at` on; a gap behind their end becomes zeros.
fn overlaid(alloc: Global, bytes: &[u8], at: usize, piece: &[u8]) -> Result<Vec<u8>, AllocError>
    requires { at + length piece.now ≤ 2 ^ 40 }
    ensures { IfOk result (λ v. v.items ≡ written at piece.now bytes.now) }
{
    let mut laid = Vec::from_slice(alloc, &bytes[..at.min(bytes.len())])?;
    laid.resize(at, 0)?;
    laid.extend_from_slice(piece)?;
    let end = (at + piece.len()).min(bytes.len());
    laid.extend_from_slice(&bytes[end..])?;
    Ok(laid)
}
