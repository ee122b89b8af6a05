//! What a disk holds now, and what was shown.
ghost use Rattle.std.specs.Prelude.{◌≡◌, ◌^◌, ◌≤◌, length, IfOk};
ghost use Rattle.machine_mem.specs.Differences.{holding_of, first_of, played};
ghost use Rattle.machine_mem.specs.declared.difference.Difference.TheVariants as differences;

use crate::difference::{Difference, Write};
use crate::store::Store;
use machine_model::{Area, Image};
use std::alloc::{AllocError, Global};

/// What a disk holds, and what was shown.
#[derive(Drop)]
pub struct Holdings {
    /// The journal.
    pub journal: Store,
    /// The page area.
    pub pages: Store,
    /// The bytes shown.
    pub shown: Vec<u8>,
}

impl Holdings {
    /// A disk that is this image, just synced, with nothing shown. Cost: three copies of the image.
    pub fn new(alloc: Global, image: &Image) -> Result<Holdings, AllocError>
        requires journal { length image.now.journal.items ≤ 2 ^ 40 }
        requires pages { length image.now.pages.items ≤ 2 ^ 40 }
        ensures { IfOk result (λ x. holding_of x ≡ first_of image.now) }
    {
        let journal = Store::new(alloc, &image.journal)?;
        let pages = Store::new(alloc, &image.pages)?;
        Ok(Holdings {
            journal,
            pages,
            shown: Vec::new(alloc),
        })
    }

    /// The same after a call that changed this. Cost: a copy of all.
    pub fn after(&self, alloc: Global, difference: &Difference) -> Result<Holdings, AllocError>
        ensures { IfOk result (λ x. holding_of x ≡ played difference.now (holding_of self.now)) }
    {
        match difference {
            Difference::Write(write) => self.after_write(alloc, write),
            Difference::Sync => self.after_sync(alloc),
            Difference::Show(piece) => {
                let mut next = self.copy(alloc)?;
                next.shown.extend_from_slice(piece)?;
                Ok(next)
            }
            Difference::Nothing => self.copy(alloc),
        }
    }

    /// The same after a write.
    fn after_write(&self, alloc: Global, write: &Write) -> Result<Holdings, AllocError>
        ensures { IfOk result (λ x. holding_of x ≡ played (differences.Write write.now) (holding_of self.now)) }
    {
        let shown = Vec::from_slice(alloc, &self.shown)?;
        match write.area {
            Area::Journal => {
                let journal = self
                    .journal
                    .after_write(alloc, write.at, &write.bytes, write.landed)?;
                let pages = self.pages.copy(alloc)?;
                Ok(Holdings {
                    journal,
                    pages,
                    shown,
                })
            }
            Area::Pages => {
                let journal = self.journal.copy(alloc)?;
                let pages = self
                    .pages
                    .after_write(alloc, write.at, &write.bytes, write.landed)?;
                Ok(Holdings {
                    journal,
                    pages,
                    shown,
                })
            }
        }
    }

    /// The same after a good sync.
    fn after_sync(&self, alloc: Global) -> Result<Holdings, AllocError>
        ensures { IfOk result (λ x. holding_of x ≡ played differences.Sync (holding_of self.now)) }
    {
        let journal = self.journal.after_sync(alloc)?;
        let pages = self.pages.after_sync(alloc)?;
        let shown = Vec::from_slice(alloc, &self.shown)?;
        Ok(Holdings {
            journal,
            pages,
            shown,
        })
    }

    /// The same once more.
    fn copy(&self, alloc: Global) -> Result<Holdings, AllocError>
        ensures { IfOk result (λ x. holding_of x ≡ holding_of self.now) }
    {
        let journal = self.journal.copy(alloc)?;
        let pages = self.pages.copy(alloc)?;
        let shown = Vec::from_slice(alloc, &self.shown)?;
        Ok(Holdings {
            journal,
            pages,
            shown,
        })
    }
}
