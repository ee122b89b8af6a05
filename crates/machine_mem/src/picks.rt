//! What a stop leaves of the bytes and lengths that it leaves open.
ghost use Rattle.std.specs.Prelude.{◌^◌, ◌≤◌, min, length, IfOk};
ghost use Rattle.machine_model.specs.Images.{AreBytes};
ghost use Rattle.machine_mem.specs.Stamps.{IsFilled, IsStamped, IsStampedOver};
ghost use Rattle.machine_mem.specs.Tails.{IsTail};
ghost use Rattle.machine_mem.specs.Picks.{IsPicked};
ghost use Rattle.machine_mem.specs.Differences.{holding_of};

use crate::holdings::Holdings;
use crate::store::Remains;
use machine_model::{Image, Range};
use std::alloc::{AllocError, Global};

/// What stands in the bytes of an image that a stop leaves open.
#[derive(Clone, Copy, Debug, PartialEq, Eq)]
pub enum Fill {
    /// Each as it was last written, by a failed write too; a gap that no write covers has zeros.
    Written,
    /// This byte in each.
    Byte(u8),
}

/// How an image's area ends, and what stands in its open bytes.
#[derive(Clone, Copy, Debug, PartialEq, Eq)]
pub struct Tail {
    /// The length above the least allowed one in bytes, cut to what is allowed.
    pub extra: u64,
    /// What stands in the open bytes.
    pub fill: Fill,
}

/// Which of the allowed images to take.
#[derive(Clone, Copy, Debug, PartialEq, Eq)]
pub struct Pick {
    /// The journal.
    pub journal: Tail,
    /// The page area.
    pub pages: Tail,
}

/// An image that was allowed at some moment.
#[derive(Debug, Drop)]
pub struct Picked {
    /// The image.
    pub image: Image,
    /// How many bytes were shown then.
    pub shown: usize,
}

impl Remains {
    /// One of the images that a stop may leave of the area. Cost: its length, and for a fill by one
    /// byte the lengths of the ranges.
    pub fn pick(&self, alloc: Global, tail: Tail) -> Result<Vec<u8>, AllocError>
        ensures { IfOk result (λ image. IsTail self.now.stable.items self.now.pending.items self.now.written.items tail image.items) }
    {
        let least = self.stable.len();
        let wanted = (least as u64).saturating_add(tail.extra);
        let len = wanted.min(self.written.len() as u64) as usize;
        let mut image = Vec::from_slice(alloc, &self.written[..len])?;
        match tail.fill {
            Fill::Written => Ok(image),
            Fill::Byte(byte) => {
                fill_open(&mut image, &self.pending, least, byte);
                Ok(image)
            }
        }
    }
}

/// An image of both areas, and how many bytes are shown.
pub fn pick_image(alloc: Global, holdings: &Holdings, pick: Pick) -> Result<Picked, AllocError>
    ensures { IfOk result (λ p. IsPicked (holding_of holdings.now).snapshot pick p) }
{
    let journal = holdings.journal.remains.pick(alloc, pick.journal)?;
    let pages = holdings.pages.remains.pick(alloc, pick.pages)?;
    Ok(Picked {
        image: Image { journal, pages },
        shown: holdings.shown.len(),
    })
}

/// Puts a byte into each place of the ranges, and into each from `least` on.
fn fill_open(bytes: &mut [u8], ranges: &[Range], least: usize, byte: u8)
    requires { length bytes.old ≤ 2 ^ 40 }
    ensures filled { IsFilled ranges.now least byte bytes.old bytes.new }
    ensures bytes { AreBytes bytes.new }
{
    stamp_ranges(bytes, ranges, byte);
    let end = bytes.len();
    stamp(bytes, least, end, byte);
}

/// Puts a byte into each place of the ranges.
fn stamp_ranges(bytes: &mut [u8], ranges: &[Range], byte: u8)
    requires { length bytes.old ≤ 2 ^ 40 }
    ensures { IsStampedOver ranges.now byte bytes.old bytes.new }
{
    for range in ranges {
        let end = range.at.saturating_add(range.count);
        stamp(bytes, range.at as usize, end as usize, byte);
    }
}

/// Puts a byte into each place from `start` up to `end`.
fn stamp(bytes: &mut [u8], start: usize, end: usize, byte: u8)
    ensures { IsStamped start end byte bytes.old bytes.new }
{
    let last = end.min(bytes.len());
    for place in start.min(last)..last {
        bytes[place] = byte;
    }
}
