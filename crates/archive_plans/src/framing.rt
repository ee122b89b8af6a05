//! The headers of the blocks of a plan's segment.
ghost use Rattle.std.specs.Prelude.{◌≡◌, ◌+◌, ◌<◌, length, get_or, Some, IfOk, IfErr, OnOk};
ghost use Rattle.machine_model.specs.Areas.{replaced};
ghost use Rattle.machine_model.specs.Calls.{OnlyReads};
ghost use Rattle.machine_model.specs.Causes.{Rose};
ghost use Rattle.pages_sublists.specs.Fetching.{IfDamaged, IfFailed};
ghost use Rattle.pages_area.specs.Caches.{StandsFor, after_asking_all, missed_by_all};
ghost use Rattle.model_archive.specs.Chosen.{pieces_chosen};
ghost use Rattle.model_archive.specs.declared.stored.StoredPlan.{StoredPlan as PlainStored};
ghost use Rattle.archive_plans.specs.Framing.{AreInTurn, IsFramedAt, IsUnframedAt};
ghost use Rattle.archive_plans.specs.Shelves.{IsReadable};

use crate::segment::segment_at;
use crate::shelf::Shelf;
use base_types::{Span, Time};
use machine_model::{Area, Disk};
use pages_codec::Frames;
use pages_sublists::FetchError;
use std::alloc::Global;

/// The headers of the blocks of a segment.
#[derive(Drop)]
pub struct SegmentFrames {
    /// The bytes of its place, and their headers.
    pub frames: Frames,
    /// The first page of the place.
    pub page: u32,
    /// The segment.
    pub span: Span,
}

impl Shelf {
    /// The headers of the blocks of the segment that has a time, of the plan that stands there, whose
    /// sublists are in blocks: where the cache stands for Pages, of what reads give; None where no segment
    /// has the time. Costs the segments, and what `Sublists::fetch_frames` does.
    pub fn frames_at<D: Disk>(
        &mut self,
        alloc: Global,
        disk: &mut D,
        at: usize,
        t: Time,
    ) -> Result<Option<SegmentFrames>, FetchError>
        requires there { at < length self.old.plans }
        requires readable { (s : PlainStored) → s ≡ get_or self.old.plans at s → IsReadable (D.disk disk.old).reach.pages s.plan }
        ensures only { D.Disk.only disk.old disk.new }
        ensures failed { IfErr result (IfFailed (Rose (D.disk disk.old).faults (D.disk disk.new).faults)) }
        ensures same { OnlyReads (D.disk disk.old) (D.disk disk.new) }
        // The pages of the segment's place are asked for, in order.
        ensures asked { D.disk_tells → StandsFor self.old.cache (D.disk disk.old).holds.pages → (s : PlainStored)
            → s ≡ get_or self.old.plans at s → AreInTurn s.plan →
            OnOk result (self.new.cache ≡ after_asking_all
            (pieces_chosen (D.disk disk.old).holds.pages (Some s.plan) t.seconds (t.seconds + 1)) self.old.cache) }
        // Those that are missed are read, and nothing else is.
        ensures count { D.disk_tells → StandsFor self.old.cache (D.disk disk.old).holds.pages → (s : PlainStored)
            → s ≡ get_or self.old.plans at s → AreInTurn s.plan →
            OnOk result ((D.disk disk.new).bytes_read ≡ replaced (D.disk disk.old).bytes_read Area.Pages
            ((D.disk disk.old).bytes_read.pages + missed_by_all
            (pieces_chosen (D.disk disk.old).holds.pages (Some s.plan) t.seconds (t.seconds + 1)) self.old.cache)) }
        ensures framed { D.disk_tells → StandsFor self.old.cache (D.disk disk.old).holds.pages → (s : PlainStored)
            → s ≡ get_or self.old.plans at s → AreInTurn s.plan
            → IfOk result (IsFramedAt (D.disk disk.old).holds.pages s.plan t.seconds) }
        ensures damaged { D.disk_tells → StandsFor self.old.cache (D.disk disk.old).holds.pages → (s : PlainStored)
            → s ≡ get_or self.old.plans at s → AreInTurn s.plan
            → IfErr result (IfDamaged (IsUnframedAt (D.disk disk.old).holds.pages s.plan t.seconds)) }
        ensures stays { D.disk_tells → StandsFor self.old.cache (D.disk disk.old).holds.pages
            → StandsFor self.new.cache (D.disk disk.new).holds.pages }
        ensures kept { self.new ≡ record (self.old) { cache = self.new.cache } }
    {
        let Some(segment) = segment_at(&self.plans[at].plan, t) else {
            return Ok(None);
        };
        let place = segment.place;
        match self.sublists.fetch_frames(alloc, disk, &place) {
            Ok(frames) => Ok(Some(SegmentFrames {
                frames,
                page: place.extent.first,
                span: segment.span,
            })),
            Err(error) => Err(error),
        }
    }
}
