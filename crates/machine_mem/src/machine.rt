//! The machine in memory, what it holds, and the image that a stop leaves.
ghost use Rattle.std.specs.Prelude.{◌≡◌, ◌+◌, ◌-◌, ◌^◌, ◌<◌, ◌≤◌, [], min, false, length, IfOk, OnOk, OnErr};
ghost use Rattle.machine_model.specs.Areas.{part};
ghost use Rattle.machine_model.specs.Causes.{Rose};
ghost use Rattle.machine_mem.specs.Machines.{wrote, synced, passed, showed, did_read, failed_sync};
ghost use Rattle.machine_model.specs.Moments.{LeftSince};
ghost use Rattle.machine_mem.specs.Picks.{IsPicked, bytes_of};
ghost use Rattle.machine_mem.specs.Faults.{count_of};
ghost use Rattle.machine_mem.specs.Calls.{script_of, starved_of, calls_of, Recalls, Remembers, Stays};
ghost use Rattle.machine_mem.specs.Meaning.{after_calls, snapshot_of, meaning, source_state, sink_state, disk_state};

use crate::counter::Counter;
use crate::difference::{Difference, Write};
use crate::faults::{Counts, Fault, Script};
use crate::history::History;
use crate::input::Input;
use crate::picks::{Pick, Picked, pick_image};
use crate::store::Store;
use crate::tally::Tally;
use machine_model::{Area, Failed, Image, Machine};
use std::alloc::{AllocError, Global};

/// A machine in memory. It tells all that it holds, and its calls fail where its script says so,
/// or where it finds no memory for its record.
#[derive(Drop)]
pub struct MemMachine {
    pub(crate) alloc: Global,
    pub(crate) input: Input,
    pub(crate) history: History,
    pub(crate) read_journal: Tally,
    pub(crate) read_pages: Tally,
    pub(crate) source_faults: Counter,
    pub(crate) sink_faults: Counter,
    pub(crate) disk_faults: Counter,
    pub(crate) script: Script,
    pub(crate) starved: Counter,
    /// Whether a sync has failed. Then each later one does.
    pub(crate) has_lost: bool,
}

impl MemMachine {
    /// A machine with this input left and nothing shown, whose disk is this image, just synced.
    /// The calls that the faults name will fail. Cost: three copies of the image.
    pub fn new(
        alloc: Global,
        input: Vec<u8>,
        image: Image,
        faults: Vec<Fault>,
    ) -> Result<MemMachine, AllocError>
        requires journal { length image.journal.items ≤ 2 ^ 40 }
        requires pages { length image.pages.items ≤ 2 ^ 40 }
        ensures source { IfOk result (λ x. source_state x ≡ record { left = input.items; faults = 0 }) }
        ensures sink { IfOk result (λ x. sink_state x ≡ record { shown = []; faults = 0 }) }
        ensures disk { IfOk result (λ x. disk_state x ≡ record {
          reach = record { journal = length image.journal.items; pages = length image.pages.items };
          holds = record { journal = image.journal.items; pages = image.pages.items };
          faults = 0;
          bytes_read = record { journal = 0; pages = 0 };
          past = [];
          now = record {
            stable = record { journal = image.journal.items; pages = image.pages.items };
            pending = record { journal = []; pages = [] };
            beside = [];
          };
        }) }
        ensures last { IfOk result (λ x. (snapshot_of x).last ≡ bytes_of image) }
        ensures calls { IfOk result (λ x. calls_of x ≡ 0) }
        ensures faults { IfOk result (λ x. (script_of x).faults ≡ faults) }
        ensures counts { IfOk result (λ x. (kind : _) → count_of (script_of x).counts kind ≡ 0) }
        ensures starved { IfOk result (λ x. starved_of x ≡ 0) }
        ensures pulls { IfOk result (λ x. (meaning x).pull_limit ≡ 2 ^ 64 - 1) }
        ensures lost { IfOk result (λ x. (meaning x).has_lost ≡ false) }
    {
        let history = History::new(alloc, image)?;
        Ok(MemMachine {
            alloc,
            input: Input {
                bytes: input,
                at: 0,
                limit: usize::MAX,
            },
            history,
            read_journal: Tally::new(alloc),
            read_pages: Tally::new(alloc),
            source_faults: Counter::new(),
            sink_faults: Counter::new(),
            disk_faults: Counter::new(),
            script: Script {
                faults,
                counts: Counts::new(),
            },
            starved: Counter::new(),
            has_lost: false,
        })
    }

    /// The same machine, of whose input each pull gives at most so many bytes. Constant cost.
    pub fn with_pulls_of(mut self, most: usize) -> MemMachine
        requires { 1 ≤ most }
        ensures state { meaning result ≡ record (meaning self) { pull_limit = most } }
        ensures script { script_of result ≡ script_of self }
        ensures starved { starved_of result ≡ starved_of self }
        ensures stays { Stays self result }
    {
        self.input.limit = most;
        self
    }

    /// The bytes shown so far. Cost: none.
    pub fn shown(&self) -> &[u8]
        ensures { result.now ≡ (sink_state self.now).shown }
    {
        &self.history.current.shown
    }

    /// How many bytes of an area were read, or 2^64 - 1 where there were more.
    pub fn read_of(&self, area: Area) -> u64
        ensures { result ≡ min (part (disk_state self.now).bytes_read area) (2 ^ 64 - 1) }
    {
        match area {
            Area::Journal => self.read_journal.capped(),
            Area::Pages => self.read_pages.capped(),
        }
    }

    /// How many calls failed because the machine found no memory for its record or its bytes.
    pub fn starved(&self) -> u64
        ensures { result ≡ starved_of self.now }
    {
        self.starved.value
    }

    /// The number of moments that `image_at` knows: 1, and one for each write, sync and push so far,
    /// failed ones too.
    pub fn moments(&self) -> usize
        ensures value { result ≡ calls_of self.now + 1 }
        ensures last { after_calls self.now (calls_of self.now) ≡ snapshot_of self.now }
    {
        self.history.calls as usize + 1
    }

    /// An image that was allowed after so many writes, syncs and pushes, and how many bytes were shown
    /// then. Cost: the number of those calls, with a copy of what the disk held for each.
    pub fn image_at(&self, alloc: Global, moment: usize, pick: Pick) -> Result<Picked, AllocError>
        requires { moment < calls_of self.now + 1 }
        ensures picked { IfOk result (λ p. IsPicked (after_calls self.now moment) pick p) }
        ensures left { IfOk result (λ p. LeftSince (disk_state self.now) 0 (bytes_of p.image) (after_calls self.now moment).moment.beside) }
    {
        let then = self.history.at(alloc, moment as u64)?;
        let picked = pick_image(alloc, &then, pick)?;
        Ok(picked)
    }

    /// One area.
    pub(crate) fn store(&self, area: Area) -> &Store
        ensures { result.now ≡ part (record { journal = self.now.history.current.journal; pages = self.now.history.current.pages }) area }
    {
        match area {
            Area::Journal => &self.history.current.journal,
            Area::Pages => &self.history.current.pages,
        }
    }

    /// Counts bytes that were read. Without memory nothing changes.
    pub(crate) fn count_read(&mut self, area: Area, bytes: u64) -> Result<(), AllocError>
        ensures ok { OnOk result (meaning self.new ≡ did_read area bytes (meaning self.old)) }
        ensures err { OnErr result (meaning self.new ≡ meaning self.old) }
        ensures history { self.new.history ≡ self.old.history }
        ensures rest { (self.new.script ≡ self.old.script) × (self.new.starved ≡ self.old.starved) }
    {
        match area {
            Area::Journal => self.read_journal.add(bytes),
            Area::Pages => self.read_pages.add(bytes),
        }
    }

    /// Records a call that changes nothing. Without memory nothing changes.
    pub(crate) fn try_pass(&mut self) -> Result<(), AllocError>
        ensures ok { OnOk result (meaning self.new ≡ passed (meaning self.old)) }
        ensures err { OnErr result (meaning self.new ≡ meaning self.old) }
        ensures recalls { OnOk result (Recalls self.old self.new) }
        ensures stays { OnErr result (Stays self.old self.new) }
        ensures rest { (self.new.script ≡ self.old.script) × (self.new.starved ≡ self.old.starved) }
    {
        self.history.record(self.alloc, Difference::Nothing)
    }

    /// A write of which the first `landed` bytes land. Without memory nothing changes.
    pub(crate) fn try_write(
        &mut self,
        area: Area,
        at: u64,
        bytes: &[u8],
        landed: usize,
    ) -> Result<(), AllocError>
        requires fits { at + length bytes.now ≤ 2 ^ 40 }
        requires within { landed ≤ length bytes.now }
        ensures ok { OnOk result (meaning self.new ≡ wrote area at bytes.now landed (meaning self.old)) }
        ensures err { OnErr result (meaning self.new ≡ meaning self.old) }
        ensures recalls { OnOk result (Recalls self.old self.new) }
        ensures stays { OnErr result (Stays self.old self.new) }
        ensures rest { (self.new.script ≡ self.old.script) × (self.new.starved ≡ self.old.starved) }
    {
        let write = Write {
            area,
            at,
            bytes: Vec::from_slice(self.alloc, bytes)?,
            landed,
        };
        self.history.record(self.alloc, Difference::Write(write))
    }

    /// A sync that comes through. Without memory nothing changes.
    pub(crate) fn try_sync(&mut self) -> Result<(), AllocError>
        ensures ok { OnOk result (meaning self.new ≡ synced (meaning self.old)) }
        ensures err { OnErr result (meaning self.new ≡ meaning self.old) }
        ensures recalls { OnOk result (Recalls self.old self.new) }
        ensures stays { OnErr result (Stays self.old self.new) }
        ensures rest { (self.new.script ≡ self.old.script) × (self.new.starved ≡ self.old.starved) }
    {
        self.history.record(self.alloc, Difference::Sync)
    }

    /// A push that comes through. Without memory nothing changes.
    pub(crate) fn try_push(&mut self, piece: &[u8]) -> Result<(), AllocError>
        ensures ok { OnOk result (meaning self.new ≡ showed piece.now (meaning self.old)) }
        ensures err { OnErr result (meaning self.new ≡ meaning self.old) }
        ensures recalls { OnOk result (Recalls self.old self.new) }
        ensures stays { OnErr result (Stays self.old self.new) }
        ensures rest { (self.new.script ≡ self.old.script) × (self.new.starved ≡ self.old.starved) }
    {
        let piece = Vec::from_slice(self.alloc, piece)?;
        self.history.record(self.alloc, Difference::Show(piece))
    }

    /// Counts a sync that failed as a fault of the disk. From then on each sync fails.
    pub(crate) fn lose(&mut self) -> Failed
        ensures state { meaning self.new ≡ failed_sync (meaning self.old) }
        ensures history { self.new.history ≡ self.old.history }
        ensures rest { (self.new.script ≡ self.old.script) × (self.new.starved ≡ self.old.starved) }
    {
        self.has_lost = true;
        self.disk_faults.fails()
    }

    /// Counts a write, a sync or a push that found no memory.
    pub(crate) fn starve(&mut self)
        ensures same { meaning self.new ≡ meaning self.old }
        ensures script { self.new.script ≡ self.old.script }
        ensures starved { Rose self.old.starved.value self.new.starved.value }
        ensures remembers { Remembers self.old self.new }
    {
        self.history.skip();
        self.starved.rise();
    }
}

impl Machine for MemMachine {
    ghost use Rattle.std.specs.Prelude.{refl};
    ghost use Rattle.std.proofs.Common.{◌∙◌};
    ghost use Rattle.machine_model.specs.Pulls.{AreAsked};
    ghost use Rattle.machine_model.proofs.PullLemmas.{asked_laws};
    ghost use Rattle.machine_mem.specs.Machines.{OnlySource, OnlySink, OnlyDisk, IsBefore};

    ghost asked = { λ x pulls y. AreAsked (λ m. m.source) IsBefore OnlySource (meaning x) pulls (meaning y) };

    ghost asked_laws = { asked_laws meaning (λ m. m.source) (λ m. m.sink) OnlySource (λ a b one. one.sink) OnlySink
        (λ a b one. one.source) OnlyDisk (λ a b one. one.source) };

    ghost source_alone = { λ x y one. (one.sink, one.disk) };

    ghost disk_alone = { λ x y one. (one.source, one.sink) };

    ghost sink_alone = { λ x y one. (one.source, one.beside) };

    ghost source_keeps_lost = { λ x y one was. one.lost ∙ was };

    ghost sink_keeps_lost = { λ x y one was. one.lost ∙ was };

    ghost beside_shown = { λ x sink_tells disk_tells. refl };

    ghost shows = { λ x y sink_tells disk_tells one. one.shows };

    ghost shows_piece = { λ x y piece answer sink_tells disk_tells one. one.moments };
}
