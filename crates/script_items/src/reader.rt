//! The reader of a script's items.
ghost use Rattle.std.specs.Prelude.{◌≡◌, ◌≤◌, ◌+◌, ◌<◌, ◌^◌, ◌++◌, List, [], ℕ, true, All, Option, IsSome, IfOk, OnOk, IsErrOf};
ghost use Rattle.machine_model.specs.Causes.{Rose};
ghost use Rattle.script_read.specs.Parts.{IsPartInRange};
ghost use Rattle.script_read.specs.Reading.{most_kept};
ghost use Rattle.script_items.specs.Gathered.{KeepsFew};
ghost use Rattle.script_items.specs.Groups.{Begun};
ghost use Rattle.script_items.specs.Items.{Waits};
ghost use Rattle.script_items.specs.Putting.{Holds, HasRoom, IsPut};
ghost use Rattle.script_items.specs.Reading.{ReaderState, fresh, taken, StandsFor, IsCalm, IsAwaited, Says, end_of};

use crate::gathering::Gathering;
use crate::putting::{put, reserve};
use base_commands::Item;
use machine_model::Source;
use script_read::{Part, Reader as PartReader, ScriptError};
use std::alloc::{AllocError, Global};
use std::marker::Model;

/// A reader of the items of a script. It keeps what the reader of parts keeps of the input, at most
/// 4,263,939 bytes, and of a batch under way texts of at most 16,777,216 bytes together, in at most
/// 1,000 items.
#[derive(Drop)]
pub struct Reader {
    parts: PartReader,
    /// The batch that is under way.
    batch: Option<Gathering>,
}

impl Model for Reader {
    ghost use Rattle.std.specs.Prelude.{Option, ◌≤◌, ◌^◌};
    ghost use Rattle.script_read.specs.Reading.{taken, most_kept};
    ghost use Rattle.script_items.specs.Groups.{Begun};
    ghost use Rattle.script_items.specs.Putting.{Holds};
    ghost use Rattle.script_items.specs.Reading.{ReaderState};

    ghost Value = { ReaderState };

    ghost view = { λ r. record { parts = r.parts; batch = r.batch } };

    ghost invariant = { λ r. (taken r.parts ≤ 2 ^ 40) × (r.parts.kept ≤ most_kept) × ((begun : Option Begun) × Holds r.batch begun) };
}

impl Reader {
    /// A reader that has taken nothing. Costs a block of bytes.
    pub fn new(alloc: Global) -> Result<Reader, AllocError>
        ensures { IfOk result (λ r. r ≡ fresh) }
    {
        let parts = PartReader::new(alloc)?;
        Ok(Reader { parts, batch: None })
    }

    /// The next item of the script, behind lines that are skipped; None where the input was read to
    /// its end behind the last one. A batch is one item. Bytes are pulled only where no item, no
    /// fault and no end is in those taken so far.
    ///
    /// `Broken` says where the script stops being one: in a part, or at the end of an input that ends
    /// within a batch. `Budget` says that `MOST_INPUT_BYTES` were taken and no item is whole in them;
    /// `Failed` that a pull failed; `Memory` that memory is short. No error loses a byte or an item
    /// of a batch: after `Failed` and `Memory` the call may be made again.
    ///
    /// Costs as the parts of the item do.
    pub fn next_item<S: Source>(
        &mut self,
        alloc: Global,
        source: &mut S,
    ) -> Result<Option<Item>, ScriptError>
        ensures only { S.only source.old source.new }
        ensures later { (S.source source.old).faults ≤ (S.source source.new).faults }
        ensures rose { IsErrOf result ScriptError.Failed → Rose (S.source source.old).faults (S.source source.new).faults }
        // There are bytes that the source gave, and those since the last item with these say the answer.
        ensures says { (since : List ℕ) → StandsFor self.old since → ((pulled : List ℕ)
            × (S.source_tells → (S.source source.old).left ≡ pulled ++ (S.source source.new).left)
            × IsCalm since self.old pulled self.new
            × Says self.old since pulled result self.new) }
        // Nothing is pulled while an item, a fault or the end stands in the bytes taken before.
        ensures calm { (since : List ℕ) → StandsFor self.old since → ¬ (Waits self.old.parts.ended since) → source.new ≡ source.old }
        // Nor is it while one stands in those taken within the call.
        ensures awaited { (since : List ℕ) → StandsFor self.old since → ((lefts : List (List ℕ)) × S.pulled source.old lefts source.new
            × (S.source_tells → All (IsAwaited since (S.source source.old).left) lefts)) }
        ensures bound { taken self.new ≤ 2 ^ 40 }
        // However long the input is, few bytes of it are kept, and of a batch texts within the limit.
        ensures kept { (self.new.parts.kept ≤ most_kept) × KeepsFew self.new.batch }
        // An item lets bytes go.
        ensures further { IfOk result (λ item. IsSome item → self.old.parts.passed < self.new.parts.passed) }
        // The end, once told, is the source's.
        ensures end { S.source_tells → (self.old.parts.ended ≡ true → (S.source source.old).left ≡ []) → self.new.parts.ended ≡ true
            → (S.source source.new).left ≡ [] }
    {
        'parts: loop {
            self.reserve()?;
            match self.parts.next_item(alloc, source) {
                Ok(Some(part)) => {
                    if let Some(item) = self.put(alloc, part) {
                        return Ok(Some(item));
                    }
                }
                Ok(None) => return self.end(),
                Err(error) => return Err(error),
            }
        }
    }

    /// Makes room for one part, so that it is put without memory. Constant cost on average.
    fn reserve(&mut self) -> Result<(), AllocError>
        ensures room { OnOk result (HasRoom self.new.batch) }
        ensures parts { self.new.parts ≡ self.old.parts }
        ensures same { (begun : Option Begun) → Holds self.old.batch begun → Holds self.new.batch begun }
        ensures bound { taken self.new ≤ 2 ^ 40 }
        ensures kept { self.new.parts.kept ≤ most_kept }
        ensures few { KeepsFew self.new.batch }
    {
        reserve(&mut self.batch)
    }

    /// The item that is whole with a part for which there is room, if one is. It takes no memory.
    fn put(&mut self, alloc: Global, part: Part) -> Option<Item>
        requires room { HasRoom self.old.batch }
        requires fits { IsPartInRange part }
        ensures parts { self.new.parts ≡ self.old.parts }
        ensures put { (begun : Option Begun) → Holds self.old.batch begun → IsPut begun part result self.new.batch }
        ensures few { KeepsFew self.new.batch }
    {
        put(alloc, &mut self.batch, part)
    }

    /// What the end of the input is answered. Constant cost.
    fn end(&self) -> Result<Option<Item>, ScriptError>
        ensures { result ≡ end_of (taken self.now) self.now.batch }
    {
        match &self.batch {
            Some(_) => Err(ScriptError::Broken {
                at: self.parts.taken(),
            }),
            None => Ok(None),
        }
    }
}
