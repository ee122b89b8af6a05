//! One part more of a script.
ghost use Rattle.std.specs.Prelude.{◌≡◌, ◌<◌, ◌^◌, Option, Some, None, OnOk};
ghost use Rattle.base_commands.specs.Batches.{item_bytes};
ghost use Rattle.script_items.specs.Groups.{Begun, member};
ghost use Rattle.script_items.specs.Putting.{Holds, HasRoom, IsPut, IsCounted};

use crate::gathering::Gathering;
use crate::member::member_of;
use base_commands::{Command, Item};
use script_read::Part;
use std::alloc::{AllocError, Global};

/// Makes room for one item of the batch that is under way, if one is.
pub(crate) fn reserve(batch: &mut Option<Gathering>) -> Result<(), AllocError>
    ensures room { OnOk result (HasRoom batch.new) }
    ensures same { (begun : Option Begun) → Holds batch.old begun → Holds batch.new begun }
{
    match batch {
        Some(gathering) => gathering.reserve(),
        None => Ok(()),
    }
}

/// The item that is whole with this part, if one is; the batch is the one under way then. It takes no
/// memory.
pub(crate) fn put(alloc: Global, batch: &mut Option<Gathering>, part: Part) -> Option<Item>
    requires room { HasRoom batch.old }
    requires holds { (begun : Option Begun) × Holds batch.old begun }
    requires counted { IsCounted part }
    requires short { item_bytes (member part) < 2 ^ 40 }
    ensures { (begun : Option Begun) → Holds batch.old begun → IsPut begun part result batch.new }
{
    match batch.take() {
        Some(gathering) => add(batch, gathering, part),
        None => begin(alloc, batch, part),
    }
}

/// The same where no batch is under way.
fn begin(alloc: Global, batch: &mut Option<Gathering>, part: Part) -> Option<Item>
    requires none { batch.old ≡ None }
    requires counted { IsCounted part }
    ensures { IsPut None part result batch.new }
{
    match part {
        Part::Item(item) => Some(item),
        Part::Batch { count } => {
            *batch = Some(Gathering::new(alloc, count));
            None
        }
    }
}

/// The same where this one is.
fn add(batch: &mut Option<Gathering>, gathering: Gathering, part: Part) -> Option<Item>
    requires none { batch.old ≡ None }
    requires room { HasRoom (Some gathering) }
    requires holds { (begun : Option Begun) × Holds (Some gathering) begun }
    requires short { item_bytes (member part) < 2 ^ 40 }
    ensures { (begun : Option Begun) → Holds (Some gathering) begun → IsPut begun part result batch.new }
{
    let mut gathering = gathering;
    gathering.add(member_of(part));
    if gathering.is_whole() {
        return Some(Item::Command(Command::Batch(gathering.finish())));
    }
    *batch = Some(gathering);
    None
}
