//! How far back admissible segments reach.
ghost use Rattle.std.specs.Prelude.{◌≡◌, ◌↔◌, ◌<◌, ◌≤◌, length, IfOk, IsTrue};
ghost use Rattle.plans_partitions.specs.Windows.{IsOver};
ghost use Rattle.plans_partitions.specs.Counts.{AdmissibleBetween, AreOrdered, alive_in};
ghost use Rattle.plans_partitions.specs.Reaches.{IsReach, AreReaches, NoneBefore};

use crate::WindowMin;
use crate::partition::is_within;
use crate::table::Table;
use base_types::Fraction;
use std::alloc::{AllocError, Global};

/// Whether the segment from the start of the window to boundary `k` is admissible. The window holds
/// what is alive in the elementary intervals before `k`.
fn is_reached(table: &Table, factor: Fraction, k: usize, window: &WindowMin) -> bool
    requires inside { k < length table.now.boundaries }
    requires alive { IsOver (alive_in table.now) window.now }
    requires next { window.now.next ≡ k }
    requires before { window.now.from < k }
    ensures { IsTrue result ↔ AdmissibleBetween table.now factor window.now.from k }
{
    let least = table.alive(window.least_place());
    is_within(table.size(window.from(), k), factor, least)
}

/// Moves the start of the same window on to the first boundary from which a segment to boundary `k` is
/// admissible.
fn reach_to(table: &Table, factor: Fraction, k: usize, window: &mut WindowMin)
    requires ordered { AreOrdered table.now.boundaries table.now.begun table.now.ended }
    requires inside { k < length table.now.boundaries }
    requires alive { IsOver (alive_in table.now) window.old }
    requires next { window.old.next ≡ k }
    requires before { window.old.from < k }
    requires none { NoneBefore table.now factor k window.old.from }
    ensures alive { IsOver (alive_in table.now) window.new }
    ensures next { window.new.next ≡ k }
    ensures on { window.old.from ≤ window.new.from }
    ensures reach { IsReach table.now factor k window.new.from }
{
    while !is_reached(table, factor, k, window) {
        let next = window.from() + 1;
        window.start_at(next);
    }
}

/// For each boundary the first one from which a segment to it is admissible, by place; 0 for the first
/// boundary. Since what is inside an admissible segment is admissible, the segments from all later
/// boundaries are too, and the places never fall; so one pass finds them all, with a moving minimum of
/// what is alive. Costs time in the boundaries, and 8 bytes of memory for each of them, which stay; and
/// while it runs that of the moving minimum, 32 bytes for each place in its queue.
pub fn reaches(alloc: Global, table: &Table, factor: Fraction) -> Result<Vec<usize>, AllocError>
    ensures { IfOk result (λ v. AreReaches table.now factor v.items (length table.now.boundaries)) }
{
    let boundaries = table.boundaries().len();
    let mut window = WindowMin::new(alloc);
    let mut lows = Vec::with_capacity(alloc, boundaries)?;
    lows.push(0)?;
    for k in 0..boundaries - 1 {
        window.push(u128::from(table.alive(k)))?;
        reach_to(table, factor, k + 1, &mut window);
        lows.push(window.from())?;
    }
    Ok(lows)
}
