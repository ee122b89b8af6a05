//! What was checked and put away.
ghost use Rattle.std.specs.Prelude.{◌≡◌, ◌+◌, ◌≤◌, ◌^◌, ◌++◌, ℕ, List, [], nat_eq, Some, IfOk, OnOk};
ghost use Rattle.std.specs.Map.{lookup, remove_entry};
ghost use Rattle.pages_checked.specs.Weights.{CheckedState, IsLight, weight_of_all};

use crate::checked::{Checked, MOST_BYTES};
use lru::LruCache;
use std::alloc::{AllocError, Global};
use std::marker::Model;

/// Bytes that were checked, each under the first page of its place, what was used last in front. Together
/// they take at most 64 MiB.
#[derive(Drop)]
pub(crate) struct Known {
    places: LruCache<u32, Checked>,
    size: usize,
}

impl Model for Known {
    ghost use Rattle.std.specs.Prelude.{◌≡◌, ◌-◌, ◌≤◌, ◌^◌, ℕ, List};
    ghost use Rattle.pages_checked.specs.Weights.{CheckedState, weight_of_all};

    ghost Value = { List (ℕ × CheckedState) };

    ghost view = { λ k. k.places.entries };

    ghost invariant = { λ k. (weight_of_all k.places.entries ≡ k.size) × (k.size ≤ 2 ^ 26) × (k.places.cap ≡ 2 ^ 64 - 1) };
}

impl Known {
    /// Nothing yet.
    pub(crate) fn new(alloc: Global) -> Result<Known, AllocError>
        ensures { IfOk result (λ k. k ≡ []) }
    {
        Ok(Known {
            places: LruCache::unbounded(alloc)?,
            size: 0,
        })
    }

    /// Puts what was checked in front, in the place of what was put away under its page, if it is light
    /// enough; what was used longest ago makes room for it.
    pub(crate) fn put(&mut self, checked: Checked) -> Result<(), AllocError>
        ensures { OnOk result (IsLight checked → lookup (nat_eq checked.page) self.new ≡ Some checked) }
    {
        if !checked.is_light() {
            return Ok(());
        }
        let weight = checked.weight();
        self.make_room(weight);
        let old = self.places.push(checked.page(), checked)?;
        self.size += weight;
        if let Some((_, old)) = old {
            self.size -= old.free();
        }
        Ok(())
    }

    /// Takes out what was put away under a page.
    pub(crate) fn take(&mut self, page: u32) -> Option<Checked>
        ensures taken { result ≡ lookup (nat_eq page) self.old }
        ensures left { self.new ≡ remove_entry (nat_eq page) self.old }
    {
        match self.places.pop(&page) {
            Some(old) => {
                self.size -= old.weight();
                Some(old)
            }
            None => None,
        }
    }

    /// Forgets what was used longest ago, until there is room for so many bytes more.
    fn make_room(&mut self, weight: usize)
        requires { weight ≤ 2 ^ 26 }
        ensures room { weight_of_all self.new + weight ≤ 2 ^ 26 }
        // What is forgotten stood behind the others.
        ensures behind { (gone : List (ℕ × CheckedState)) × (self.old ≡ self.new ++ gone) }
        // Where there is room nothing is forgotten.
        ensures enough { weight_of_all self.old + weight ≤ 2 ^ 26 → self.new ≡ self.old }
    {
        'places: while self.size > MOST_BYTES - weight {
            match self.places.pop_lru() {
                Some((_, oldest)) => self.size -= oldest.free(),
                None => return,
            }
        }
    }
}
