//! Where the pages of each place begin, counted over the places in order.
ghost use Rattle.std.specs.Prelude.{◌≡◌, ◌≤◌, ℕ, List, length, IfOk};
ghost use Rattle.pages_sublists.specs.Paged.{AreStarts, pages_in_front};

use crate::spelled::Spelling;
use std::alloc::{AllocError, Global};

/// A place, and how many pages those in front of it take.
#[derive(Drop)]
pub(crate) struct Start {
    pub(crate) place: usize,
    pub(crate) front: u64,
}

/// For each of the bytes, how many pages those in front of them take. Where that is more than a number
/// holds, it is as if memory were wanting.
pub(crate) fn starts_of(alloc: Global, spellings: &[Spelling]) -> Result<Vec<u64>, AllocError>
    ensures { IfOk result (λ v. AreStarts v.items spellings.now) }
{
    let mut starts = Vec::new(alloc);
    let mut front: u64 = 0;
    for spelling in spellings {
        starts.push(front)?;
        let Some(next) = front.checked_add(spelling.pages()) else {
            return Err(AllocError);
        };
        front = next;
    }
    Ok(starts)
}

/// A place in front of which no page from this one on lies: the last one that begins there or earlier.
/// Costs the logarithm of the places.
pub(crate) fn start_at(starts: &[u64], page: u64) -> Start
    requires starts { (all : List (List ℕ)) × AreStarts starts.now all }
    ensures place { result.place ≤ length starts.now }
    ensures front { (all : List (List ℕ)) → AreStarts starts.now all → result.front ≡ pages_in_front all result.place }
    ensures before { result.front ≤ page }
{
    match starts.partition_point(|start| *start <= page) {
        0 => Start { place: 0, front: 0 },
        behind => Start {
            place: behind - 1,
            front: starts[behind - 1],
        },
    }
}
