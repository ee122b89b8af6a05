//! The longest-first approximation of a list.
ghost use Rattle.std.specs.Prelude.{IfOk};
ghost use Rattle.lists_postings.specs.Lists.{IsList};
ghost use Rattle.lists_approx.specs.Approximations.{IsLongestFirst, IsFewest};

use crate::run::{begun, longer};
use base_types::{Posting, Tolerance};
use std::alloc::{AllocError, Global};

/// The longest-first approximation of a list: each posting ends as late as one that begins there can
/// in any list that approximates it, and has the least frequency that is near all of the list's in its
/// span. No list that approximates the list is shorter. One pass over the list; takes memory for the
/// postings that come of it.
pub fn approximate(
    alloc: Global,
    list: &[Posting],
    tolerance: Tolerance,
) -> Result<Vec<Posting>, AllocError>
    requires { IsList list.now }
    ensures longest_first { IfOk result (λ v. IsLongestFirst tolerance list.now v.items) }
    ensures fewest { IfOk result (λ v. IsFewest tolerance list.now v.items) }
{
    let mut done = Vec::new(alloc);
    let Some((first, others)) = list.split_first() else {
        return Ok(done);
    };
    let mut run = begun(first, tolerance);
    for p in others {
        if let Some(next) = longer(&run, p, tolerance) {
            run = next;
        } else {
            done.push(run.posting)?;
            run = begun(p, tolerance);
        }
    }
    done.push(run.posting)?;
    Ok(done)
}
