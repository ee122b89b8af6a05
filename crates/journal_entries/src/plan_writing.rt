//! Spelling a plan.
ghost use Rattle.std.specs.Prelude.{◌≡◌, ◌<◌, ◌≤◌, ◌^◌, ◌++◌, length, All, OnOk, IfOk};
ghost use Rattle.journal_entries.specs.PlanSpelling.{layout_byte, plan_spelling, IsDigest, IsWellCut, IsPlanEntry};
ghost use Rattle.journal_entries.specs.PlanBytes.{kind_bytes, segment_bytes, segments_bytes, plan_bytes, plan_length};

use crate::place::{Layout, Place};
use crate::plan::PlanEntry;
use crate::tags::{
    BLOCKS, DIGEST_BYTES, FLAT, GUARANTEE, MOST_FRONT_BYTES, PLANNED, SEGMENT_BYTES, SINCE, UNIFORM,
};
use base_commands::Kind;
use base_types::Time;
use std::alloc::{AllocError, Global};

/// The bytes of a digest are in their ranges. Does nothing.
fn digest_fits(digest: &[u8; DIGEST_BYTES])
    ensures { IsDigest digest.now }
{
    digest.as_slice();
}

/// The digests of places are in their ranges. Does nothing.
fn digests_fit(places: &[Place])
    ensures { All (λ place. IsDigest place.digest) places.now }
{
    for place in places {
        digest_fits(&place.digest);
    }
}

/// The fields of a plan that is well cut are in their ranges. Does nothing.
fn fields_fit(plan: &PlanEntry)
    requires { IsWellCut plan.now }
    ensures { IsPlanEntry plan.now }
{
    plan.word.as_str();
    digests_fit(plan.places.as_slice());
}

/// The byte of a layout.
fn layout_byte(layout: Layout) -> u8
    ensures { result ≡ layout_byte layout }
{
    match layout {
        Layout::Flat => FLAT,
        Layout::Blocks => BLOCKS,
    }
}

/// Adds a kind.
fn put_kind(out: &mut Vec<u8>, kind: Kind) -> Result<(), AllocError>
    ensures { OnOk result (out.new.items ≡ out.old.items ++ kind_bytes kind) }
{
    match kind {
        Kind::Guarantee => out.push(GUARANTEE)?,
        Kind::Uniform => out.push(UNIFORM)?,
        Kind::Since { at } => {
            out.push(SINCE)?;
            out.extend_from_slice(&at.seconds().to_be_bytes())?;
        }
    }
    Ok(())
}

/// Adds what stands in front of the segments.
#[tactic(auto, unfolding(crate::specs::PlanBytes::plan_bytes))]
fn put_front(out: &mut Vec<u8>, plan: &PlanEntry) -> Result<(), AllocError>
    requires { IsWellCut plan.now }
    ensures { OnOk result (out.new.items ++ segments_bytes plan.now.cuts plan.now.places ≡ out.old.items ++ plan_bytes plan.now) }
{
    let word = plan.word.as_str();
    out.push(PLANNED)?;
    out.push(layout_byte(plan.layout))?;
    put_kind(out, plan.kind)?;
    out.extend_from_slice(&plan.fraction.over().to_be_bytes())?;
    out.extend_from_slice(&plan.fraction.under().to_be_bytes())?;
    out.extend_from_slice(&plan.horizon.seconds().to_be_bytes())?;
    out.push(word.len() as u8)?;
    out.extend_from_slice(word.as_bytes())?;
    let count = plan.cuts.as_slice().len() as u32;
    out.extend_from_slice(&count.to_be_bytes())?;
    Ok(())
}

/// Adds a segment.
fn put_segment(out: &mut Vec<u8>, cut: Time, place: Place) -> Result<(), AllocError>
    ensures { OnOk result (out.new.items ≡ out.old.items ++ segment_bytes cut place) }
{
    out.extend_from_slice(&cut.seconds().to_be_bytes())?;
    out.extend_from_slice(&place.extent.first.to_be_bytes())?;
    out.extend_from_slice(&place.extent.bytes.to_be_bytes())?;
    out.extend_from_slice(&place.digest)?;
    Ok(())
}

/// Adds segments.
fn put_segments(out: &mut Vec<u8>, cuts: &[Time], places: &[Place]) -> Result<(), AllocError>
    requires { length places.now ≡ length cuts.now }
    ensures { OnOk result (out.new.items ≡ out.old.items ++ segments_bytes cuts.now places.now) }
{
    for (cut, place) in cuts.iter().zip(places) {
        put_segment(out, *cut, *place)?;
    }
    Ok(())
}

/// The spelling of a plan. Costs its length.
pub fn encode_plan(alloc: Global, plan: &PlanEntry) -> Result<Vec<u8>, AllocError>
    requires { IsWellCut plan.now }
    ensures in_range { IsPlanEntry plan.now }
    ensures spelled { IfOk result (λ v. v.items ≡ plan_spelling plan.now) }
    ensures len { IfOk result (λ v. length v.items ≡ plan_length plan.now) }
    ensures at_least { IfOk result (λ v. 77 ≤ length v.items) }
    ensures at_most { IfOk result (λ v. length v.items < 2 ^ 32) }
{
    fields_fit(plan);
    let cuts = plan.cuts.as_slice();
    let mut out = Vec::with_capacity(alloc, MOST_FRONT_BYTES + cuts.len() * SEGMENT_BYTES)?;
    put_front(&mut out, plan)?;
    put_segments(&mut out, cuts, plan.places.as_slice())?;
    Ok(out)
}
