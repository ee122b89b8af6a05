//! Sublists of plans in pages: stored, gathered and kept.

mod gathering;
mod given;
mod keeping;
mod storing;
