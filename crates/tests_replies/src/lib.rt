//! The tests of replies as bytes (`archive_replies`): of numbers, rows, plans, refusals, verdicts and texts.
//!
//! They stand apart from the other tests of what is read and written, so that a change of what a reply
//! tells proves none of those again.
#![tactic(auto)]

#[cfg(test)]
mod replies;
