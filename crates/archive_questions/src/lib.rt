//! What an open archive is asked: what a query finds at a time, all of it, the first rows or approximately,
//! and over a window, the text of a version, lists within a tolerance, plans that are proposed and certified,
//! how words best share a budget, and whether all is sound.
//!
//! A question changes nothing but which pages an archive keeps, and what `find` notes, and these go on being what reads
//! give. An answer is made from the lists that are chosen, by what reads of Pages give; in step with
//! the disk it is the history's (`specs/Answering.antt`, `specs/After.antt`).
#![tactic(auto)]

mod approximating;
mod asking;
mod besting;
mod certifying;
mod checking;
mod choosing;
mod error;
mod holding;
mod planning;
mod sharing;
mod windows;

pub use approximating::{Approximation, RoughAnswer, approx, rough};
pub use asking::{find, show, top};
pub use besting::{BestAnswer, best};
pub use certifying::certificate;
pub use checking::verify;
pub use error::{AskError, ShareError};
pub use planning::propose;
pub use sharing::share;
pub use windows::between;
