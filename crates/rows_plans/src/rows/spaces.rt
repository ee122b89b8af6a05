//! The rows of plans under a space bound. Of plans that are best alike the program may choose any, so most rows
//! have one best plan, and the others want that alone in which the best ones agree.
mod foreign;
mod many;
mod places;
mod plans;
mod refusals;
mod replacements;
mod replies;
mod stops;
