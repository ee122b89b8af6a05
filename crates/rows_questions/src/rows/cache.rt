//! The rows through the cache: how many bytes of Pages questions read, also where pages are freed and
//! written anew.
mod counts;
mod damaged;
mod faults;
mod many;
mod renewed;
mod steps;
