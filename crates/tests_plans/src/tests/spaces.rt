//! Plans under a bound on space.

mod brute_force;
mod calls;
mod rows;
