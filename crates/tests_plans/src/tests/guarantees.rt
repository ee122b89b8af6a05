//! Plans that keep to a guarantee: their tables, partitions and certificates.

mod all_pairs;
mod brute_force;
mod certificates;
mod given;
mod partitions;
mod rows;
