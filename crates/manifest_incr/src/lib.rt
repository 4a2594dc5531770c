//! The sums of a memory's chunks, read anew only where a chunk may have changed.
#![tactic(auto)]

mod laws;
mod staleness;
mod table;

pub use laws::the_other_sums_are_those_of_the_memory;
pub use staleness::stale;
pub use table::ChunkTable;

#[cfg(test)]
mod tests;
