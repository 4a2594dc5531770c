//! Where the chunks of files are, by their sizes and hashes.
#![tactic(auto)]

mod index;
mod laws;
#[cfg(test)]
mod tests;

pub use index::{ChunkIndex, Place};
pub use laws::chunks_have_one_place;
