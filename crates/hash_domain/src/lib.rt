//! The hashes of chunks, files, pieces, manifests and trees.
#![tactic(auto)]

mod all_chunks;
#[cfg(test)]
mod all_chunks_tests;
mod chunk_sum;
mod chunks;
mod hash32;
mod manifests;
mod sums;
#[cfg(test)]
mod tests;
mod trees;

pub use all_chunks::chunk_hashes;
pub use chunk_sum::ChunkSum;
pub use chunks::{ChunkHasher, chunk_hash, plain_hash};
pub use hash32::{Hash32, read_hash};
pub use manifests::{file_hash, piece_hash, root_hash, root_hash_of_text};
pub use sums::{chunk_sums, is_zeros, sum_of};
pub use trees::{tree_empty, tree_fork, tree_label, tree_leaf};
