//! Hash trees, and the labelled tree of a state as one.
#![tactic(auto)]

mod branch;
mod canisters;
mod entries;
mod forks;
mod hashes;
mod state_tree;
#[cfg(test)]
mod tests;
mod tree;

pub use hashes::TreeHashes;
pub use state_tree::StateTree;
pub use tree::{HashTree, reconstruct};
