//! Maps from pages to entries that share their nodes: a fork takes constant time, and a change copies only the nodes on
//! its way that others share.
#![tactic(auto)]

mod children;
mod deltas;
mod entries;
mod entry;
mod keep;
mod newer;
mod node;
mod roots;
#[cfg(test)]
mod tests;
mod tree;

pub use deltas::{DeltaId, Deltas};
pub use entry::Entry;
