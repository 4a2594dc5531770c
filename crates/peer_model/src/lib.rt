//! Peers that are asked for parts of a state, and peers in memory.
#![tactic(auto)]

mod calls;
mod memory;
mod peers;
#[cfg(test)]
mod tests;

pub use memory::MemPeers;
pub use peers::{PeerError, Peers, Taken};
