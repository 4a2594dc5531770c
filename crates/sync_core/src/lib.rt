//! The core of a sync, which knows no bytes: which items are missing, which peers are asked for them, and which peers are
//! at fault.
#![tactic(auto)]

mod fresh;
mod peers;
mod state;
#[cfg(test)]
mod tests;
mod tried;

pub use state::{Heard, SyncCore};
