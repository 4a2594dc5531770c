//! A state with all its bytes: applies the lines of a script that speak of one state.
#![tactic(auto)]

mod canisters;
mod height_state;
mod memories;
mod refusals;

pub use height_state::{HeightState, manifest_counts, memory_index, tree_root_of, witness_of};
