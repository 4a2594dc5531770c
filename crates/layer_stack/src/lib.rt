//! Layers of one memory: page files from the oldest to the newest. A page is that of the newest layer that has it.
#![tactic(auto)]

mod laws;
mod merging;
mod runs;
mod stack;
mod union;

pub use laws::{
    files_that_agree_have_the_same_layers, kept_files_are_layers,
    layers_that_read_as_before_may_be_replaced, pages_read_as_one,
    replaced_files_are_replaced_layers,
};
pub use merging::plan;
pub use stack::Stack;

#[cfg(test)]
mod tests;
