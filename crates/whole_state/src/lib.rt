//! States whose memories are written to a disk whole as a height is published.
#![tactic(auto)]

mod marking;
mod pages;
mod writing;

pub use writing::checkpoint;
