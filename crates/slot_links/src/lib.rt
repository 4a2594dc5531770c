//! Items in numbered lists: doubly linked by index, so that each change takes constant time.
#![tactic(auto)]

mod links;
#[cfg(test)]
mod tests;

pub use links::Links;
