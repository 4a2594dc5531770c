//! Messages between peers: what is asked for, what is answered, and which bytes are right for an item.
#![tactic(auto)]

mod answer;
mod ask;
mod item;
mod laws;
mod right;
#[cfg(test)]
mod tests;

pub use answer::{Answer, Content};
pub use ask::{Ask, Target};
pub use item::Item;
pub use laws::views_tell_values_apart;
pub use right::{Known, is_right};
