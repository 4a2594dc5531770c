//! A pool of pages in numbered slots. A slot is counted, so that several owners share its page.
#![tactic(auto)]

mod pool;
mod slot;
#[cfg(test)]
mod tests;

pub use format_spec::PageBytes;
pub use pool::PagePool;
pub use slot::{NO_SLOT, SlotId};
