//! What a map has at a page.

use page_pool::SlotId;

/// The slot that has a page's bytes, and the stamp that they were written with.
#[derive(Clone, Copy, Debug, Drop)]
pub struct Entry {
    pub slot: SlotId,
    pub stamp: u64,
}
