//! The published heights of a disk: opened, published by one rename, purged, swept, and read: pages, ranges of bytes, memories.
#![tactic(auto)]

mod chunks;
mod error;
mod finding;
mod laws;
mod limits;
mod marks;
mod needing;
mod opening;
mod pages;
mod paging;
mod publishing;
mod questions;
mod reading;
mod store;
mod sweeping;

pub use chunks::chunks_are_found_in_states;
pub use error::StoreError;
pub use laws::{
    bad_disks_do_not_open, heights_kept_through_calls, kept_heights_stand,
    store_calls_have_one_answer, stores_open, sweeps_leave_what_is_needed,
};
pub use limits::MAX_GIVEN;
pub use store::{HeightStore, PublishedHeight};

#[cfg(test)]
mod tests;
