//! Named files, and what a crash may leave of them.
#![tactic(auto)]

mod disk;
mod event;
mod files;
mod image;
mod laws;
mod mem;
mod name;

pub use disk::{Disk, DiskError};
pub use laws::{
    laws_of_bytes, laws_of_calls, laws_of_frames, laws_of_moments, laws_of_spending,
    laws_of_writing,
};
pub use mem::MemDisk;
pub use name::{Kind, Name};

#[cfg(test)]
mod tests;
