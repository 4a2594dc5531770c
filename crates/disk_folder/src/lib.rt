//! A real folder as a disk.
#![tactic(auto)]

mod disk;
mod folder;
mod lock;
mod names;
mod open;

pub use disk::FolderDisk;
pub use lock::Lock;

#[cfg(test)]
mod tests;
