//! The manifest of a state: a row for each logical file and for each chunk, its text, its pieces and its root.
#![tactic(auto)]

mod adding;
mod chunks;
mod counts;
mod decoding;
mod encoding;
mod error;
mod fields;
mod files;
mod hashes;
mod making;
mod memory_chunks;
mod meta;
mod names;
mod parts;
#[cfg(test)]
mod reading_tests;
mod row_fields;
mod rows;
mod slots;
#[cfg(test)]
mod tests;

pub use counts::{Counts, count};
pub use error::ManifestError;
pub use making::from_scratch;
pub use meta::MetaManifest;
pub use rows::{ChunkRow, FileRow, Manifest};
