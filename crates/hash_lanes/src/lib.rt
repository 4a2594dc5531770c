//! Eight chunks hashed side by side.
#![tactic(auto)]

mod blocks;
mod messages;
mod padding;
mod rounds;
mod words;

pub use messages::{digest, hash_chunks};
pub use padding::CHUNK_NAME;
