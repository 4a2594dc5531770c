use crate::hash32::Hash32;
use std::marker::Model;

/// The size, place and hash of one chunk of a file.
#[derive(Debug, Drop)]
pub struct ChunkSum {
    /// Bytes in the chunk.
    pub size: u32,
    /// Where the chunk begins in its file.
    pub offset: u64,
    /// The hash of the chunk.
    pub hash: Hash32,
}

// Contracts see the record of its fields.
impl Model for ChunkSum {
    ghost use Rattle.format_spec.specs.Hashes.{ChunkSum as Sum};

    ghost Value = { Sum };

    ghost view = { λ sum. record { size = sum.size; offset = sum.offset; hash = sum.hash } };
}
