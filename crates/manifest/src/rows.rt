//! The rows of a manifest.

use byte_codec::Blob;
use hash_domain::Hash32;
use std::marker::Model;

/// A logical file.
#[derive(Debug, Drop)]
pub struct FileRow {
    /// `canister/ID/heap`, `canister/ID/stable` or `system`.
    pub name: Blob,
    /// Bytes in the file.
    pub size: u64,
    /// The hash over the rows of its chunks.
    pub hash: Hash32,
}

// Contracts see the record of its fields.
impl Model for FileRow {
    ghost use Rattle.state_spec.specs.Manifest.{FileRow as Row};

    ghost Value = { Row };

    ghost view = { λ row. record { name = row.name; size = row.size; hash = row.hash } };
}

/// A chunk of a logical file.
#[derive(Debug, Drop)]
pub struct ChunkRow {
    /// The number of its file, from 0.
    pub file: u32,
    /// Bytes in the chunk.
    pub size: u32,
    /// Where it begins in its file.
    pub offset: u64,
    /// The hash of its bytes.
    pub hash: Hash32,
}

// Contracts see the file and the sum of the chunk.
impl Model for ChunkRow {
    ghost use Rattle.state_spec.specs.Manifest.{ChunkRow as Row};

    ghost Value = { Row };

    ghost view = { λ row. record { file = row.file; sum = record { size = row.size; offset = row.offset; hash = row.hash } } };
}

/// A row for each logical file in order, and a row for each chunk that has one in order of files and offsets.
#[derive(Debug, Drop)]
pub struct Manifest {
    /// The version of the format: 1 or 2.
    pub version: u32,
    /// The files.
    pub files: Vec<FileRow>,
    /// The chunks.
    pub chunks: Vec<ChunkRow>,
}

// Contracts see the version and the two lists of rows.
impl Model for Manifest {
    ghost use Rattle.state_spec.specs.Manifest.{Manifest as Rows};

    ghost Value = { Rows };

    ghost view = { λ manifest. record { version = manifest.version; files = manifest.files.items; chunks = manifest.chunks.items } };
}
