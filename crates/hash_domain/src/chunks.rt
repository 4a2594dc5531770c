//! The hashes of chunks, and of bytes with no name before them.

ghost use Rattle.std.specs.Prelude.{◌≡◌, ◌++◌, []};
ghost use Rattle.sha2.specs.Sha256.{sha256};
ghost use Rattle.format_spec.specs.Bytes.{Bytes};
ghost use Rattle.format_spec.specs.Hashes.{chunk_hash as hash_of_chunk};
ghost use Rattle.hash_domain.specs.Chunks.{IsFed};

use crate::hash32::Hash32;
use hash_lanes::CHUNK_NAME;
use sha2::{Digest, Sha256};

/// The hash of a chunk whose bytes come in pieces.
#[derive(Drop)]
pub struct ChunkHasher {
    inner: Sha256,
}

impl ChunkHasher {
    /// Before the first byte.
    pub fn new() -> ChunkHasher
        ensures { IsFed result [] }
    {
        let mut inner = Sha256::new();
        inner.update(CHUNK_NAME);
        ChunkHasher { inner }
    }

    /// The next bytes of the chunk.
    pub fn update(&mut self, bytes: &[u8])
        ensures { (fed : Bytes) → IsFed self.old fed → IsFed self.new (fed ++ bytes.now) }
    {
        self.inner.update(bytes);
    }

    /// The hash of the chunk.
    #[tactic(auto, unfolding(format_spec::specs::Hashes::chunk_hash))]
    pub fn end(self) -> Hash32
        ensures { (fed : Bytes) → IsFed self fed → result ≡ hash_of_chunk fed }
    {
        Hash32(self.inner.finalize())
    }
}

/// The hash of a chunk.
#[tactic(auto, unfolding(format_spec::specs::Hashes::chunk_hash))]
pub fn chunk_hash(bytes: &[u8]) -> Hash32
    ensures { result ≡ hash_of_chunk bytes.now }
{
    let mut hasher = Sha256::new();
    hasher.update(CHUNK_NAME);
    hasher.update(bytes);
    Hash32(hasher.finalize())
}

/// The SHA-256 of these bytes (FIPS 180-4, section 6.2).
pub fn plain_hash(bytes: &[u8]) -> Hash32
    ensures { result ≡ sha256 bytes.now }
{
    Hash32(Sha256::digest(bytes))
}
