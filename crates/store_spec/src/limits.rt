//! Limits of what stands on a disk.

use format_spec::{
    CHUNK_PAGES, CHUNK_SIZE, HASH_SIZE, MAX_CANISTERS, MAX_LAYERS, MAX_STATE_PAGES, MAX_SYSTEM,
};

/// Memories of a state.
const MAX_MEMORIES: usize = 2 * MAX_CANISTERS;

/// Chunks of all memories of a state: those that are full, and one more a memory.
const MAX_CHUNKS: usize = MAX_STATE_PAGES / CHUNK_PAGES + MAX_MEMORIES;

/// Bytes of a chunk's sum at most: a byte before the hash.
const MAX_SUM: usize = 1 + HASH_SIZE;

/// Bytes that a mark has at most.
pub const MAX_MARK: usize = 84
    + MAX_SYSTEM
    + (4 + 8 * MAX_LAYERS) * MAX_MEMORIES
    + MAX_SUM * MAX_CHUNKS
    + HASH_SIZE * (MAX_SYSTEM / CHUNK_SIZE);
