use crate::{Hash32, chunk_hash, chunk_hashes};
use byte_codec::NoMemory;
use format_spec::CHUNK_SIZE;
use hash_lanes::{digest, hash_chunks};
use std::alloc::Global;

// Bytes of which no two places near one another begin alike.
fn mixed(alloc: Global, size: usize) -> Result<Vec<u8>, NoMemory> {
    let mut bytes = Vec::with_capacity(alloc, size)?;
    let mut x = 1u32;
    for _ in 0..size {
        x = x.wrapping_mul(1_664_525).wrapping_add(1_013_904_223);
        bytes.push((x >> 24) as u8)?;
    }
    Ok(bytes)
}

// Whether eight chunks of this size, which begin within the first thousand bytes, have the hashes of `sha2`.
fn are_right(bytes: &[u8], size: usize) -> bool {
    if size < 49 || bytes.len() < 1000 || bytes.len() - 1000 < size {
        return false;
    }
    let starts = [0, 1, 64, 100, 333, 0, 999, 1000];
    let state = hash_chunks(bytes, &starts, size);
    let mut right = true;
    for j in 0..8 {
        let chunk = &bytes[starts[j]..starts[j] + size];
        right = right && Hash32(digest(&state, j)) == chunk_hash(chunk);
    }
    right
}

fn by_sha2(alloc: Global, bytes: &[u8]) -> Result<Vec<Hash32>, NoMemory> {
    let mut hashes = Vec::new(alloc);
    for chunk in bytes.chunks(CHUNK_SIZE) {
        hashes.push(chunk_hash(chunk))?;
    }
    Ok(hashes)
}

// So many zeros, but for one byte of each chunk.
fn stamped(alloc: Global, size: usize) -> Result<Vec<u8>, NoMemory> {
    let mut bytes = vec![in alloc; 0u8; size]?;
    for i in 0..18 {
        if let Some(byte) = bytes.get_mut(i * 1_050_000) {
            *byte = i as u8 + 1;
        }
    }
    Ok(bytes)
}

// Sizes at which the padding takes one block or two, and begins or ends a block.
#[test]
fn lanes_have_the_hashes_of_sha2(rt: HostRuntime) {
    let bytes = mixed(rt.alloc(), CHUNK_SIZE + 1000).expect(&rt, "memory");
    for size in [49, 55, 56, 63, 64, 65, 104, 105, 112, 113, 1_048_575] {
        assert!(rt; are_right(&bytes, size));
    }
}

// Files of 1 to 17 chunks, the last of which has each of these sizes.
#[test]
fn files_have_the_hashes_of_sha2(rt: HostRuntime) {
    let bytes = stamped(rt.alloc(), 17 * CHUNK_SIZE).expect(&rt, "memory");
    let sizes = [1, 55, 56, 63, 64, 65, 1_048_575, 1_048_576];
    for whole in 0..17 {
        let file = bytes
            .get(..whole * CHUNK_SIZE + sizes[whole % 8])
            .expect(&rt, "so many bytes");
        let hashes = chunk_hashes(rt.alloc(), file).expect(&rt, "memory");
        assert_eq!(rt; hashes, by_sha2(rt.alloc(), file).expect(&rt, "memory"));
    }
}
