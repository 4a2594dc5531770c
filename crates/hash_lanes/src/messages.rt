//! The messages of eight chunks of one size, hashed side by side. Only their first and last blocks are copied.

ghost use Rattle.std.specs.Prelude.{◌≡◌, ℕ, ◌+◌, ◌-◌, ◌*◌, ◌%◌, ◌^◌, ◌<◌, ◌≤◌, ◌++◌, take, drop};
ghost use Rattle.sha2.specs.Sha256.{padding, final_hash, initial_hash_256, digest_bytes};
ghost use Rattle.format_spec.specs.Hashes.{chunk_string};
ghost use Rattle.hash_lanes.specs.Lanes.{lane};
ghost use Rattle.hash_lanes.specs.Starts.{AreInside, chunk_at, row};
ghost use Rattle.hash_lanes.specs.Messages.{last_count};

use crate::blocks::absorb;
use crate::padding::{FRONT, NAME_SIZE, first_block, last_blocks, last_count};
use std::simd::u32x8;

// Where the rows of eight first blocks begin, and those of eight pairs of last blocks.
const FIRST_ROWS: [usize; 8] = [0, 64, 128, 192, 256, 320, 384, 448];

const LAST_ROWS: [usize; 8] = [0, 128, 256, 384, 512, 640, 768, 896];

// The hash value before the first block (FIPS 180-4, section 5.3.3), in each lane.
fn initial() -> [u32x8; 8]
    ensures { (j : ℕ) → j < 8 → lane j result ≡ initial_hash_256 }
{
    [
        u32x8::splat(0x6a09e667),
        u32x8::splat(0xbb67ae85),
        u32x8::splat(0x3c6ef372),
        u32x8::splat(0xa54ff53a),
        u32x8::splat(0x510e527f),
        u32x8::splat(0x9b05688c),
        u32x8::splat(0x1f83d9ab),
        u32x8::splat(0x5be0cd19),
    ]
}

// The first block of each message.
fn first_rows(bytes: &[u8], starts: &[usize; 8]) -> [u8; 512]
    requires { AreInside starts.now FRONT bytes.now }
    ensures { (j : ℕ) → j < 8 → row 64 j result ≡ chunk_string (chunk_at bytes.now starts.now FRONT j) }
{
    let mut rows = [0; 512];
    'lanes: for j in 0..8 {
        let block = first_block(bytes, starts[j]);
        rows[64 * j..64 * j + 64].copy_from_slice(&block);
    }
    rows
}

// The last blocks of each message, of whose chunk of `size` bytes those behind the first `done` are left.
fn last_rows(bytes: &[u8], starts: &[usize; 8], size: usize, done: usize) -> [u8; 1024]
    requires inside { AreInside starts.now size bytes.now }
    requires done { done + (size + NAME_SIZE) % 64 ≡ size }
    requires size { size + NAME_SIZE < 2 ^ 64 }
    ensures { (j : ℕ) → j < 8 → take (64 * last_count (size - done)) (row 128 j result)
        ≡ drop done (chunk_at bytes.now starts.now size j) ++ padding (size + NAME_SIZE) }
{
    let mut rows = [0; 1024];
    'lanes: for j in 0..8 {
        let left = &bytes[starts[j] + done..starts[j] + size];
        let blocks = last_blocks(left, size + NAME_SIZE);
        rows[128 * j..128 * j + 128].copy_from_slice(&blocks);
    }
    rows
}

/// The hash values of the messages of eight chunks of `size` bytes, which begin at `starts`.
pub fn hash_chunks(bytes: &[u8], starts: &[usize; 8], size: usize) -> [u32x8; 8]
    requires inside { AreInside starts.now size bytes.now }
    requires size { FRONT ≤ size }
    ensures { (j : ℕ) → j < 8 → lane j result ≡ final_hash initial_hash_256 (chunk_string (chunk_at bytes.now starts.now size j)) }
{
    let mut state = initial();
    let first = first_rows(bytes, starts);
    absorb(&mut state, &first, &FIRST_ROWS, 0, 1);
    let blocks = (size - FRONT) / 64;
    absorb(&mut state, bytes, starts, FRONT, blocks);
    let done = FRONT + 64 * blocks;
    let last = last_rows(bytes, starts, size, done);
    absorb(&mut state, &last, &LAST_ROWS, 0, last_count(size - done));
    state
}

/// The digest of the hash value in lane `j`.
pub fn digest(state: &[u32x8; 8], j: usize) -> [u8; 32]
    requires { j < 8 }
    ensures { result ≡ digest_bytes (lane j state.now) 8 }
{
    let mut hash = [0; 32];
    'words: for i in 0..8 {
        let word = state[i].to_array()[j];
        hash[4 * i..4 * i + 4].copy_from_slice(&word.to_be_bytes());
    }
    hash
}
