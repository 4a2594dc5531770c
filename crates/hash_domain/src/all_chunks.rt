//! The hashes of the chunks of a file.

ghost use Rattle.std.specs.Prelude.{◌≡◌, ℕ, ◌+◌, ◌*◌, ◌^◌, ◌<◌, ◌≤◌, length, map, min, slice_index, IfOk, OnOk};
ghost use Rattle.format_spec.specs.Bytes.{parts, part_count};
ghost use Rattle.format_spec.specs.Hashes.{chunk_hash as hash_of_chunk};
ghost use Rattle.format_spec.specs.declared.limits.TheConstants.{CHUNK_SIZE as chunk_size};
ghost use Rattle.hash_domain.specs.Counted.{HasFirst};

use crate::chunks::chunk_hash;
use crate::hash32::Hash32;
use byte_codec::NoMemory;
use format_spec::CHUNK_SIZE;
use hash_lanes::{digest, hash_chunks};
use std::alloc::Global;

/// The chunks that are hashed side by side.
const LANES: usize = 8;
/// From so many chunks on, lanes that stay empty cost less than one chunk after another.
const FEWEST: usize = 5;

/// The hashes of the chunks of these bytes, eight whole chunks at a time. NoMemory where memory runs out.
pub fn chunk_hashes(alloc: Global, bytes: &[u8]) -> Result<Vec<Hash32>, NoMemory>
    ensures { IfOk result (λ hashes. hashes.items ≡ map hash_of_chunk (parts chunk_size bytes.now)) }
{
    let count = bytes.len().div_ceil(CHUNK_SIZE);
    let mut hashes = Vec::with_capacity(alloc, count)?;
    'groups: for group in 0..count.div_ceil(LANES) {
        add_group(&mut hashes, bytes, LANES * group)?;
    }
    Ok(hashes)
}

// Adds the hashes of eight chunks, or of those that are left.
fn add_group(hashes: &mut Vec<Hash32>, bytes: &[u8], first: usize) -> Result<(), NoMemory>
    requires { first < part_count chunk_size (length bytes.now) }
    ensures { OnOk result (HasFirst hashes.old.items bytes.now first
        → HasFirst hashes.new.items bytes.now (min (first + 8) (part_count chunk_size (length bytes.now)))) }
{
    let left = bytes.len() - CHUNK_SIZE * first;
    let last = first + left.div_ceil(CHUNK_SIZE).min(LANES);
    let whole = (left / CHUNK_SIZE).min(LANES);
    if whole < FEWEST {
        add_each(hashes, bytes, first, last)
    } else {
        add_lanes(hashes, bytes, first, whole)?;
        add_each(hashes, bytes, first + whole, last)
    }
}

// Adds the hashes of the chunks from `first` to the one before `last`, one after another.
fn add_each(
    hashes: &mut Vec<Hash32>,
    bytes: &[u8],
    first: usize,
    last: usize,
) -> Result<(), NoMemory>
    requires order { first ≤ last }
    requires inside { last ≤ part_count chunk_size (length bytes.now) }
    ensures { OnOk result (HasFirst hashes.old.items bytes.now first → HasFirst hashes.new.items bytes.now last) }
{
    'chunks: for i in first..last {
        let at = CHUNK_SIZE * i;
        let end = (at + CHUNK_SIZE).min(bytes.len());
        hashes.push(chunk_hash(&bytes[at..end]))?;
    }
    Ok(())
}

// Adds the hashes of so many whole chunks, side by side.
fn add_lanes(
    hashes: &mut Vec<Hash32>,
    bytes: &[u8],
    first: usize,
    count: usize,
) -> Result<(), NoMemory>
    requires some { 1 ≤ count }
    requires few { count ≤ 8 }
    requires whole { chunk_size * (first + count) ≤ length bytes.now }
    ensures { OnOk result (HasFirst hashes.old.items bytes.now first → HasFirst hashes.new.items bytes.now (first + count)) }
{
    let starts = starts(first, count);
    let state = hash_chunks(bytes, &starts, CHUNK_SIZE);
    'lanes: for j in 0..count {
        hashes.push(Hash32(digest(&state, j)))?;
    }
    Ok(())
}

// Where so many chunks begin. The lanes behind them have the first chunk again.
fn starts(first: usize, count: usize) -> [usize; 8]
    requires some { 1 ≤ count }
    requires few { count ≤ 8 }
    requires fits { chunk_size * (first + count) < 2 ^ 64 }
    ensures value { (j : ℕ) → j < count → slice_index result j ≡ chunk_size * (first + j) }
    ensures inside { (j : ℕ) → j < 8 → slice_index result j + chunk_size ≤ chunk_size * (first + count) }
{
    let mut starts = [CHUNK_SIZE * first; 8];
    'lanes: for j in 0..count {
        starts[j] = CHUNK_SIZE * (first + j);
    }
    starts
}
